// What is written is read back, and what is read can be written: theorems alone.
#![tactic(auto)]
