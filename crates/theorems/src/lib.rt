// What is proved, on one page: theorems alone.
#![tactic(auto)]
