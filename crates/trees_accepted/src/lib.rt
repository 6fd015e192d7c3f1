// What the reader accepts is a legal tree: theorems alone.
#![tactic(auto)]
