// What a tree's message is read as: theorems alone.
#![tactic(auto)]
