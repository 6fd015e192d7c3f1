// Theorems alone: what calls of the writer wrote, calls of the session read back, in any chunks.
#![tactic(auto)]
