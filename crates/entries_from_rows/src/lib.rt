// Each row that the reader leaves is read by its struct as the entry that the rules name: theorems alone.
#![tactic(auto)]
