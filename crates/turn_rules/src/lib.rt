// The rules of the claim over every list of turns (specs/Rules.antt), what a list of turns is (specs/Turns.antt), and the claim (proofs/Claim.antt):
// definitions and theorems alone.
#![tactic(auto)]
