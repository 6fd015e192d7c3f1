// Samples alone: calls of the C interface at literal words, by computation (specs/Vectors.antt).
#![tactic(auto)]
