// The tree writer.
#![tactic(auto)]

pub mod write;
