// Choices by a test: definitions and laws alone.
#![tactic(auto)]
