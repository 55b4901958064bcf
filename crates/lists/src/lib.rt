// Definitions and laws of lists and tests that all crates use. It has no functions.
#![tactic(auto)]
