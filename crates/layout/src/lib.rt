// The reading of one model by its definition: a fault (27 to 29) or its points. This crate has definitions and laws,
// and no functions; the code that reads frames, enters instances and shows points is in the crates that depend on it.
#![tactic(auto)]
