// Writes made one after the other: in every order that keeps the order of writes to the same point, they end in the same map, and
// each returns the same. This crate has definitions and theorems only, and no functions.
#![tactic(auto)]
