// A catalog's models as trees of groups: what an accepted catalog defines, and the removal of models from a catalog.
// This crate has definitions and theorems only, and no functions.
#![tactic(auto)]
