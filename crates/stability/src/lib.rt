// How a listing changes when models are inserted into the map or removed from the catalog. This crate has theorems only, and
// no functions.
#![tactic(auto)]
