// What holds of the records of every listing: the count of headers, tiling, the model and the raw value of each record, and that
// registers past the end do not matter. It has definitions and theorems only, and no functions.
#![tactic(auto)]
