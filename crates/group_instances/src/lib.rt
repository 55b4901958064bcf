// An instance of a group: its path, the registers of the points in its scope, and the number of instances of a group.
// Every public function accepts any arguments.
#![tactic(auto)]

mod counts;
mod paths;
mod tables;

pub use counts::{count_of, fill_count, is_unimplemented};
pub use paths::{InstancePath, LOWER_LEVELS};
pub use tables::{NUMBERS, record_run};
