// Where the bytes of a file go, and sums over files.
#![tactic(auto)]

mod kinds;
mod sums;

pub use kinds::{make_bytes, make_bytes_line};
pub use sums::{Sums, add_file, make_sums, no_sums};
