// What the command prints: one function for all questions, which makes the answer's text in a lent buffer.
#![tactic(auto)]

mod asked;

pub use asked::{Asked, make};
pub use frames::Frames;
pub use lines::{Made, put_field, put_head};
pub use titles::title_format;
pub use usage::{Sums, add_file, make_sums, no_sums};
