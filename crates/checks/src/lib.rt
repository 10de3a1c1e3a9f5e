// Whether a file is accepted, and whether it is Mobile XMF.
#![tactic(auto)]

mod checks;
mod verdicts;

pub use checks::make_check;
pub use verdicts::make_verdict;
