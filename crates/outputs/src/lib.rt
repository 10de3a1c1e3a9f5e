// The texts that a call writes: sheets, conversions, and a file whose header is mended.
#![tactic(auto)]

mod mending;
mod sheets;
mod texts;

pub use mending::{make_mend_lines, make_mended};
pub use sheets::{make_moved, make_sheet};
pub use texts::{make_utf8, make_utf16};
