// The text of test cases: fields of a line, numbers and bytes read from a field, words and texts compared, answers put into a buffer.
//
// A case is a line: a word for the question, and fields with single spaces between them. No function here has a `requires`.
#![tactic(auto)]

mod buffers;
mod fields;
mod input;
mod output;
mod words;

pub use buffers::{STALE, item_buffer, node_buffer, text_buffer};
pub use fields::{field, find_mark, part, part_start};
pub use input::{Decoded, read_bytes, read_decimal, read_hex, read_number};
pub use output::{
    put, put_byte, put_decimal, put_hex, put_refusal, put_rows, put_spaced, put_words, write_line,
};
pub use words::{is_all, row_words};
