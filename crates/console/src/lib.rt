// The words that the program was started with, and what it says: answers on standard output, messages on standard error.
#![tactic(auto)]

mod arguments;
mod host;
mod messages;

pub use arguments::{arg_at, is_word, number_at, status_at};
pub use host::Host;
pub use messages::{
    Unwritten, failed, line_buffer, say_name, say_refusal, say_safe, trouble, usage, write,
    write_answer,
};
