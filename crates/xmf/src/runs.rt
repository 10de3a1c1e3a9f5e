// The runs of a file.
ghost use Rattle.std.specs.Prelude.{◌≡◌, length};

use answers::Asked;
use console::Host;
use std::io::{Eprint, Print};

// Room for all runs of a file: a header, 5 parts of each of 256 nodes, 1,024 items in two parts each and what lies between them are fewer than 3,700, and a line has at
// most 31 bytes.
fn runs_buffer() -> [u8; 131072]
    ensures { 131072 ≡ length result }
{
    [0; 131072]
}

// Writes the runs of the bytes of a file.
fn runs_of(rt: &(impl Print + Eprint), file: &[u8]) -> u64 {
    let mut text = runs_buffer();
    let made = answers::make(Asked::Runs, b"", file, b"", &mut text);
    let n = made.size;
    console::write_answer(rt, &text[..n], made.status)
}

// FILE
pub fn runs(rt: &impl Host, count: usize) -> u64 {
    if count != 4 {
        return console::usage(rt);
    }
    let mut file = program::file_buffer();
    match storage::read_at(rt, 3, b"the file's name", &mut file) {
        Some(n) => runs_of(rt, &file[..n]),
        None => 1,
    }
}
