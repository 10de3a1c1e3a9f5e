// Answers on standard output, and messages on standard error: `xmf: NAME: reason`.
ghost use Rattle.std.specs.Prelude.{◌≡◌, length};

use std::io::{Eprint, Error, Print};

// Room for a line with a name of 4,096 bytes, each as a backslash and two digits.
pub fn line_buffer() -> [u8; 12300]
    ensures { 12300 ≡ length result }
{
    [0; 12300]
}

// Writes a name, safe on a terminal.
pub fn say_safe(rt: &impl Eprint, name: &[u8]) {
    let mut text = line_buffer();
    let end = notes::put_safe(&mut text, 0, name, name.len());
    let n = spelling::within(end, &text);
    program::say(rt, &text[..n]);
}

// `-` is standard input.
fn say_start(rt: &impl Eprint, name: &[u8]) {
    program::say(rt, b"xmf: ");
    if name == b"-".as_slice() {
        program::say(rt, b"standard input");
    } else {
        say_safe(rt, name);
    }
}

// Says what failed, and why.
pub fn failed(rt: &impl Eprint, name: &[u8], error: Error) {
    say_start(rt, name);
    program::say_reason(rt, error);
}

// Says what is wrong.
pub fn trouble(rt: &impl Eprint, name: &[u8], reason: &[u8]) {
    say_start(rt, name);
    program::say(rt, b": ");
    program::say(rt, reason);
    program::say(rt, b"\n");
}

// Says whose answer follows.
pub fn say_name(rt: &impl Eprint, name: &[u8]) {
    say_safe(rt, name);
    program::say(rt, b":\n");
}

// Says a refusal. Answers the status.
pub fn say_refusal(rt: &impl Eprint, line: &[u8], status: u64) -> u64 {
    program::say(rt, line);
    status
}

// Says that the words are not those of a command. Answers the status.
pub fn usage(rt: &impl Eprint) -> u64 {
    program::say(rt, b"xmf: bad words\n");
    1
}

// Why standard output did not take all of a text: it failed, as was said; or nobody reads it any more, of which nothing is said.
#[derive(Clone, Copy)]
pub enum Unwritten {
    Failed,
    Unread,
}

impl Unwritten {
    // The status that the program ends with.
    pub fn status(self) -> u64 {
        match self {
            Unwritten::Failed => 1,
            Unwritten::Unread => u64::from(program::UNREAD),
        }
    }
}

// Writes to standard output, and says so where not all was written.
pub fn write(rt: &(impl Print + Eprint), text: &[u8]) -> Result<(), Unwritten> {
    match rt.write_all(text) {
        Ok(()) => Ok(()),
        Err(error) => {
            if program::is_unread(&error) {
                return Err(Unwritten::Unread);
            }
            failed(rt, b"standard output", error);
            Err(Unwritten::Failed)
        }
    }
}

// Writes an answer with this status to standard output; answers the status.
pub fn write_answer(rt: &(impl Print + Eprint), text: &[u8], status: u64) -> u64 {
    match write(rt, text) {
        Ok(()) => status,
        Err(unwritten) => unwritten.status(),
    }
}
