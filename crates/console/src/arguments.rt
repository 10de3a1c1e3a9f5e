// The program's arguments.
ghost use Rattle.std.specs.Prelude.{IfSome};
ghost use Rattle.io.specs.Counts.{IsPrefixLen};

use crate::messages;
use std::io::Eprint;
use std::rt::Env;

// Whether argument i is the word.
pub fn is_word(rt: &impl Env, i: usize, word: &[u8]) -> bool {
    let mut buf = io::buffer();
    match program::arg(rt, i, &mut buf) {
        Ok(n) => &buf[..n] == word,
        Err(_) => false,
    }
}

// Puts an argument at the start of the buffer; says so where it is missing or too long, and `what` it is. Answers its length.
pub fn arg_at(rt: &(impl Env + Eprint), i: usize, what: &[u8], buf: &mut [u8]) -> Option<usize>
    ensures { IfSome result (λ n. IsPrefixLen n buf.new) }
{
    match program::arg(rt, i, buf) {
        Ok(n) => Some(n),
        Err(error) => {
            messages::failed(rt, what, error);
            None
        }
    }
}

// The number that a word is; says so where it is none.
fn read_number(rt: &impl Eprint, word: &[u8]) -> Option<u64> {
    let number = spelling::decimal(word);
    if number.is_none() {
        messages::trouble(rt, word, b"no decimal number");
    }
    number
}

// The number that argument i is; says so where it is none.
pub fn number_at(rt: &(impl Env + Eprint), i: usize) -> Option<u64> {
    let mut buf = io::buffer();
    let n = arg_at(rt, i, b"a number", &mut buf)?;
    read_number(rt, &buf[..n])
}

// The descriptor for the status that argument i names; -1 for none.
pub fn status_at(rt: &impl Env, i: usize) -> i32 {
    let mut buf = io::buffer();
    match program::arg(rt, i, &mut buf) {
        Ok(n) => spelling::status(&buf[..n]),
        Err(_) => -1,
    }
}
