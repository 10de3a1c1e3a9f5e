// An answer: its status and its text. What every answer's text shares: how a line ends, and what becomes of a refusal and of a text that has no room.
#![tactic(auto)]

ghost use Rattle.std.specs.Prelude.{List, ℕ, length};
ghost use Rattle.refusals.specs.Reasons.{number_of};
ghost use Rattle.room.specs.Counts.{Counts};
ghost use Rattle.lines.specs.Answer.{answer, name_field, ended, head_line, refusal_line, too_long_line, closed, refused_by, fitted, Gives, Settles};

use refusals::{Reason, Refusal};

// The status, and how many bytes at the start of the buffer are the text.
#[derive(Clone, Copy)]
pub struct Made {
    pub status: u64,
    pub size: usize,
}

// Puts the field that ends a line with a name: a tab, and the name as names are on a sheet.
pub fn put_field(out: &mut [u8], name: &[u8]) -> usize
    ensures { Counts out.old out.new 0 (name_field name.now) result }
{
    let next = room::put_byte(out, 0, 0x09);
    text::put_escaped(out, next, name, 0, name.len())
}

// Puts the end of a line: the field that ends it, if there is one, and the line's end.
pub fn put_end(out: &mut [u8], to: usize, tail: &[u8]) -> usize
    ensures { Counts out.old out.new to (ended tail.now) result }
{
    let next = room::put_bytes(out, to, tail);
    room::put_byte(out, next, 0x0a)
}

// Puts the line that names a file.
pub fn put_head(out: &mut [u8], tail: &[u8]) -> usize
    ensures { Counts out.old out.new 0 (head_line tail.now) result }
{
    let next = room::put_byte(out, 0, b'F');
    put_end(out, next, tail)
}

// Puts the line of a refusal.
fn put_refusal(out: &mut [u8], tail: &[u8], e: Refusal) -> usize
    ensures { Counts out.old out.new 0 (refusal_line tail.now (number_of e.0) e.1) result }
{
    let a = room::put_byte(out, 0, b'R');
    let b = text::put_number(out, a, e.0.number());
    let c = text::put_number(out, b, e.1 as u64);
    put_end(out, c, tail)
}

// Puts the line of a file that is too long.
fn put_too_long(out: &mut [u8], tail: &[u8]) -> usize
    ensures { Counts out.old out.new 0 (too_long_line tail.now) result }
{
    let next = room::put_bytes(out, 0, b"too long");
    put_end(out, next, tail)
}

// Ends a text that was put up to `end`: the rest of the buffer is 0. No answer where it has no room.
fn close(text: &mut [u8], end: usize, status: u64) -> Made
    ensures { (o w : List ℕ) → Counts o text.old 0 w end → Gives (length o) result text.new (closed (length o) (answer status w)) }
{
    if text.len() < end {
        text.fill(0);
        return Made { status: 1, size: 0 };
    }
    room::fill_from(text, end, 0);
    Made { status, size: end }
}

// The answer that is a refusal.
pub fn refuse(text: &mut [u8], tail: &[u8], e: Refusal) -> Made
    ensures { Gives (length text.old) result text.new (refused_by (length text.old) tail.now (number_of e.0) e.1) }
{
    let end = put_refusal(text, tail, e);
    close(text, end, 2)
}

// The answer for a file that is too long.
pub fn refuse_long(text: &mut [u8], tail: &[u8]) -> Made
    ensures { Gives (length text.old) result text.new (closed (length text.old) (answer 2 (too_long_line tail.now))) }
{
    let end = put_too_long(text, tail);
    close(text, end, 2)
}

// The answer whose text was put up to `end`: refused for lack of room where that is past the buffer.
pub fn conclude(text: &mut [u8], tail: &[u8], end: usize, status: u64) -> Made
    ensures { (o w : List ℕ) → Counts o text.old 0 w end → Gives (length o) result text.new (fitted (length o) tail.now (answer status w)) }
{
    if text.len() < end {
        return refuse(text, tail, Refusal(Reason::NoRoom, 0));
    }
    close(text, end, status)
}

// The answer whose text a call wrote into the buffer, or refused.
pub fn settle(text: &mut [u8], tail: &[u8], written: Result<usize, Refusal>) -> Made
    ensures { Settles written tail.now text.old text.new result }
{
    match written {
        Err(e) => refuse(text, tail, e),
        Ok(n) => Made { status: 0, size: n },
    }
}
