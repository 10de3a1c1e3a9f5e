// The answers for the files that arguments name: what is written beside each, and the status of all.
#![tactic(auto)]

mod shows;

ghost use Rattle.std.specs.Prelude.{◌≡◌};
ghost use Rattle.asking.specs.Status.{worst};

use answers::Asked;
use console::{Host, Unwritten};
use std::io::{Eprint, Print};

// Where a file's name stands: nowhere, at the end of the line, before an answer that is no refusal and on standard error, or on a line of its own. `Shown` is for the view
// of `show`.
#[derive(Clone, Copy)]
pub enum Mode {
    Plain,
    Field,
    Above,
    Head,
    Quiet,
    Shown,
}

// Puts the field that ends the line.
fn put_tail(out: &mut [u8], mode: Mode, name: &[u8]) -> usize {
    match mode {
        Mode::Field => answers::put_field(out, name),
        Mode::Above => answers::put_field(out, name),
        _ => 0,
    }
}

// Writes the line that names the file.
fn write_head(rt: &(impl Print + Eprint), name: &[u8]) -> Result<(), Unwritten> {
    let mut tail = console::line_buffer();
    let mut text = console::line_buffer();
    let a = answers::put_field(&mut tail, name);
    let n = spelling::within(a, &tail);
    let b = answers::put_head(&mut text, &tail[..n]);
    let m = spelling::within(b, &text);
    console::write(rt, &text[..m])
}

// Writes an answer, with what stands before it.
fn write_answer(
    rt: &(impl Print + Eprint),
    mode: Mode,
    name: &[u8],
    text: &[u8],
    status: u64,
) -> Result<(), Unwritten> {
    match mode {
        Mode::Quiet => Ok(()),
        Mode::Head => {
            write_head(rt, name)?;
            console::write(rt, text)
        }
        Mode::Above => {
            if status == 0 {
                console::say_name(rt, name);
            }
            console::write(rt, text)
        }
        _ => console::write(rt, text),
    }
}

// Answers for the bytes of a file: its status, or standard output did not take the answer.
fn answer(
    rt: &(impl Print + Eprint),
    asked: Asked,
    mode: Mode,
    word: &[u8],
    name: &[u8],
    file: &[u8],
) -> Result<u64, Unwritten> {
    let mut tail = console::line_buffer();
    let end = put_tail(&mut tail, mode, name);
    let t = spelling::within(end, &tail);
    let mut text = io::large_buffer();
    let made = answers::make(asked, word, file, &tail[..t], &mut text);
    if made.status == 1 {
        console::trouble(rt, name, b"the item row is hidden");
        return Ok(1);
    }
    let n = made.size;
    write_answer(rt, mode, name, &text[..n], made.status)?;
    Ok(made.status)
}

// Answers for the file with this name.
fn answer_read(
    rt: &impl Host,
    asked: Asked,
    mode: Mode,
    word: &[u8],
    name: &[u8],
) -> Result<u64, Unwritten> {
    let mut file = program::file_buffer();
    match storage::read(rt, name, &mut file) {
        Some(n) => answer(rt, asked, mode, word, name, &file[..n]),
        None => Ok(1),
    }
}

fn answer_named(
    rt: &impl Host,
    asked: Asked,
    mode: Mode,
    word: &[u8],
    name: &[u8],
) -> Result<u64, Unwritten> {
    match mode {
        Mode::Shown => shows::show_named(rt, name),
        _ => answer_read(rt, asked, mode, word, name),
    }
}

// Answers for the file that argument i names.
fn answer_file(
    rt: &impl Host,
    asked: Asked,
    mode: Mode,
    word: &[u8],
    i: usize,
) -> Result<u64, Unwritten> {
    let mut name = io::buffer();
    match console::arg_at(rt, i, b"a file's name", &mut name) {
        Some(n) => answer_named(rt, asked, mode, word, &name[..n]),
        None => Ok(1),
    }
}

// The worse of two statuses: 1, then 2, then 3, then 0.
pub fn worse(a: u64, b: u64) -> u64
    ensures { result ≡ worst a b }
{
    if a == 0 {
        b
    } else if b == 0 {
        a
    } else {
        a.min(b)
    }
}

// Answers for the files that the arguments from `first` on name.
pub fn answer_files(rt: &impl Host, asked: Asked, mode: Mode, first: usize, count: usize) -> u64 {
    let mut status = 0;
    for i in first..count {
        match answer_file(rt, asked, mode, b"", i) {
            Err(unwritten) => return unwritten.status(),
            Ok(s) => status = worse(status, s),
        }
    }
    status
}

// Answers for one file.
pub fn answer_one(rt: &impl Host, asked: Asked, word: &[u8], i: usize) -> u64 {
    match answer_file(rt, asked, Mode::Plain, word, i) {
        Err(unwritten) => unwritten.status(),
        Ok(status) => status,
    }
}

// FILE
pub fn one(rt: &impl Host, asked: Asked, count: usize) -> u64 {
    if count != 4 {
        return console::usage(rt);
    }
    answer_one(rt, asked, b"", 3)
}
