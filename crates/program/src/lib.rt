// What the programs share: full tables, a file read by its name, and a message where that fails.
#![tactic(auto)]

ghost use Rattle.std.specs.Prelude.{◌≡◌, length};
ghost use Rattle.metadata.specs.Tables.{full_nodes, full_items};
ghost use Rattle.program.specs.Inputs.{Inside};

use std::env::FillError;
use std::fmt::InlineText;
use std::fs::File;
use std::io::{Eprint, Error, ErrorKind, Read, Result};
use std::rt::{Env, Files};

// The most bytes that a file may have.
pub const LONGEST: usize = 65536;

// Room for a file and one byte more, which tells that the file is too long.
pub fn file_buffer() -> [u8; 65537]
    ensures { 65537 ≡ length result }
{
    [0; 65537]
}

// Room for 256 node rows.
pub fn node_table() -> [u64; cursor::MOST_NODES * cursor::NODE_WIDTH]
    ensures { full_nodes ≡ length result }
{
    [0; cursor::MOST_NODES * cursor::NODE_WIDTH]
}

// Room for 1,024 item rows.
pub fn item_table() -> [u64; cursor::MOST_ITEMS * cursor::ITEM_WIDTH]
    ensures { full_items ≡ length result }
{
    [0; cursor::MOST_ITEMS * cursor::ITEM_WIDTH]
}

// Room for a name of 4,096 bytes, each as a backslash and two digits.
fn name_buffer() -> [u8; 12288]
    ensures { 12288 ≡ length result }
{
    [0; 12288]
}

// Why there is no argument, or it is too long, by the system's numbers.
const INVALID_ARGUMENT: i32 = 22;

const NAME_TOO_LONG: i32 = 36;

// How many arguments the program was started with, its own name among them.
pub fn arg_count(rt: &impl Env) -> usize {
    let mut nothing = [0u8; 0];
    for i in 0..usize::MAX {
        if let Err(FillError::NotPresent) = rt.arg(i, &mut nothing) {
            return i;
        }
    }
    usize::MAX
}

// Puts an argument at the start of the buffer; answers its length.
pub fn arg(rt: &impl Env, i: usize, buf: &mut [u8]) -> Result<usize>
    ensures { Inside result buf.new }
{
    match rt.arg(i, buf) {
        Ok(n) => Ok(n),
        Err(FillError::NotPresent) => Err(Error::from_raw_os_error(INVALID_ARGUMENT)),
        Err(FillError::TooLong) => Err(Error::from_raw_os_error(NAME_TOO_LONG)),
    }
}

// The bytes of a name as a path, which std has as text.
pub fn path(name: &[u8]) -> Result<&str> {
    match str::from_utf8(name) {
        Ok(path) => Ok(path),
        Err(_) => Err(Error::new(ErrorKind::InvalidFilename, "the name is no UTF-8")),
    }
}

// Opens the file with this name for reading.
pub fn open<R: Files>(rt: &R, name: &[u8]) -> Result<R::File> {
    File::open(rt, path(name)?)
}

// Writes a text to standard error. What this program says is ASCII or UTF-8, and so is a name as it shows it.
pub fn say(rt: &impl Eprint, text: &[u8]) {
    if let Ok(text) = str::from_utf8(text) {
        let _ = rt.eprint(text);
        return;
    }
    for b in text {
        let _ = rt.eprint(if b.is_ascii() { char::from(*b) } else { '?' });
    }
}

// What the system calls an error, without its number.
fn reason(words: &str) -> &str {
    words.split(" (os error ").next().unwrap_or(words)
}

// Writes the end of a message to standard error: a colon and why something failed.
pub fn say_reason(rt: &impl Eprint, error: Error) {
    let words = InlineText::<256>::of(error);
    let _ = rt.eprintln(format_args!(": {}", reason(words.as_str())));
}

// The status of a program whose answer nobody reads to its end, as shells give it: there a signal ends the program. Here the write fails.
pub const UNREAD: u8 = 141;

// Whether a write failed since nobody reads any more.
pub fn is_unread(error: &Error) -> bool {
    error.kind() == ErrorKind::BrokenPipe
}

// Says on standard error what failed and why, after the program's name. The name is written as names are on a sheet.
pub fn fail(rt: &impl Eprint, program: &[u8], name: &[u8], error: Error) {
    let mut text = name_buffer();
    let n = text::put_escaped(&mut text, 0, name, 0, name.len());
    say(rt, program);
    say(rt, b": ");
    if n > 12288 {
        say(rt, b"the file");
    } else {
        say(rt, &text[..n]);
    }
    say_reason(rt, error);
}

// Reads until the buffer is full or the input ends; answers how many bytes.
pub fn read_input(input: &mut impl Read, buf: &mut [u8]) -> Result<usize>
    ensures { Inside result buf.new }
{
    let mut n = 0;
    while n < buf.len() {
        let more = input.read(&mut buf[n..])?;
        if more == 0 {
            break;
        }
        n += more;
    }
    Ok(n)
}
