// What `show` is made of: of each file a line with its name, the sheet and, if it has one, the verdict and what the tune needs. The file is read once, so all of it is said of
// the same bytes.
use answers::Asked;
use console::{Host, Unwritten};
use std::io::{Eprint, Print};

// Writes the line that names the file, safe on a terminal.
fn write_name(rt: &(impl Print + Eprint), name: &[u8]) -> Result<(), Unwritten> {
    let mut line = console::line_buffer();
    let a = room::put_bytes(&mut line, 0, b"F\t");
    let b = notes::put_safe(&mut line, a, name, name.len());
    let c = room::put_byte(&mut line, b, 0x0a);
    let n = spelling::within(c, &line);
    console::write(rt, &line[..n])
}

// Writes an answer of a file that has a sheet. Whatever it says, its status is not the view's.
fn write_more(rt: &(impl Print + Eprint), asked: Asked, file: &[u8]) -> Result<(), Unwritten> {
    let mut text = io::large_buffer();
    let made = answers::make(asked, b"", file, b"", &mut text);
    let n = made.size;
    console::write(rt, &text[..n])
}

// Writes what follows a sheet.
fn write_rest(rt: &(impl Print + Eprint), file: &[u8]) -> Result<(), Unwritten> {
    write_more(rt, Asked::Verdict, file)?;
    write_more(rt, Asked::Needs, file)
}

// Writes the sheet, or the line that refuses the file, and what follows. Answers the status.
fn show(rt: &(impl Print + Eprint), file: &[u8]) -> Result<u64, Unwritten> {
    let mut text = io::large_buffer();
    let made = answers::make(Asked::Sheet, b"", file, b"", &mut text);
    let n = made.size;
    console::write(rt, &text[..n])?;
    if made.status == 0 {
        write_rest(rt, file)?;
    }
    Ok(made.status)
}

// Shows the file with this name. Answers the status.
pub fn show_named(rt: &impl Host, name: &[u8]) -> Result<u64, Unwritten> {
    write_name(rt, name)?;
    let mut file = program::file_buffer();
    match storage::read(rt, name, &mut file) {
        Some(n) => show(rt, &file[..n]),
        None => Ok(1),
    }
}
