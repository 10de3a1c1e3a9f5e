// A file with another title, or with other data in an item row.
#![tactic(auto)]

ghost use Rattle.std.specs.Prelude.{◌≡◌, length};

use answers::Asked;
use console::Host;
use std::io::Eprint;

// Says what changed.
fn say_changes(rt: &impl Eprint, old: &[u8], new: &[u8], row: usize) {
    let mut text = io::buffer();
    let end = notes::put_changes(&mut text, old, new, row);
    let n = spelling::within(end, &text);
    program::say(rt, &text[..n]);
}

// Whether a typed title may go into the row: not into binary data. Warns of bytes that the row's format has other characters for.
fn may_type(rt: &impl Eprint, name: &[u8], file: &[u8], row: usize, title: &[u8]) -> bool {
    let format = answers::title_format(file, row);
    if format >= 4 {
        console::trouble(rt, name, b"the item row holds binary data: --bytes");
        return false;
    }
    if format == 0 && spelling::has_high(title) {
        console::trouble(
            rt,
            name,
            b"bytes from 80h in a row of format 0, extended ASCII",
        );
    }
    true
}

// Corrects the data of an item row.
fn correct_data(rt: &impl Host, file: &[u8], row: usize, asked: Asked, bytes: &[u8]) -> u64 {
    let mut text = io::large_buffer();
    let made = answers::make(asked, bytes, file, b"", &mut text);
    let n = made.size;
    if made.status != 0 {
        return console::say_refusal(rt, &text[..n], made.status);
    }
    let handed = storage::hand_out(rt, &text[..n], 7, 8);
    if handed != 0 {
        return handed;
    }
    say_changes(rt, file, &text[..n], row);
    0
}

// Corrects by a title that was typed.
fn correct_typed(rt: &impl Host, name: &[u8], file: &[u8], row: usize, title: &[u8]) -> u64 {
    if !may_type(rt, name, file, row, title) {
        return 1;
    }
    correct_data(rt, file, row, Asked::Retitled(row), title)
}

// The title is an argument.
fn correct_text(rt: &impl Host, name: &[u8], file: &[u8], row: usize) -> u64 {
    let mut title = io::large_buffer();
    match console::arg_at(rt, 6, b"the title", &mut title) {
        Some(n) => correct_typed(rt, name, file, row, &title[..n]),
        None => 1,
    }
}

// The title was read.
fn correct_read(rt: &impl Host, name: &[u8], file: &[u8], row: usize, title: &[u8]) -> u64 {
    if title.len() > program::LONGEST {
        return console::say_refusal(rt, b"too long\n", 2);
    }
    correct_typed(rt, name, file, row, title)
}

// The title is standard input.
fn correct_input(rt: &impl Host, name: &[u8], file: &[u8], row: usize) -> u64 {
    if name == b"-".as_slice() {
        console::trouble(rt, name, b"asked for as the file and as the title");
        return 1;
    }
    let mut title = program::file_buffer();
    match storage::read(rt, b"-", &mut title) {
        Some(n) => correct_read(rt, name, file, row, &title[..n]),
        None => 1,
    }
}

// Room for the hex digits of 65,536 bytes.
fn hex_buffer() -> [u8; 131072]
    ensures { 131072 ≡ length result }
{
    [0; 131072]
}

fn correct_spelt(rt: &impl Host, file: &[u8], row: usize, digits: &[u8]) -> u64 {
    let mut bytes = io::large_buffer();
    if !spelling::spell(digits, &mut bytes) {
        console::trouble(rt, b"--bytes", b"no even number of hex digits");
        return 1;
    }
    let n = spelling::within(digits.len() / 2, &bytes);
    correct_data(rt, file, row, Asked::Corrected(row), &bytes[..n])
}

// The bytes are an argument, in hex.
fn correct_bytes(rt: &impl Host, file: &[u8], row: usize) -> u64 {
    let mut digits = hex_buffer();
    match console::arg_at(rt, 6, b"the bytes", &mut digits) {
        Some(n) => correct_spelt(rt, file, row, &digits[..n]),
        None => 1,
    }
}

// KIND WORD OUT NEW
fn correct_from(rt: &impl Host, name: &[u8], file: &[u8], row: usize) -> u64 {
    if file.len() > program::LONGEST {
        return console::say_refusal(rt, b"too long\n", 2);
    }
    if console::is_word(rt, 5, b"bytes") {
        return correct_bytes(rt, file, row);
    }
    if console::is_word(rt, 5, b"stdin") {
        return correct_input(rt, name, file, row);
    }
    correct_text(rt, name, file, row)
}

fn correct_named(rt: &impl Host, name: &[u8], row: usize) -> u64 {
    let mut file = program::file_buffer();
    match storage::read(rt, name, &mut file) {
        Some(n) => correct_from(rt, name, &file[..n], row),
        None => 1,
    }
}

// The file's name is an argument, and its row the one after.
fn correct_row(rt: &impl Host, name: &[u8]) -> u64 {
    let Some(row) = console::number_at(rt, 4) else {
        return 1;
    };
    correct_named(rt, name, row as usize)
}

// FILE ROW KIND WORD OUT NEW
pub fn correct(rt: &impl Host, count: usize) -> u64 {
    if count != 9 {
        return console::usage(rt);
    }
    let mut name = io::buffer();
    match console::arg_at(rt, 3, b"the file's name", &mut name) {
        Some(n) => correct_row(rt, &name[..n]),
        None => 1,
    }
}
