// What hands out bytes: a resource of a file, a file whose header is mended, a converted text.
#![tactic(auto)]

use answers::Asked;
use console::Host;
use std::io::{Eprint, Print};

// Says where a resource comes from.
fn say_origin(rt: &impl Eprint, name: &[u8], file: &[u8], row: usize) {
    let mut text = io::large_buffer();
    let made = answers::make(Asked::Origin(row), b"", file, b"", &mut text);
    let n = made.size;
    program::say(rt, b"xmf: ");
    console::say_safe(rt, name);
    program::say(rt, b": ");
    program::say(rt, &text[..n]);
}

fn extract_from(rt: &impl Host, name: &[u8], file: &[u8], row: usize) -> u64 {
    let mut text = io::large_buffer();
    let made = answers::make(Asked::Resource(row), b"", file, b"", &mut text);
    let n = made.size;
    if made.status != 0 {
        return console::say_refusal(rt, &text[..n], made.status);
    }
    let handed = storage::hand_out(rt, &text[..n], 5, 6);
    if handed != 0 {
        return handed;
    }
    say_origin(rt, name, file, row);
    0
}

fn extract_named(rt: &impl Host, name: &[u8], row: usize) -> u64 {
    let mut file = program::file_buffer();
    match storage::read(rt, name, &mut file) {
        Some(n) => extract_from(rt, name, &file[..n], row),
        None => 1,
    }
}

// The file's name is an argument, and its row the one after.
fn extract_row(rt: &impl Host, name: &[u8]) -> u64 {
    let Some(row) = console::number_at(rt, 4) else {
        return 1;
    };
    extract_named(rt, name, row as usize)
}

// FILE ROW OUT NEW
pub fn extract(rt: &impl Host, count: usize) -> u64 {
    if count != 7 {
        return console::usage(rt);
    }
    let mut name = io::buffer();
    match console::arg_at(rt, 3, b"the file's name", &mut name) {
        Some(n) => extract_row(rt, &name[..n]),
        None => 1,
    }
}

// Says what was mended: the lines of the fields that changed.
fn say_mended(rt: &impl Eprint, file: &[u8]) {
    let mut text = io::large_buffer();
    let made = answers::make(Asked::MendLines, b"", file, b"", &mut text);
    let n = made.size;
    program::say(rt, &text[..n]);
}

// Hands out the copy whose header is mended.
fn mend_from(rt: &impl Host, file: &[u8]) -> u64 {
    let mut text = io::large_buffer();
    let made = answers::make(Asked::Mended, b"", file, b"", &mut text);
    let n = made.size;
    if made.status != 0 {
        return console::say_refusal(rt, &text[..n], made.status);
    }
    let handed = storage::hand_out(rt, &text[..n], 4, 5);
    if handed != 0 {
        return handed;
    }
    say_mended(rt, file);
    0
}

// FILE OUT NEW
pub fn mend(rt: &impl Host, count: usize) -> u64 {
    if count != 6 {
        return console::usage(rt);
    }
    let mut file = program::file_buffer();
    match storage::read_at(rt, 3, b"the file's name", &mut file) {
        Some(n) => mend_from(rt, &file[..n]),
        None => 1,
    }
}

fn convert_from(rt: &(impl Print + Eprint), asked: Asked, file: &[u8]) -> u64 {
    let mut text = io::large_buffer();
    let made = answers::make(asked, b"", file, b"", &mut text);
    let n = made.size;
    if made.status != 0 {
        return console::say_refusal(rt, &text[..n], made.status);
    }
    console::write_answer(rt, &text[..n], 0)
}

// FILE
pub fn convert(rt: &impl Host, asked: Asked, count: usize) -> u64 {
    if count != 4 {
        return console::usage(rt);
    }
    let mut file = program::file_buffer();
    match storage::read_at(rt, 3, b"the file's name", &mut file) {
        Some(n) => convert_from(rt, asked, &file[..n]),
        None => 1,
    }
}
