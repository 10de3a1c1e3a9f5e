// The calls on the file of a shelf, whose bytes are `shelf_file`'s. A call reads the file whole and, where it changes the shelf, puts a new file in its place; the script
// holds a lock meanwhile.
#![tactic(auto)]

ghost use Rattle.std.specs.Prelude.{◌≡◌, length};

use console::Host;
use refusals::Refusal;
use shelf::Label;
use std::io::{Eprint, Input, Print};
use std::rt::Files;

// The bytes of the file.
const SIZE: usize = shelf_file::SIZE;

// ---- the file

// Reads a shelf; answers whether it is one.
fn read_shelf(rt: &(impl Files + Input + Eprint), name: &[u8], file: &mut [u8]) -> bool {
    match storage::read(rt, name, file) {
        None => false,
        Some(SIZE) => true,
        Some(_) => {
            console::trouble(
                rt,
                name,
                b"no shelf, which has 1,049,088 bytes; xmf shelf new makes one",
            );
            false
        }
    }
}

// Says a refusal.
fn refused(rt: &impl Eprint, refusal: Refusal) -> u64 {
    let mut line = io::buffer();
    let end = shelf_file::put_refusal(&mut line, refusal.0.number(), refusal.1);
    let n = spelling::within(end, &line);
    console::say_refusal(rt, &line[..n], 2)
}

// What a call leaves: a refusal's line, or its bytes as the file.
fn leave(rt: &impl Host, name: &[u8], mode: u64, file: &[u8], outcome: Result<(), Refusal>) -> u64 {
    match outcome {
        Err(refusal) => refused(rt, refusal),
        Ok(()) => storage::replace(rt, name, mode, file),
    }
}

// ---- the calls; `file` is the whole shelf

fn put_on(
    rt: &impl Host,
    name: &[u8],
    mode: u64,
    label: Label,
    sheet: &[u8],
    file: &mut [u8],
) -> u64 {
    let outcome = shelf_file::put(file, label, sheet);
    leave(rt, name, mode, file, outcome)
}

fn drop_from(rt: &impl Host, name: &[u8], mode: u64, label: Label, file: &mut [u8]) -> u64 {
    let outcome = shelf_file::drop(file, label);
    leave(rt, name, mode, file, outcome)
}

fn get_from(rt: &(impl Print + Eprint), label: Label, file: &[u8]) -> u64 {
    let mut sheet = io::large_buffer();
    match shelf_file::get(file, label, &mut sheet) {
        Err(refusal) => refused(rt, refusal),
        Ok(size) => {
            let n = spelling::within(size, &sheet);
            console::write_answer(rt, &sheet[..n], 0)
        }
    }
}

// Puts, gets or drops, as argument 3 says; `sheet` is what is put, and `file` has room for a shelf and one byte more, which tells that the file is too long.
fn call_in(
    rt: &impl Host,
    name: &[u8],
    mode: u64,
    label: Label,
    sheet: &[u8],
    file: &mut [u8],
) -> u64 {
    if !read_shelf(rt, name, file) {
        return 1;
    }
    let n = spelling::within(SIZE, file);
    if console::is_word(rt, 3, b"put") {
        return put_on(rt, name, mode, label, sheet, &mut file[..n]);
    }
    if console::is_word(rt, 3, b"get") {
        return get_from(rt, label, &file[..n]);
    }
    drop_from(rt, name, mode, label, &mut file[..n])
}

// Room for a shelf and one byte more.
fn shelf_buffer() -> [u8; SIZE + 1]
    ensures { 1049089 ≡ length result }
{
    [0; SIZE + 1]
}

fn call_on(rt: &impl Host, name: &[u8], mode: u64, label: Label, sheet: &[u8]) -> u64 {
    let mut file = shelf_buffer();
    call_in(rt, name, mode, label, sheet, &mut file)
}

// Reads the sheet that argument 9 names before the shelf is read.
fn put_sheet(rt: &impl Host, name: &[u8], mode: u64, label: Label, from: &[u8]) -> u64 {
    let mut sheet = program::file_buffer();
    match storage::read(rt, from, &mut sheet) {
        Some(n) => call_on(rt, name, mode, label, &sheet[..n]),
        None => 1,
    }
}

fn put_named(rt: &impl Host, name: &[u8], mode: u64, label: Label) -> u64 {
    let mut from = io::buffer();
    match console::arg_at(rt, 9, b"the sheet's name", &mut from) {
        Some(n) => put_sheet(rt, name, mode, label, &from[..n]),
        None => 1,
    }
}

// The number that argument i is, and no larger one.
fn exact_at(rt: &impl Host, i: usize) -> Option<u64> {
    let n = console::number_at(rt, i)?;
    if n < u64::MAX || console::is_word(rt, i, b"18446744073709551615") {
        return Some(n);
    }
    console::trouble(rt, b"a desk, call or boat", b"above 18446744073709551615");
    None
}

// The label that arguments 6 to 8 are: DESK CALL BOAT.
fn label_at(rt: &impl Host) -> Option<Label> {
    let desk = exact_at(rt, 6)?;
    let call = exact_at(rt, 7)?;
    let boat = exact_at(rt, 8)?;
    Some(Label { desk, call, boat })
}

// MODE DESK CALL BOAT, and for put the sheet's name
fn labelled(rt: &impl Host, name: &[u8], count: usize) -> u64 {
    let Some(mode) = console::number_at(rt, 5) else {
        return 1;
    };
    let Some(label) = label_at(rt) else {
        return 1;
    };
    if count == 10 {
        return put_named(rt, name, mode, label);
    }
    call_on(rt, name, mode, label, b"")
}

// Makes a fresh shelf.
fn make(rt: &impl Host, name: &[u8]) -> u64 {
    let file = shelf_file::new();
    storage::replace(rt, name, 4096, &file)
}

// A call on the shelf with this name.
fn run_named(rt: &impl Host, name: &[u8], count: usize) -> u64 {
    if console::is_word(rt, 3, b"new") {
        return make(rt, name);
    }
    labelled(rt, name, count)
}

// `new` SHELF; or `put`, `get` or `drop`, SHELF MODE DESK CALL BOAT, and for put the sheet's name. MODE is that of a new file, 4096 where it is the usual one.
pub fn run(rt: &impl Host, count: usize) -> u64 {
    let mut name = io::buffer();
    match console::arg_at(rt, 4, b"the shelf's name", &mut name) {
        Some(n) => run_named(rt, &name[..n], count),
        None => 1,
    }
}
