// A new file: it is written beside the name that it is to have, reaches the device and takes the name.
use crate::made;
use console::Host;
use std::random::RandomSource;

// Puts the name of the file that is written first: beside the new one, with digits by chance. Without chance they are zeros, and a file that is there is not written over.
fn put_part_name(rt: &impl RandomSource, out: &mut [u8], name: &[u8]) -> usize {
    let mut chance = [0u8; 4];
    let _ = rt.fill_bytes(&mut chance);
    let a = room::put_bytes(out, 0, name);
    let b = room::put_bytes(out, a, b".xmf-");
    let c = room::put_decimal(out, b, cursor::wide(chance[0]));
    let d = room::put_decimal(out, c, cursor::wide(chance[1]));
    let e = room::put_decimal(out, d, cursor::wide(chance[2]));
    room::put_decimal(out, e, cursor::wide(chance[3]))
}

// Makes the file that is written first.
fn make_part(rt: &impl Host, part: &[u8], name: &[u8], bytes: &[u8]) -> bool {
    match made::create(rt, part) {
        Ok(file) => {
            if rt.is_standard(&file) {
                console::trouble(rt, name, b"standard input, output or error is closed");
                made::remove(rt, part);
                return false;
            }
            made::fill_part(rt, file, part, name, bytes)
        }
        Err(error) => {
            console::failed(rt, name, error);
            false
        }
    }
}

// Takes the name of the new file, which no file has.
fn take_name(rt: &impl Host, name: &[u8]) -> bool {
    match made::create(rt, name) {
        Ok(_) => true,
        Err(error) => {
            console::failed(rt, name, error);
            false
        }
    }
}

// Gives the new file its name, where it is there already or not by `over`.
fn place_part(rt: &impl Host, part: &[u8], name: &[u8], over: bool) -> bool {
    if !over && !take_name(rt, name) {
        made::remove(rt, part);
        return false;
    }
    match made::rename(rt, part, name) {
        Ok(()) => true,
        Err(error) => {
            console::failed(rt, name, error);
            made::remove(rt, part);
            if !over {
                made::remove(rt, name);
            }
            false
        }
    }
}

// Makes the file; answers the status.
fn make_file(rt: &impl Host, name: &[u8], over: bool, bytes: &[u8]) -> u64 {
    let mut part = console::line_buffer();
    let end = put_part_name(rt, &mut part, name);
    let n = spelling::within(end, &part);
    if !make_part(rt, &part[..n], name, bytes) {
        return 1;
    }
    if !place_part(rt, &part[..n], name, over) {
        return 1;
    }
    0
}

// Writes bytes to standard output, which is no terminal.
fn write_out(rt: &impl Host, bytes: &[u8]) -> u64 {
    if rt.writes_to_terminal() {
        console::trouble(
            rt,
            b"standard output",
            b"a terminal, and the answer is no text",
        );
        return 1;
    }
    console::write_answer(rt, bytes, 0)
}

// Hands bytes out as two arguments say: `new NAME`, `over NAME` or `out -`.
pub fn hand_out(rt: &impl Host, bytes: &[u8], out: usize, new: usize) -> u64 {
    if console::is_word(rt, out, b"out") {
        return write_out(rt, bytes);
    }
    let mut name = io::buffer();
    match console::arg_at(rt, new, b"the new file's name", &mut name) {
        Some(n) => make_file(rt, &name[..n], console::is_word(rt, out, b"over"), bytes),
        None => 1,
    }
}
