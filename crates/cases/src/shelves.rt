// The cases of `shelf`: a number of cards, a number of bytes, and operations on a fresh shelf. The answer is two lines: with cards lent as words, and with
// cards lent as structs.
use crate::cards;
use crate::said::{is_refusal, put_front, put_short, word};
use refusals::Refusal;
use shelf::Label;

// The number in a part of an operation; colons separate the parts.
fn number(op: &[u8], index: usize) -> u64 {
    casetext::read_decimal(casetext::part(op, b':', index)).unwrap_or(0) as u64
}

// The label of an operation: its parts 1 to 3.
fn label(op: &[u8]) -> Label {
    Label {
        desk: number(op, 1),
        call: number(op, 2),
        boat: number(op, 3),
    }
}

// Puts a sheet.
fn put(
    structs: bool,
    op: &[u8],
    row: &mut [u64],
    text: &mut [u8],
    sheet: &[u8],
) -> Result<(), Refusal> {
    let label = label(op);
    if structs {
        return cards::put(row, text, label, sheet);
    }
    shelf::put_words(row, text, label, sheet)
}

fn run_put(
    structs: bool,
    op: &[u8],
    row: &mut [u64],
    text: &mut [u8],
    out: &mut [u8],
    at: usize,
) -> usize {
    let mut said = [0u64; 2];
    let mut sheet = io::large_buffer();
    let decoded = casetext::read_hex(casetext::part(op, b':', 4), &mut sheet);
    let k = decoded.count;
    words::put_outcome(&mut said, put(structs, op, row, text, &sheet[..k]));
    put_short(out, at, &said)
}

// Gets a sheet into the lent bytes.
fn get(
    structs: bool,
    op: &[u8],
    row: &[u64],
    text: &[u8],
    bytes: &mut [u8],
) -> Result<usize, Refusal> {
    let label = label(op);
    if structs {
        return cards::get(row, text, label, bytes);
    }
    shelf::get_words(row, text, label, bytes)
}

// Puts the sheet that was got.
fn put_got(out: &mut [u8], at: usize, said: &[u64], bytes: &[u8]) -> usize {
    let mut end = put_short(out, at, said);
    if is_refusal(said) {
        return end;
    }
    end = casetext::put_byte(out, end, b':');
    put_front(out, end, bytes, word(said, 2))
}

fn get_in(
    structs: bool,
    op: &[u8],
    row: &[u64],
    text: &[u8],
    bytes: &mut [u8],
    out: &mut [u8],
    at: usize,
) -> usize {
    let mut said = [0u64; 3];
    let room = number(op, 4) as usize;
    if room > bytes.len() {
        return at;
    }
    words::put_size(&mut said, get(structs, op, row, text, &mut bytes[0..room]));
    put_got(out, at, &said, bytes)
}

fn run_get(structs: bool, op: &[u8], row: &[u64], text: &[u8], out: &mut [u8], at: usize) -> usize {
    let mut bytes = io::large_buffer();
    get_in(structs, op, row, text, &mut bytes, out, at)
}

// Drops a sheet.
fn drop(structs: bool, op: &[u8], row: &mut [u64], text: &mut [u8]) -> Result<(), Refusal> {
    let label = label(op);
    if structs {
        return cards::drop(row, text, label);
    }
    shelf::drop_words(row, text, label)
}

fn run_drop(
    structs: bool,
    op: &[u8],
    row: &mut [u64],
    text: &mut [u8],
    out: &mut [u8],
    at: usize,
) -> usize {
    let mut said = [0u64; 2];
    words::put_outcome(&mut said, drop(structs, op, row, text));
    put_short(out, at, &said)
}

// Sets the words of a card.
fn set_card(op: &[u8], row: &mut [u64]) {
    let four = [number(op, 2), number(op, 3), number(op, 4), number(op, 5)];
    let i = number(op, 1) as usize;
    if i < row.len() / 4 {
        room::store(row, i * 4, &four);
    }
}

// Sets bytes of the text.
fn set_text(op: &[u8], text: &mut [u8]) {
    let mut bytes = io::large_buffer();
    let decoded = casetext::read_hex(casetext::part(op, b':', 2), &mut bytes);
    let k = decoded.count;
    let at = number(op, 1) as usize;
    if k <= room::room_at(text.len(), at) {
        room::store(text, at, &bytes[..k]);
    }
}

// Puts all cards and the text.
fn dump(row: &[u64], text: &[u8], out: &mut [u8], at: usize) -> usize {
    let mut end = casetext::put(out, at, b" D:");
    end = casetext::put_rows(out, end, row, 4, b',', b'/');
    end = casetext::put_byte(out, end, b':');
    casetext::put_hex(out, end, text)
}

// Runs one operation and puts its answer, if it has one.
fn run(
    structs: bool,
    op: &[u8],
    row: &mut [u64],
    text: &mut [u8],
    out: &mut [u8],
    at: usize,
) -> usize {
    match casetext::part(op, b':', 0) {
        b"card" => {
            set_card(op, row);
            at
        }
        b"text" => {
            set_text(op, text);
            at
        }
        b"put" => run_put(structs, op, row, text, out, at),
        b"get" => run_get(structs, op, row, text, out, at),
        b"drop" => run_drop(structs, op, row, text, out, at),
        _ => dump(row, text, out, at),
    }
}

// Runs the operations of a line: they are its fields from 3 on.
fn run_all(
    structs: bool,
    line: &[u8],
    row: &mut [u64],
    text: &mut [u8],
    out: &mut [u8],
    start: usize,
) -> usize {
    let mut end = casetext::put(out, start, b"ok");
    let mut at = casetext::part_start(line, b' ', 3);
    while at < line.len() {
        let next = casetext::find_mark(line, at, b' ');
        end = run(structs, &line[at..next], row, text, out, end);
        at = next + 1;
    }
    end
}

// Runs them on a fresh shelf.
fn run_fresh(
    structs: bool,
    line: &[u8],
    row: &mut [u64],
    text: &mut [u8],
    out: &mut [u8],
    start: usize,
) -> usize {
    row.fill(0);
    text.fill(0);
    run_all(structs, line, row, text, out, start)
}

// Runs a case over lent words and bytes, in both forms.
pub fn shelf(line: &[u8], words: &mut [u64], bytes: &mut [u8], out: &mut [u8]) -> usize {
    let n = casetext::read_number(line, 1, words.len() / 4) * 4;
    let size = casetext::read_number(line, 2, bytes.len());
    let end = run_fresh(false, line, &mut words[0..n], &mut bytes[0..size], out, 0);
    let next = casetext::put_byte(out, end, b'\n');
    run_fresh(true, line, &mut words[0..n], &mut bytes[0..size], out, next)
}
