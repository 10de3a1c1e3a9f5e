// The cases of `resolve`, `verdict`, `count` and `bytes`, whose answers are numbers.
use crate::said::{put_values, word};

// Puts a mark unless the part is that of the file from `place` on.
fn put_unless_part(
    out: &mut [u8],
    at: usize,
    file: &[u8],
    part: &[u8],
    place: u64,
    size: u64,
) -> usize {
    let from = place as usize;
    if from <= file.len() {
        if size as usize <= file.len() - from {
            let end = from + size as usize;
            if part == &file[from..end] {
                return at;
            }
        }
    }
    casetext::put(out, at, b" and another part")
}

// Finds a resource, by both calls; a refused one has no bytes.
fn resolve(
    line: &[u8],
    file: &[u8],
    nodes: &mut [u64],
    items: &mut [u64],
    out: &mut [u8],
) -> usize {
    let mut said = [0u64; 6];
    let row = casetext::read_number(line, 4, usize::MAX);
    words::put_resolved(&mut said, resolve::resolve(file, nodes, items, row));
    let end = put_values(out, &said);
    let part = resolve::resource(file, nodes, items, row);
    put_unless_part(out, end, file, part, word(&said, 2), word(&said, 3))
}

// Judges a file.
fn verdict(file: &[u8], nodes: &mut [u64], items: &mut [u64], out: &mut [u8]) -> usize {
    let mut said = [0u64; 3];
    words::put_number(&mut said, mobile::judge(file, nodes, items));
    put_values(out, &said)
}

// Counts what a channel needs.
fn count(line: &[u8], file: &[u8], nodes: &mut [u64], items: &mut [u64], out: &mut [u8]) -> usize {
    let mut said = [0u64; 3];
    let row = casetext::read_number(line, 4, usize::MAX);
    let channel = casetext::read_number(line, 5, usize::MAX) as u64;
    let resource = casetext::read_number(line, 6, usize::MAX) as u64;
    words::put_number(
        &mut said,
        description::count_for(file, nodes, items, row, channel, resource),
    );
    put_values(out, &said)
}

// Counts the bytes of a file by kind, with fresh totals.
fn bytes(file: &[u8], nodes: &mut [u64], items: &mut [u64], out: &mut [u8]) -> usize {
    let mut said = [0u64; 11];
    let totals = words::read_totals(&[]);
    words::put_accounted(&mut said, account::account(file, nodes, items, totals));
    put_values(out, &said)
}

// Answers a case, or 0 where it is of another question.
pub fn ask(
    line: &[u8],
    file: &[u8],
    nodes: &mut [u64],
    items: &mut [u64],
    out: &mut [u8],
) -> usize {
    match casetext::field(line, 0) {
        b"resolve" => resolve(line, file, nodes, items, out),
        b"verdict" => verdict(file, nodes, items, out),
        b"count" => count(line, file, nodes, items, out),
        b"bytes" => bytes(file, nodes, items, out),
        _ => 0,
    }
}
