// The cases of `bytessum`: node words, item words, totals, then the files.
use crate::said::{is_refusal, put_short};

// Reads decimal numbers with commas between them, one for each word; 0 where there is none.
fn read_words(digits: &[u8], words: &mut [u64]) {
    for i in 0..words.len() {
        let number = casetext::read_decimal(casetext::part(digits, b',', i));
        words[i] = number.unwrap_or(0) as u64;
    }
}

// Puts the counts of a file.
fn put_counts(out: &mut [u8], at: usize, said: &[u64]) -> usize {
    let mut end = put_short(out, at, said);
    if is_refusal(said) {
        return end;
    }
    if said.len() < 2 {
        return end;
    }
    end = casetext::put_byte(out, end, b':');
    casetext::put_words(out, end, &said[2..], b',')
}

// Adds a file to the totals, and puts its counts.
fn add(
    file: &[u8],
    nodes: &mut [u64],
    items: &mut [u64],
    totals: &mut [u64],
    out: &mut [u8],
    at: usize,
) -> usize {
    let mut said = [0u64; 11];
    let answer = account::account(file, nodes, items, words::read_totals(totals));
    words::put_totals(totals, answer.totals);
    words::put_accounted(&mut said, answer);
    put_counts(out, at, &said)
}

// Adds the file of a field; nothing where there is none.
fn add_field(
    line: &[u8],
    index: usize,
    nodes: &mut [u64],
    items: &mut [u64],
    totals: &mut [u64],
    out: &mut [u8],
    at: usize,
) -> usize {
    if casetext::field(line, index).is_empty() {
        return at;
    }
    let mut file = io::large_buffer();
    let k = casetext::read_bytes(line, index, &mut file);
    add(&file[..k], nodes, items, totals, out, at)
}

// Adds the files of a line, its fields from 4 to 63.
fn add_all(
    line: &[u8],
    nodes: &mut [u64],
    items: &mut [u64],
    totals: &mut [u64],
    out: &mut [u8],
) -> usize {
    let mut end = casetext::put(out, 0, b"ok");
    for i in 4..64 {
        end = add_field(line, i, nodes, items, totals, out, end);
    }
    end
}

// Sums over files, and puts the totals that are left.
pub fn sum(line: &[u8], nodes: &mut [u64], items: &mut [u64], out: &mut [u8]) -> usize {
    let mut totals = [0u64; 11];
    let n = casetext::read_number(line, 1, nodes.len());
    let m = casetext::read_number(line, 2, items.len());
    read_words(casetext::field(line, 3), &mut totals);
    let mut end = add_all(line, &mut nodes[0..n], &mut items[0..m], &mut totals, out);
    end = casetext::put(out, end, b" T ");
    casetext::put_words(out, end, &totals, b' ')
}
