// The cases of `tree`, `find` and `findown`, whose answers have rows.
use crate::said::{is_refusal, put_head, put_unless, word};
use cursor::Item;
use refusals::Refusal;

// Puts a version, which is in hundredths, as `1.01`.
fn put_version(out: &mut [u8], at: usize, version: u64) -> usize {
    let mut end = casetext::put_decimal(out, at, version / 100);
    end = casetext::put_byte(out, end, b'.');
    end = casetext::put_decimal(out, end, version / 10 % 10);
    casetext::put_decimal(out, end, version % 10)
}

// Puts the rows that a table holds, after the table's letter, and ` stale` where a word past them is not 0.
fn put_table(
    out: &mut [u8],
    at: usize,
    letter: &[u8],
    words: &[u64],
    rows: u64,
    width: usize,
) -> usize {
    let used = casetext::row_words(rows as usize, width, words.len());
    let mut end = casetext::put(out, at, letter);
    end = casetext::put_rows(out, end, &words[0..used], width, b';', b',');
    put_unless(out, end, words, used, 0)
}

// Puts the version and the numbers of rows, or the refusal.
fn put_counts(out: &mut [u8], said: &[u64]) -> usize {
    let mut end = put_head(out, said);
    if is_refusal(said) {
        return end;
    }
    end = put_version(out, end, word(said, 2));
    end = casetext::put_spaced(out, end, word(said, 3));
    casetext::put_spaced(out, end, word(said, 4))
}

// Puts what was read. After a refusal the tables hold no rows.
fn put_tree(out: &mut [u8], said: &[u64], nodes: &[u64], items: &[u64]) -> usize {
    let mut end = put_counts(out, said);
    if is_refusal(said) {
        end = put_unless(out, end, nodes, 0, 0);
        return put_unless(out, end, items, 0, 0);
    }
    end = put_table(out, end, b" n:", nodes, word(said, 3), cursor::NODE_WIDTH);
    put_table(out, end, b" i:", items, word(said, 4), cursor::ITEM_WIDTH)
}

// Reads a file.
fn tree(file: &[u8], nodes: &mut [u64], items: &mut [u64], out: &mut [u8]) -> usize {
    let mut said = [0u64; 5];
    words::put_tree(&mut said, file::read_tree(file, nodes, items));
    put_tree(out, &said, nodes, items)
}

// Puts the item row that was found.
fn put_found(out: &mut [u8], said: &[u64]) -> usize {
    let mut end = put_head(out, said);
    if is_refusal(said) {
        return end;
    }
    if said.len() < 3 {
        return end;
    }
    end = casetext::put_decimal(out, end, word(said, 2));
    end = casetext::put_byte(out, end, b' ');
    casetext::put_words(out, end, &said[3..], b',')
}

// Finds a standard field; `own`: on the node itself.
fn find_standard(
    own: bool,
    file: &[u8],
    nodes: &mut [u64],
    items: &mut [u64],
    row: usize,
    number: u64,
) -> Result<(usize, Item), Refusal> {
    if own {
        return find::find_own_standard(file, nodes, items, row, number);
    }
    find::find_standard(file, nodes, items, row, number)
}

// Finds a custom field likewise.
fn find_custom(
    own: bool,
    file: &[u8],
    nodes: &mut [u64],
    items: &mut [u64],
    row: usize,
    name: &[u8],
) -> Result<(usize, Item), Refusal> {
    if own {
        return find::find_own_custom(file, nodes, items, row, name);
    }
    find::find_custom(file, nodes, items, row, name)
}

// Finds a field: `S` and its number, or `C` and its name.
fn find_field(
    own: bool,
    line: &[u8],
    file: &[u8],
    nodes: &mut [u64],
    items: &mut [u64],
) -> Result<(usize, Item), Refusal> {
    let row = casetext::read_number(line, 4, usize::MAX);
    if casetext::field(line, 5) == b"S".as_slice() {
        let number = casetext::read_number(line, 6, usize::MAX) as u64;
        return find_standard(own, file, nodes, items, row, number);
    }
    let mut name = io::buffer();
    let k = casetext::read_bytes(line, 6, &mut name);
    find_custom(own, file, nodes, items, row, &name[..k])
}

// Finds a field and puts its row.
fn find(
    own: bool,
    line: &[u8],
    file: &[u8],
    nodes: &mut [u64],
    items: &mut [u64],
    out: &mut [u8],
) -> usize {
    let mut said = [0u64; 13];
    words::put_found(&mut said, find_field(own, line, file, nodes, items));
    put_found(out, &said)
}

// Answers a case, or 0 where it is of another question.
pub fn ask(
    line: &[u8],
    file: &[u8],
    nodes: &mut [u64],
    items: &mut [u64],
    out: &mut [u8],
) -> usize {
    match casetext::field(line, 0) {
        b"tree" => tree(file, nodes, items, out),
        b"find" => find(false, line, file, nodes, items, out),
        b"findown" => find(true, line, file, nodes, items, out),
        _ => 0,
    }
}
