// The cases of `sheet`, `sheet2`, `title` and `mend`, whose answers are bytes in lent room.
use crate::said::{is_refusal, put_front, put_head, word};
use refusals::Refusal;

// Puts an answer, with the bytes that were written.
pub fn put_written(out: &mut [u8], answer: Result<usize, Refusal>, bytes: &[u8]) -> usize {
    let mut said = [0u64; 3];
    words::put_size(&mut said, answer);
    let end = put_head(out, &said);
    if is_refusal(&said) {
        return end;
    }
    put_front(out, end, bytes, word(&said, 2))
}

// Writes a sheet.
fn sheet(
    line: &[u8],
    file: &[u8],
    nodes: &mut [u64],
    items: &mut [u64],
    bytes: &mut [u8],
    out: &mut [u8],
) -> usize {
    let room = casetext::read_number(line, 4, bytes.len());
    let answer = sheet::write_sheet(file, nodes, items, &mut bytes[0..room]);
    put_written(out, answer, bytes)
}

// Writes a sheet of the second edition.
fn sheet2(
    line: &[u8],
    file: &[u8],
    nodes: &mut [u64],
    items: &mut [u64],
    bytes: &mut [u8],
    out: &mut [u8],
) -> usize {
    let room = casetext::read_number(line, 4, bytes.len());
    let answer = sheet::write_sheet2(file, nodes, items, &mut bytes[0..room]);
    put_written(out, answer, bytes)
}

// Corrects a title.
fn title(
    line: &[u8],
    file: &[u8],
    nodes: &mut [u64],
    items: &mut [u64],
    bytes: &mut [u8],
    out: &mut [u8],
) -> usize {
    let mut title = io::large_buffer();
    let row = casetext::read_number(line, 4, usize::MAX);
    let k = casetext::read_bytes(line, 5, &mut title);
    let room = casetext::read_number(line, 6, bytes.len());
    let answer = title::correct_title(file, nodes, items, row, &title[..k], &mut bytes[0..room]);
    put_written(out, answer, bytes)
}

// Puts the copy and the lines.
fn put_mended(out: &mut [u8], said: &[u64], copy: &[u8], lines: &[u8]) -> usize {
    let mut end = put_head(out, said);
    if is_refusal(said) {
        return end;
    }
    end = put_front(out, end, copy, word(said, 2));
    end = casetext::put_byte(out, end, b' ');
    put_front(out, end, lines, word(said, 3))
}

// Mends a file, with room for the copy and for the lines.
fn mend_in(
    line: &[u8],
    file: &[u8],
    nodes: &mut [u64],
    items: &mut [u64],
    copy: &mut [u8],
    lines: &mut [u8],
    out: &mut [u8],
) -> usize {
    let mut said = [0u64; 4];
    let room = casetext::read_number(line, 4, copy.len());
    let space = casetext::read_number(line, 5, lines.len());
    let answer = mend::mend(file, nodes, items, &mut copy[0..room], &mut lines[0..space]);
    words::put_mended(&mut said, answer);
    put_mended(out, &said, copy, lines)
}

fn mend(
    line: &[u8],
    file: &[u8],
    nodes: &mut [u64],
    items: &mut [u64],
    bytes: &mut [u8],
    out: &mut [u8],
) -> usize {
    let mut lines = io::large_buffer();
    mend_in(line, file, nodes, items, bytes, &mut lines, out)
}

// Answers a case, or 0 where it is of another question.
pub fn ask(
    line: &[u8],
    file: &[u8],
    nodes: &mut [u64],
    items: &mut [u64],
    bytes: &mut [u8],
    out: &mut [u8],
) -> usize {
    match casetext::field(line, 0) {
        b"sheet" => sheet(line, file, nodes, items, bytes, out),
        b"sheet2" => sheet2(line, file, nodes, items, bytes, out),
        b"title" => title(line, file, nodes, items, bytes, out),
        b"mend" => mend(line, file, nodes, items, bytes, out),
        _ => 0,
    }
}
