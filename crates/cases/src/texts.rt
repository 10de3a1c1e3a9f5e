// The cases of `utf8`, `utf16`, `move`, `id3` and `id3frame`, which ask nothing of a file.
use crate::said::{is_refusal, put_head, put_values, word};
use crate::written::put_written;

// Converts UTF-16 into UTF-8.
fn utf8(line: &[u8], given: &[u8], bytes: &mut [u8], out: &mut [u8]) -> usize {
    let room = casetext::read_number(line, 2, bytes.len());
    let answer = utf16::to_utf8(given, &mut bytes[0..room]);
    put_written(out, answer, bytes)
}

// And back.
fn utf16(line: &[u8], given: &[u8], bytes: &mut [u8], out: &mut [u8]) -> usize {
    let room = casetext::read_number(line, 2, bytes.len());
    let answer = utf16::to_utf16(given, &mut bytes[0..room]);
    put_written(out, answer, bytes)
}

// Moves a sheet into the other edition.
fn moved(line: &[u8], given: &[u8], bytes: &mut [u8], out: &mut [u8]) -> usize {
    let room = casetext::read_number(line, 2, bytes.len());
    let answer = mover::move_sheet(given, &mut bytes[0..room]);
    put_written(out, answer, bytes)
}

// Counts the frames of a tag.
fn frame_count(tag: &[u8], out: &mut [u8]) -> usize {
    let mut said = [0u64; 3];
    words::put_size(&mut said, id3::frame_count(tag));
    put_values(out, &said)
}

// Puts a frame, its name in hex.
fn put_frame(out: &mut [u8], said: &[u64]) -> usize {
    let mut end = put_head(out, said);
    if is_refusal(said) {
        return end;
    }
    let name = word(said, 2);
    let bytes = [
        (name / 0x1000000 % 256) as u8,
        (name / 0x10000 % 256) as u8,
        (name / 0x100 % 256) as u8,
        (name % 256) as u8,
    ];
    end = casetext::put_hex(out, end, &bytes);
    end = casetext::put_spaced(out, end, word(said, 3));
    casetext::put_spaced(out, end, word(said, 4))
}

// Finds a frame of a tag.
fn frame(line: &[u8], tag: &[u8], out: &mut [u8]) -> usize {
    let mut said = [0u64; 5];
    let number = casetext::read_number(line, 2, usize::MAX);
    words::put_frame(&mut said, id3::frame(tag, number));
    put_frame(out, &said)
}

// Answers a case, or 0 where it is of another question.
pub fn ask(line: &[u8], given: &[u8], bytes: &mut [u8], out: &mut [u8]) -> usize {
    match casetext::field(line, 0) {
        b"utf8" => utf8(line, given, bytes, out),
        b"utf16" => utf16(line, given, bytes, out),
        b"move" => moved(line, given, bytes, out),
        b"id3" => frame_count(given, out),
        b"id3frame" => frame(line, given, out),
        _ => 0,
    }
}
