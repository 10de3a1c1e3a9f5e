// The cases of the command's answers, which tools/answer_cases.py makes. A case is a letter, the file's bytes, the field that ends the line and the name or
// the title, all in hex, the room for the text, and the question's numbers; the answer is the status, and the text in hex.
use crate::said::put_front;
use answers::{Asked, Frames};
use find::Field;

// The question that a letter stands for, with its numbers.
fn question(letter: u8, a: usize, b: usize, c: usize) -> Asked {
    match letter {
        b's' => Asked::Sheet,
        b'S' => Asked::Sheet2,
        b'm' => Asked::Moved,
        b'c' => Asked::Check,
        b'r' => Asked::Rows,
        b'v' => Asked::Verdict,
        b'n' => Asked::Near(a, Field::Standard(b as u64)),
        b'N' => Asked::Near(a, Field::Custom),
        b'o' => Asked::Own(a, Field::Standard(b as u64)),
        b'O' => Asked::Own(a, Field::Custom),
        b'p' => Asked::Place(a),
        b'x' => Asked::Resource(a),
        b'g' => Asked::Origin(a),
        b'w' => Asked::Needs,
        b'i' => Asked::RowNeeds(a),
        b'k' => Asked::Count(a, b as u64, c as u64),
        b'b' => Asked::Bytes,
        b'B' => Asked::BytesLine,
        b'f' => Asked::RowTag(a, false, Frames::All),
        b'F' => Asked::RowTag(a, true, Frames::All),
        b'h' => Asked::RowTag(a, false, Frames::One(b)),
        b'H' => Asked::RowTag(a, true, Frames::One(b)),
        b'a' => Asked::Tag(Frames::All),
        b'A' => Asked::Tag(Frames::One(a)),
        b't' => Asked::Titles,
        b'd' => Asked::Corrected(a),
        b'e' => Asked::Retitled(a),
        b'8' => Asked::Utf8,
        b'u' => Asked::Runs,
        b'M' => Asked::Mended,
        b'l' => Asked::MendLines,
        _ => Asked::Utf16,
    }
}

// Reads the numbers of a case, whose letter this is.
fn read_question(line: &[u8], letter: u8) -> Asked {
    let a = casetext::read_number(line, 5, usize::MAX);
    let b = casetext::read_number(line, 6, usize::MAX);
    let c = casetext::read_number(line, 7, usize::MAX);
    question(letter, a, b, c)
}

// Asks, and puts the answer.
fn put_answer(
    asked: Asked,
    word: &[u8],
    file: &[u8],
    tail: &[u8],
    text: &mut [u8],
    out: &mut [u8],
) -> usize {
    let made = answers::make(asked, word, file, tail, text);
    let mut end = casetext::put_decimal(out, 0, made.status);
    end = casetext::put_byte(out, end, b' ');
    put_front(out, end, text, made.size as u64)
}

// Answers a case, whose letter this is.
pub fn ask(line: &[u8], letter: u8, file: &[u8], text: &mut [u8], out: &mut [u8]) -> usize {
    let mut tail = io::buffer();
    let mut word = io::buffer();
    let m = casetext::read_bytes(line, 2, &mut tail);
    let k = casetext::read_bytes(line, 3, &mut word);
    let room = casetext::read_number(line, 4, text.len());
    let asked = read_question(line, letter);
    put_answer(asked, &word[..k], file, &tail[..m], &mut text[0..room], out)
}
