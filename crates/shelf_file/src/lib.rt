// The file of a shelf: 16 cards of four 8-byte numbers, high byte first, then the text, 16 parts of 65,536 bytes. The calls on a shelf, of the file's bytes.
#![tactic(auto)]

ghost use Rattle.std.specs.Prelude.{◌≡◌, ◌+◌, ◌≤◌, ◌<◌, length};
ghost use Rattle.room.specs.Counts.{Counts};
ghost use Rattle.room.specs.Room.{counted, kept};
ghost use Rattle.shelf.specs.Shelf.{fresh};
ghost use Rattle.shelf.specs.Runs.{putting, getting, dropping};
ghost use Rattle.shelf.specs.Told.{told_outcome, told_got};
ghost use Rattle.shelf_file.specs.Layout.{eight, eights, word_at, words_from, text_bytes, file_of, answer_in, file_after, refusal_line};

use refusals::{Reason, Refusal};
use shelf::Label;

// The bytes of the cards.
const CARDS: usize = 512;

// The bytes of the file.
pub const SIZE: usize = 1049088;

// ---- numbers in bytes

// The number that the eight bytes from a place on say.
fn word_at(file: &[u8], at: usize) -> u64
    requires { at + 8 ≤ length file.now }
    ensures { result ≡ word_at file.now at }
{
    let a = cursor::wide(file[at]);
    let b = cursor::wide(file[at + 1]);
    let c = cursor::wide(file[at + 2]);
    let d = cursor::wide(file[at + 3]);
    let e = cursor::wide(file[at + 4]);
    let f = cursor::wide(file[at + 5]);
    let g = cursor::wide(file[at + 6]);
    let h = cursor::wide(file[at + 7]);
    a * 0x100000000000000
        + b * 0x1000000000000
        + c * 0x10000000000
        + d * 0x100000000
        + e * 0x1000000
        + f * 0x10000
        + g * 0x100
        + h
}

// A number in eight bytes.
fn eight(value: u64) -> [u8; 8]
    ensures { result ≡ eight value }
{
    [
        (value / 0x100000000000000 % 256) as u8,
        (value / 0x1000000000000 % 256) as u8,
        (value / 0x10000000000 % 256) as u8,
        (value / 0x100000000 % 256) as u8,
        (value / 0x1000000 % 256) as u8,
        (value / 0x10000 % 256) as u8,
        (value / 0x100 % 256) as u8,
        (value % 256) as u8,
    ]
}

// Puts a number in eight bytes.
fn put_eight(out: &mut [u8], to: usize, value: u64) -> usize
    ensures { Counts out.old out.new to (eight value) result }
{
    let bytes = eight(value);
    room::put_bytes(out, to, &bytes)
}

// ---- the cards

// The words of the cards.
fn words_in(file: &[u8]) -> [u64; 64]
    requires { 512 ≤ length file.now }
    ensures { result ≡ words_from 64 file.now 0 }
{
    let mut words = [0u64; 64];
    for i in 0..64 {
        words[i] = word_at(file, i * 8);
    }
    words
}

// Puts words from the first byte on.
fn put_words(out: &mut [u8], words: &[u64]) -> usize
    ensures { Counts out.old out.new 0 (eights words.now) result }
{
    let mut next = 0usize;
    for word in words {
        next = put_eight(out, next, *word);
    }
    next
}

// ---- the calls. A file of another size is refused as a damaged shelf

// A fresh shelf.
pub fn new() -> [u8; 1049088]
    ensures value { 1049088 ≡ length result }
    ensures value_2 { result ≡ file_of (fresh 16 text_bytes) }
{
    [0; 1049088]
}

// Puts a sheet.
pub fn put(file: &mut [u8], label: Label, sheet: &[u8]) -> Result<(), Refusal>
    ensures result_value { told_outcome result ≡ answer_in (putting label sheet.now) file.old }
    ensures file_value { file.new ≡ file_after (putting label sheet.now) file.old }
{
    if file.len() != SIZE {
        return Err(Refusal(Reason::DamagedShelf, 0));
    }
    let mut words = words_in(file);
    let outcome = shelf::put_words(&mut words, &mut file[CARDS..], label, sheet);
    put_words(file, &words);
    outcome
}

// Gets a sheet into the buffer. A refusal clears it.
pub fn get(file: &[u8], label: Label, out: &mut [u8]) -> Result<usize, Refusal>
    ensures result_value { told_got result ≡ counted (answer_in (getting label (length out.old)) file.now) }
    ensures out_value { out.new ≡ kept (length out.old) (answer_in (getting label (length out.old)) file.now) }
{
    if file.len() != SIZE {
        out.fill(0);
        return Err(Refusal(Reason::DamagedShelf, 0));
    }
    let words = words_in(file);
    shelf::get_words(&words, &file[CARDS..], label, out)
}

// Drops a sheet.
pub fn drop(file: &mut [u8], label: Label) -> Result<(), Refusal>
    ensures result_value { told_outcome result ≡ answer_in (dropping label) file.old }
    ensures file_value { file.new ≡ file_after (dropping label) file.old }
{
    if file.len() != SIZE {
        return Err(Refusal(Reason::DamagedShelf, 0));
    }
    let mut words = words_in(file);
    let outcome = shelf::drop_words(&mut words, &mut file[CARDS..], label);
    put_words(file, &words);
    outcome
}

// ---- what is said

// Puts the line of a refusal.
pub fn put_refusal(out: &mut [u8], number: u64, place: usize) -> usize
    ensures { Counts out.old out.new 0 (refusal_line number place) result }
{
    let a = room::put_bytes(out, 0, b"R\t");
    let b = room::put_decimal(out, a, number);
    let c = room::put_byte(out, b, 0x09);
    let d = room::put_decimal(out, c, place as u64);
    room::put_byte(out, d, 0x0a)
}
