// The calls on cards lent as structs, for cards that are words here: they are put into an array, which is lent, and stored back.
ghost use Rattle.std.specs.Prelude.{◌≡◌, ℕ, ◌/◌, ◌≤◌, ◌<◌, min, length, get_or, take};
ghost use Rattle.shelf.specs.Shelf.{fresh_card};
ghost use Rattle.shelf.specs.Runs.{putting, dropping};
ghost use Rattle.shelf.specs.Rows.{row_of};
ghost use Rattle.shelf.specs.Words.{cards_of, words_with};
ghost use Rattle.shelf.specs.Told.{told_outcome, told_got, ChangesIn, Gets};

use refusals::Refusal;
use shelf::{Card, Label};

// The most cards that the array takes.
const MOST: usize = 20;

// How many of the cards that are in this number of words the array takes.
fn count(words: usize) -> usize
    ensures { result ≡ min (words / 4) 20 }
{
    MOST.min(words / 4)
}

// Card i of those that are in words, or a fresh one.
fn card_in(words: &[u64], i: usize) -> Card
    ensures { result ≡ get_or (cards_of words.now) i fresh_card }
{
    if i < words.len() / 4 {
        let k = i * 4;
        return Card {
            desk: words[k],
            call: words[k + 1],
            boat: words[k + 2],
            length: words[k + 3],
        };
    }
    Card {
        desk: 0,
        call: 0,
        boat: 0,
        length: 0,
    }
}

// The cards that are in words, and fresh ones.
fn load_row(words: &[u64]) -> [Card; 20]
    ensures { (length result ≡ 20) × ((k : ℕ) → k < 20 → get_or result k fresh_card ≡ get_or (cards_of words.now) k fresh_card) }
{
    let mut row = [Card {
        desk: 0,
        call: 0,
        boat: 0,
        length: 0,
    }; 20];
    for i in 0..20 {
        row[i] = card_in(words, i);
    }
    row
}

// Stores the cards in their words, as many as there are words for.
fn store_row(words: &mut [u64], row: [Card; 20])
    ensures { words.new ≡ words_with words.old (take (min (length words.old / 4) 20) row) }
{
    let n = count(words.len());
    for i in 0..n {
        let c = row[i];
        let four = [c.desk, c.call, c.boat, c.length];
        room::store(words, i * 4, &four);
    }
}

// Puts on the first n cards of an array, and stores all its cards in the words.
fn put_row(
    row: [Card; 20],
    n: usize,
    words: &mut [u64],
    text: &mut [u8],
    label: Label,
    sheet: &[u8],
) -> Result<(), Refusal>
    requires { n ≡ min (length words.old / 4) 20 }
    ensures { ChangesIn words.old (putting label sheet.now) (row_of (take n row) text.old) (told_outcome result) words.new text.new }
{
    let mut cards = row;
    let answer = shelf::put(&mut cards[..n], text, label, sheet);
    store_row(words, cards);
    answer
}

// Gets from the first n cards of an array.
fn get_row(
    row: [Card; 20],
    n: usize,
    text: &[u8],
    label: Label,
    out: &mut [u8],
) -> Result<usize, Refusal>
    requires { n ≤ 20 }
    ensures { Gets label (row_of (take n row) text.now) (told_got result) out.old out.new }
{
    let cards = row;
    shelf::get(&cards[..n], text, label, out)
}

// Drops from the first n cards of an array, and stores all its cards in the words.
fn drop_row(
    row: [Card; 20],
    n: usize,
    words: &mut [u64],
    text: &mut [u8],
    label: Label,
) -> Result<(), Refusal>
    requires { n ≡ min (length words.old / 4) 20 }
    ensures { ChangesIn words.old (dropping label) (row_of (take n row) text.old) (told_outcome result) words.new text.new }
{
    let mut cards = row;
    let answer = shelf::drop(&mut cards[..n], text, label);
    store_row(words, cards);
    answer
}

// The calls of the same names, on the first 20 cards in words.
pub fn put(words: &mut [u64], text: &mut [u8], label: Label, sheet: &[u8]) -> Result<(), Refusal>
    ensures { ChangesIn words.old (putting label sheet.now) (row_of (take 20 (cards_of words.old)) text.old) (told_outcome result) words.new text.new }
{
    let n = count(words.len());
    let row = load_row(words);
    put_row(row, n, words, text, label, sheet)
}

pub fn get(words: &[u64], text: &[u8], label: Label, out: &mut [u8]) -> Result<usize, Refusal>
    ensures { Gets label (row_of (take 20 (cards_of words.now)) text.now) (told_got result) out.old out.new }
{
    let n = count(words.len());
    let row = load_row(words);
    get_row(row, n, text, label, out)
}

pub fn drop(words: &mut [u64], text: &mut [u8], label: Label) -> Result<(), Refusal>
    ensures { ChangesIn words.old (dropping label) (row_of (take 20 (cards_of words.old)) text.old) (told_outcome result) words.new text.new }
{
    let n = count(words.len());
    let row = load_row(words);
    drop_row(row, n, words, text, label)
}
