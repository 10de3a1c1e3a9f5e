// A shelf: a lent row of cards, at most 16, and a lent text of 16 equal parts that holds their sheets; part and card go together by number. The cards are lent as structs, or
// as words, four a card, with the same definition.
#![tactic(auto)]

ghost use Rattle.std.specs.Prelude.{◌≡◌, ◌+◌, ◌/◌, ◌≤◌, ◌<◌, length, get_or, take, drop, set};
ghost use Rattle.room.specs.Room.{good, padded, fitting, counted, kept};
ghost use Rattle.shelf.specs.Shelf.{card_for, label_of, fresh_card, is_free, is_for, first, is_faulty, faulty, is_damaged, with_part, found, place};
ghost use Rattle.shelf.specs.Runs.{putting, getting, dropping, answer, next};
ghost use Rattle.shelf.specs.Words.{cards_of, shelf_of, words_with};
ghost use Rattle.shelf.specs.Rows.{laid, row_of};
ghost use Rattle.shelf.specs.Told.{told_outcome, told_got, told_found, Changes, Given, Gets};

use refusals::{Reason, Refusal};

// What a sheet is kept under: the desk, the call and the boat that it is for.
#[derive(Clone, Copy, Debug, PartialEq, Eq)]
pub struct Label {
    pub desk: u64,
    pub call: u64,
    pub boat: u64,
}

// A card: the desk, call and boat of a sheet, and its length in bytes. The sheet is in the part of the same number. A card with call 0 is free.
#[derive(Clone, Copy)]
pub struct Card {
    pub desk: u64,
    pub call: u64,
    pub boat: u64,
    pub length: u64,
}

// A free card whose part holds no sheet.
const FRESH: Card = Card {
    desk: 0,
    call: 0,
    boat: 0,
    length: 0,
};

impl Card {
    // What its sheet is kept under.
    pub fn label(self) -> Label
        ensures { result ≡ label_of self }
    {
        Label {
            desk: self.desk,
            call: self.call,
            boat: self.boat,
        }
    }
}

// The most cards that a shelf may have, and the number of parts.
pub const MOST_CARDS: usize = 16;

// ---- cards

// Whether a card has this label.
#[tactic(auto, unfolding(crate::specs::Shelf::is_for))]
fn is_for(c: Card, label: Label) -> bool
    ensures { result ≡ is_for label c }
{
    c.label() == label
}

// The first card from `from` on with this label; the number of cards if there is none.
fn find_from(cards: &[Card], from: usize, label: Label) -> usize
    requires { from ≤ length cards.now }
    ensures { result ≡ from + first (is_for label) (drop from cards.now) }
{
    for i in from..cards.len() {
        if is_for(cards[i], label) {
            return i;
        }
    }
    cards.len()
}

// The lowest free card; the number of cards if there is none.
fn find_free(cards: &[Card]) -> usize
    ensures { result ≡ first is_free cards.now }
{
    for i in 0..cards.len() {
        let card = cards[i];
        if card.call == 0 {
            return i;
        }
    }
    cards.len()
}

// Whether card i is taken and its sheet is longer than a part, or a later card has its label.
fn is_card_faulty(cards: &[Card], part: usize, i: usize) -> bool
    requires { i < length cards.now }
    ensures { result ≡ is_faulty part (get_or cards.now i fresh_card) (drop (i + 1) cards.now) }
{
    let c = cards[i];
    if c.call == 0 {
        return false;
    }
    if (part as u64) < c.length {
        return true;
    }
    find_from(cards, i + 1, c.label()) < cards.len()
}

// Whether a card is at fault.
fn is_faulty(cards: &[Card], part: usize) -> bool
    ensures { result ≡ faulty part cards.now }
{
    for i in 0..cards.len() {
        if is_card_faulty(cards, part, i) {
            return true;
        }
    }
    false
}

// Whether there are more than 16 cards, or one is at fault.
#[tactic(auto, using(std::proofs::lemmas::Bool::Decides::nat_tests), unfolding(crate::specs::Shelf::is_damaged))]
fn is_damaged(cards: &[Card], part: usize) -> bool
    ensures { result ≡ is_damaged part cards.now }
{
    MOST_CARDS < cards.len() || is_faulty(cards, part)
}

// The card of a sheet, where a part has `part` bytes.
fn find_sheet(cards: &[Card], part: usize, label: Label) -> Result<usize, Refusal>
    ensures { told_found result ≡ found label part cards.now }
{
    if is_damaged(cards, part) {
        return Err(Refusal(Reason::DamagedShelf, 0));
    }
    if label.call == 0 {
        return Err(Refusal(Reason::NoSuchCard, 0));
    }
    let i = find_from(cards, 0, label);
    if i < cards.len() {
        return Ok(i);
    }
    Err(Refusal(Reason::NoSuchCard, 0))
}

// The card for a new sheet of `size` bytes.
fn find_place(cards: &[Card], part: usize, label: Label, size: usize) -> Result<usize, Refusal>
    ensures { told_found result ≡ place label size part cards.now }
{
    if is_damaged(cards, part) {
        return Err(Refusal(Reason::DamagedShelf, 0));
    }
    if label.call == 0 {
        return Err(Refusal(Reason::NoSuchCard, 0));
    }
    let n = cards.len();
    let at = find_from(cards, 0, label);
    if at < n {
        return Err(Refusal(Reason::AlreadyThere, 0));
    }
    if size > part {
        return Err(Refusal(Reason::SheetTooLong, 0));
    }
    let i = find_free(cards);
    if i < n {
        return Ok(i);
    }
    Err(Refusal(Reason::NoFreeCard, 0))
}

// ---- the text

// Fills lent room with a sheet and then zeros.
fn fill(out: &mut [u8], sheet: &[u8])
    requires { length sheet.now ≤ length out.old }
    ensures { out.new ≡ padded (length out.old) sheet.now }
{
    room::store(out, 0, sheet);
    room::fill_from(out, sheet.len(), 0);
}

// Fills part i of the text.
fn store_part(text: &mut [u8], i: usize, sheet: &[u8])
    requires { (i < 16) × (length sheet.now ≤ length text.old / 16) }
    ensures { text.new ≡ with_part text.old i sheet.now }
{
    let part = text.len() / MOST_CARDS;
    let at = i * part;
    let end = at + part;
    fill(&mut text[at..end], sheet);
}

// Answers the sheet of `size` bytes at `at`, and fills the buffer.
fn give(text: &[u8], at: usize, size: usize, out: &mut [u8]) -> Result<usize, Refusal>
    requires { at + size ≤ length text.now }
    ensures { Given (fitting (length out.old) (good (take size (drop at text.now)))) (told_got result) out.old out.new }
{
    if out.len() < size {
        out.fill(0);
        return Err(Refusal(Reason::NoRoom, 0));
    }
    let end = at + size;
    fill(out, &text[at..end]);
    Ok(size)
}

// The card of a sheet of `size` bytes.
fn card_for(label: Label, size: usize) -> Card
    ensures { result ≡ card_for label size }
{
    let length = size as u64;
    Card {
        desk: label.desk,
        call: label.call,
        boat: label.boat,
        length,
    }
}

// ---- the calls, on cards lent as structs

// Puts a sheet under a label, in the lowest free card. A refusal leaves shelf and text as they were.
pub fn put(cards: &mut [Card], text: &mut [u8], label: Label, sheet: &[u8]) -> Result<(), Refusal>
    ensures { Changes (putting label sheet.now) (row_of cards.old text.old) (told_outcome result) cards.new text.new }
{
    let part = text.len() / MOST_CARDS;
    let i = find_place(cards, part, label, sheet.len())?;
    cards[i] = card_for(label, sheet.len());
    store_part(text, i, sheet);
    Ok(())
}

// Gets the sheet of a label into the buffer. A refusal clears the buffer.
pub fn get(cards: &[Card], text: &[u8], label: Label, out: &mut [u8]) -> Result<usize, Refusal>
    ensures { Gets label (row_of cards.now text.now) (told_got result) out.old out.new }
{
    let part = text.len() / MOST_CARDS;
    match find_sheet(cards, part, label) {
        Err(r) => {
            out.fill(0);
            Err(r)
        }
        Ok(i) => {
            let c = cards[i];
            give(text, i * part, c.length as usize, out)
        }
    }
}

// Drops the sheet of a label: its card and its part are cleared. A refusal leaves shelf and text as they were.
pub fn drop(cards: &mut [Card], text: &mut [u8], label: Label) -> Result<(), Refusal>
    ensures { Changes (dropping label) (row_of cards.old text.old) (told_outcome result) cards.new text.new }
{
    let part = text.len() / MOST_CARDS;
    let i = find_sheet(cards, part, label)?;
    cards[i] = FRESH;
    store_part(text, i, b"");
    Ok(())
}

// ---- the calls, on cards lent as words

// Card i.
fn card_at(words: &[u64], i: usize) -> Card
    requires { i < length words.now / 4 }
    ensures { result ≡ get_or (cards_of words.now) i fresh_card }
{
    let k = i * 4;
    let desk = words[k];
    let call = words[k + 1];
    let boat = words[k + 2];
    let length = words[k + 3];
    Card {
        desk,
        call,
        boat,
        length,
    }
}

// Replaces card i.
fn store_card(words: &mut [u64], i: usize, c: Card)
    requires { i < length words.old / 4 }
    ensures { words.new ≡ words_with words.old (set (cards_of words.old) i c) }
{
    let row = [c.desk, c.call, c.boat, c.length];
    room::store(words, i * 4, &row);
}

// Reads the cards into the first of others.
fn read_cards(words: &[u64], cards: &mut [Card])
    requires { length words.now / 4 ≤ length cards.old }
    ensures { cards.new ≡ laid (length words.now / 4) (cards_of words.now) cards.old }
{
    for i in 0..words.len() / 4 {
        cards[i] = card_at(words, i);
    }
}

// Puts a sheet under a label, in the lowest free card. A refusal leaves shelf and text as they were.
pub fn put_words(
    words: &mut [u64],
    text: &mut [u8],
    label: Label,
    sheet: &[u8],
) -> Result<(), Refusal>
    ensures result_value { told_outcome result ≡ answer (putting label sheet.now) (shelf_of words.old text.old) }
    ensures words_value { words.new ≡ words_with words.old (next (putting label sheet.now) (shelf_of words.old text.old)).cards }
    ensures text_value { text.new ≡ (next (putting label sheet.now) (shelf_of words.old text.old)).text }
{
    let n = words.len() / 4;
    if MOST_CARDS < n {
        return Err(Refusal(Reason::DamagedShelf, 0));
    }
    let part = text.len() / MOST_CARDS;
    let mut cards = [FRESH; 16];
    read_cards(words, &mut cards);
    let place = find_place(&cards[..n], part, label, sheet.len())?;
    store_card(words, place, card_for(label, sheet.len()));
    store_part(text, place, sheet);
    Ok(())
}

// Gets the sheet of a label into the buffer. A refusal clears the buffer.
pub fn get_words(words: &[u64], text: &[u8], label: Label, out: &mut [u8]) -> Result<usize, Refusal>
    ensures result_value { told_got result ≡ counted (answer (getting label (length out.old)) (shelf_of words.now text.now)) }
    ensures out_value { out.new ≡ kept (length out.old) (answer (getting label (length out.old)) (shelf_of words.now text.now)) }
{
    let n = words.len() / 4;
    if MOST_CARDS < n {
        out.fill(0);
        return Err(Refusal(Reason::DamagedShelf, 0));
    }
    let mut cards = [FRESH; 16];
    read_cards(words, &mut cards);
    get(&cards[..n], text, label, out)
}

// Drops the sheet of a label: its card and its part are cleared. A refusal leaves shelf and text as they were.
pub fn drop_words(words: &mut [u64], text: &mut [u8], label: Label) -> Result<(), Refusal>
    ensures result_value { told_outcome result ≡ answer (dropping label) (shelf_of words.old text.old) }
    ensures words_value { words.new ≡ words_with words.old (next (dropping label) (shelf_of words.old text.old)).cards }
    ensures text_value { text.new ≡ (next (dropping label) (shelf_of words.old text.old)).text }
{
    let n = words.len() / 4;
    if MOST_CARDS < n {
        return Err(Refusal(Reason::DamagedShelf, 0));
    }
    let part = text.len() / MOST_CARDS;
    let mut cards = [FRESH; 16];
    read_cards(words, &mut cards);
    let place = find_sheet(&cards[..n], part, label)?;
    store_card(words, place, FRESH);
    store_part(text, place, b"");
    Ok(())
}
