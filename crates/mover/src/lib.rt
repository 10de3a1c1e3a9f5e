// The mover: puts the lines of a well-formed sheet in the other edition's order.
#![tactic(auto)]

ghost use Rattle.std.specs.Prelude.{◌≡◌, [], ◌∷◌, ◌++◌, ℕ, ◌≤◌, ◌<◌, ◌+◌, ◌-◌, length, drop};
ghost use Rattle.std.proofs.Math.Seq.{slice};
ghost use Rattle.room.specs.Room.{fitting, counted, kept};
ghost use Rattle.room.specs.Counts.{Counts};
ghost use Rattle.refusals.specs.Told.{told};
ghost use Rattle.editions.specs.Sheets.{parted, written, word, item, kind, judge, picked, is_kind, items_of, moved_lines, move};
ghost use Rattle.editions.specs.Reads.{Known, AllKnown, run_of, past_run};
ghost use Rattle.editions.specs.Told.{Well};
ghost use Rattle.mover.specs.Told.{item_lines, Right, grouped};

use refusals::{Reason, Refusal};

// The place after what was put, and the item line that is next.
#[derive(Clone, Copy)]
struct Ran {
    to: usize,
    item: Option<(usize, usize, u64)>,
}

// Puts a line.
fn put_line(out: &mut [u8], to: usize, sheet: &[u8], at: usize, end: usize) -> usize
    requires { (at ≤ end) × (end ≤ length sheet.now) }
    ensures { Counts out.old out.new to (slice at end sheet.now ++ 0x0A ∷ []) result }
{
    let next = room::put_part(out, to, sheet, at, end - at);
    room::put_byte(out, next, 0x0a)
}

// Puts all lines of one kind from a place on: item lines or node lines.
fn put_kind(out: &mut [u8], to: usize, sheet: &[u8], from: usize, items: bool) -> usize
    requires { (from ≤ length sheet.now) × AllKnown (parted 0x0A (drop from sheet.now)) }
    ensures { Counts out.old out.new to (written (picked (is_kind items) (parted 0x0A (drop from sheet.now)))) result }
{
    let mut next = to;
    let mut at = from;
    while at < sheet.len() {
        let end = editions::piece_end(sheet, at, 0x0a);
        if is_kind(&sheet[at..end], items) {
            next = put_line(out, next, sheet, at, end);
            at = end + 1;
        } else {
            at = end + 1;
        }
    }
    next
}

// Whether a line of a well-formed sheet is an item's, or else a node's: its first letter says it.
fn is_kind(line: &[u8], items: bool) -> bool
    requires { Known line.now }
    ensures { result ≡ is_kind items (kind line.now) }
{
    let b = editions::letter(line, 0);
    if items {
        return b == b'M';
    }
    b == b'N'
}

// The node of an item line.
fn node_of(line: &[u8]) -> u64
    ensures { (k : ℕ) → kind line.now ≡ item k → result ≡ k }
{
    if editions::letter(line, 0) != b'M' {
        return 0;
    }
    match editions::number_field(line, 2) {
        None => 0,
        Some((row, _)) => row,
    }
}

// The first item line from a place on: where it begins and ends, and its node.
fn next_item(sheet: &[u8], from: usize) -> Option<(usize, usize, u64)>
    requires { AllKnown (parted 0x0A (drop from sheet.now)) }
    ensures { (item_lines sheet.now result ≡ items_of (parted 0x0A (drop from sheet.now))) × Right sheet.now from result }
{
    let mut at = from;
    while at < sheet.len() {
        let end = editions::piece_end(sheet, at, 0x0a);
        if is_kind(&sheet[at..end], true) {
            return Some((at, end, node_of(&sheet[at..end])));
        }
        at = end + 1;
    }
    None
}

// Puts the item lines of a row that stand next.
fn put_run(
    out: &mut [u8],
    to: usize,
    sheet: &[u8],
    first: Option<(usize, usize, u64)>,
    row: u64,
) -> Ran
    requires { Right sheet.now 0 first }
    ensures puts { Counts out.old out.new to (written (run_of row (item_lines sheet.now first))) result.to }
    ensures left { (item_lines sheet.now result.item ≡ past_run row (item_lines sheet.now first)) × Right sheet.now 0 result.item }
{
    let mut next = to;
    let mut item = first;
    loop {
        match item {
            None => return Ran {
                to: next,
                item: item,
            },
            Some((at, end, k)) => {
                if k != row {
                    return Ran {
                        to: next,
                        item: item,
                    };
                }
                next = put_line(out, next, sheet, at, end);
                item = next_item(sheet, end + 1);
            }
        }
    }
}

// Puts each node line from a place on, and behind it the item lines of its row: one cursor goes over the node lines, one over the item lines.
fn put_groups(out: &mut [u8], to: usize, sheet: &[u8], from: usize) -> usize
    requires { (from ≤ length sheet.now) × AllKnown (parted 0x0A (drop from sheet.now)) }
    ensures { Counts out.old out.new to (grouped (drop from sheet.now)) result }
{
    let mut next = to;
    let mut at = from;
    let mut row: u64 = 0;
    let mut item = next_item(sheet, from);
    while at < sheet.len() {
        let end = editions::piece_end(sheet, at, 0x0a);
        if is_kind(&sheet[at..end], false) {
            next = put_line(out, next, sheet, at, end);
            let run = put_run(out, next, sheet, item, row);
            next = run.to;
            item = run.item;
            row = row + 1;
            at = end + 1;
        } else {
            at = end + 1;
        }
    }
    next
}

// Puts the other edition of a well-formed sheet.
fn put_moved(out: &mut [u8], sheet: &[u8], second: bool, stop: usize) -> usize
    requires { Well sheet.now second stop }
    ensures { Counts out.old out.new 0 (written (moved_lines second (parted 0x0A sheet.now))) result }
{
    let body = stop + 1;
    if second {
        let word = room::put_bytes(out, 0, b"XMF");
        let first = put_line(out, word, sheet, 4, stop);
        let nodes = put_kind(out, first, sheet, body, false);
        return put_kind(out, nodes, sheet, body, true);
    }
    let word = room::put_bytes(out, 0, b"XMF2");
    let first = put_line(out, word, sheet, 3, stop);
    put_groups(out, first, sheet, body)
}

// Moves a sheet to the other edition.
pub fn move_sheet(sheet: &[u8], room: &mut [u8]) -> Result<usize, Refusal>
    ensures answer { told result ≡ counted (fitting (length room.old) (move sheet.now)) }
    ensures room { room.new ≡ kept (length room.old) (fitting (length room.old) (move sheet.now)) }
{
    match editions::judge(sheet) {
        Err(number) => {
            room.fill(0);
            Err(Refusal(Reason::BadSheet, number))
        }
        Ok((second, stop)) => {
            let size = put_moved(room, sheet, second, stop);
            if room.len() < size {
                room.fill(0);
                return Err(Refusal(Reason::NoRoom, 0));
            }
            room::fill_from(room, size, 0);
            Ok(size)
        }
    }
}
