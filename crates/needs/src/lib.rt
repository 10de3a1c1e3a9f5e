// What a tune needs: the counts of content descriptions. Those of a hidden row are not shown.
#![tactic(auto)]

ghost use Rattle.std.specs.Prelude.{◌≡◌, List, [], ℕ, ◌≤◌, ◌<◌, ◌^◌, ◌+◌, ◌*◌, length};
ghost use Rattle.machine.specs.Machine.{run};
ghost use Rattle.room.specs.Counts.{Counts};
ghost use Rattle.room.specs.Room.{Result};
ghost use Rattle.rows.specs.Rows.{items_in, ItemIn, ItemRows};
ghost use Rattle.description.specs.Row.{is_description};
ghost use Rattle.description.specs.Description.{table, description};
ghost use Rattle.lines.specs.Answer.{nothing, plainly, printed, Gives};
ghost use Rattle.needs.specs.Needed.{described, count_line, needs_in, row_needs, needs_from, needs_answer, shown_needs, shown_count, row_needs_answer, count_answer, Puts};

use cursor::{Cursor, FilePlace, Item};
use lines::{Made, conclude, refuse};
use refusals::{Reason, Refusal};

// Puts the line of a count.
fn put_count(
    out: &mut [u8],
    to: usize,
    row: usize,
    channel: u64,
    resource: u64,
    count: u64,
) -> usize
    ensures { Counts out.old out.new to (count_line row channel resource count) result }
{
    let a = room::put_byte(out, to, b'C');
    let b = text::put_number(out, a, row as u64);
    let c = text::put_number(out, b, channel);
    let d = text::put_number(out, c, resource);
    let e = text::put_number(out, d, count);
    room::put_byte(out, e, 0x0a)
}

// The answer for a hidden row: no text. Nothing is asked of its data.
pub fn hidden(text: &mut [u8]) -> Made
    ensures { Gives (length text.old) result text.new (nothing) }
{
    text.fill(0);
    Made { status: 1, size: 0 }
}

// The count of an item row for a channel and a resource.
fn make_row_count(
    file: &[u8],
    row: usize,
    item: Item,
    channel: u64,
    resource: u64,
    text: &mut [u8],
) -> Made
    requires { ItemIn (length file.now) item }
    ensures { Gives (length text.old) result text.new (printed (length text.old) [] (λ a. a) (shown_count file.now row channel resource item)) }
{
    if item.format % 2 == 1 {
        return hidden(text);
    }
    match description::count_in(file, item, channel, resource) {
        Err(e) => refuse(text, b"", e),
        Ok(n) => {
            let end = put_count(text, 0, row, channel, resource, n);
            conclude(text, b"", end, 0)
        }
    }
}

pub fn make_count(file: &[u8], row: usize, channel: u64, resource: u64, text: &mut [u8]) -> Made
    ensures { Gives (length text.old) result text.new (count_answer (length text.old) row channel resource file.now) }
{
    let mut nodes = program::node_table();
    let mut items = program::item_table();
    match file::read_file(file, &mut nodes, &mut items) {
        Err(e) => refuse(text, b"", e),
        Ok(s) => {
            if s.items <= row {
                return refuse(text, b"", Refusal(Reason::NoSuchRow, 0));
            }
            let item = rows::item_at(&items, row);
            make_row_count(file, row, item, channel, resource, text)
        }
    }
}

// Any fault of a field is that of the description, at the field's place.
fn described<T>(read: Result<T, Refusal>) -> Result<T, Refusal>
    ensures { result ≡ described read }
{
    match read {
        Err(e) => Err(Refusal(Reason::BadDescription, e.1)),
        Ok(x) => Ok(x),
    }
}

// Puts the lines of a count table, which is read from c on: a row a channel, a count a resource; then the item ends.
fn put_table(
    out: &mut [u8],
    to: usize,
    c: Cursor,
    file: &[u8],
    end: FilePlace,
    row: usize,
    channels: u64,
    resources: u64,
) -> Result<usize, Refusal>
    requires { (end.0 ≤ length file.now) × (channels < 2 ^ 28) × (resources < 2 ^ 28) }
    ensures { Puts out.old out.new to (needs_in row (run (table channels resources end.0) file.now c.at.0)) result }
{
    let count = channels * resources;
    let mut next = to;
    let mut at = c;
    for i in 0..count {
        let (needed, d) = described(at.number(file, end, Reason::CutShort))?;
        next = put_count(out, next, row, i / resources, i % resources, needed);
        at = d;
    }
    let after = at.at;
    if after.0 < end.0 {
        return Err(Refusal(Reason::BadDescription, after.0));
    }
    Ok(next)
}

// Puts the lines of a content description, which is the data of an item row.
fn put_counts(
    out: &mut [u8],
    to: usize,
    file: &[u8],
    row: usize,
    place: usize,
    size: usize,
) -> Result<usize, Refusal>
    requires { place + size ≤ length file.now }
    ensures { Puts out.old out.new to (needs_in row (run (description (place + size)) file.now place)) result }
{
    let end = FilePlace(place + size);
    let c = Cursor {
        at: FilePlace(place),
    };
    let (_, d) = described(c.number(file, end, Reason::CutShort))?;
    let (channels, e) = described(d.number(file, end, Reason::CutShort))?;
    let (resources, g) = described(e.number(file, end, Reason::CutShort))?;
    let h = described(description::read_lists(g, file, end, resources))?;
    put_table(out, to, h, file, end, row, channels, resources)
}

// Whether a row is a content description.
#[tactic(auto, unfolding(description::specs::Row::is_description))]
fn is_description(row: Item) -> bool
    ensures { result ≡ is_description row }
{
    description::is_field(row, 13) && description::is_binary(row)
}

// Puts the lines of an item row, if it is a visible content description.
fn put_row_needs(
    out: &mut [u8],
    to: usize,
    file: &[u8],
    row: usize,
    item: Item,
) -> Result<usize, Refusal>
    requires { ItemIn (length file.now) item }
    ensures { Puts out.old out.new to (row_needs file.now row item) result }
{
    if item.format % 2 == 1 {
        return Ok(to);
    }
    if !is_description(item) {
        return Ok(to);
    }
    put_counts(out, to, file, row, item.place as usize, item.size as usize)
}

// Puts the lines of all item rows.
fn put_needs(out: &mut [u8], file: &[u8], items: &[u64], count: usize) -> Result<usize, Refusal>
    requires { ItemRows (length file.now) count items.now }
    ensures { Puts out.old out.new 0 (needs_from file.now 0 (items_in count items.now)) result }
{
    let mut next = 0;
    for i in 0..count {
        next = put_row_needs(out, next, file, i, rows::item_at(items, i))?;
    }
    Ok(next)
}

// The answer for lines that were put.
pub fn put_answered(text: &mut [u8], put: Result<usize, Refusal>) -> Made
    ensures { (o : List ℕ) (x : Result (List ℕ)) → Puts o text.old 0 x put → Gives (length o) result text.new (printed (length o) [] plainly x) }
{
    match put {
        Err(e) => refuse(text, b"", e),
        Ok(end) => conclude(text, b"", end, 0),
    }
}

// The counts of all visible content descriptions.
pub fn make_needs(file: &[u8], text: &mut [u8]) -> Made
    ensures { Gives (length text.old) result text.new (needs_answer (length text.old) file.now) }
{
    let mut nodes = program::node_table();
    let mut items = program::item_table();
    match file::read_file(file, &mut nodes, &mut items) {
        Err(e) => refuse(text, b"", e),
        Ok(s) => {
            let put = put_needs(text, file, &items, s.items);
            put_answered(text, put)
        }
    }
}

// The counts of an item row.
fn make_item_needs(file: &[u8], row: usize, item: Item, text: &mut [u8]) -> Made
    requires { ItemIn (length file.now) item }
    ensures { Gives (length text.old) result text.new (printed (length text.old) [] (λ a. a) (shown_needs file.now row item)) }
{
    if item.format % 2 == 1 {
        return hidden(text);
    }
    if !is_description(item) {
        return refuse(text, b"", Refusal(Reason::NoSuchItem, 0));
    }
    let put = put_counts(text, 0, file, row, item.place as usize, item.size as usize);
    put_answered(text, put)
}

pub fn make_row_needs(file: &[u8], row: usize, text: &mut [u8]) -> Made
    ensures { Gives (length text.old) result text.new (row_needs_answer (length text.old) row file.now) }
{
    let mut nodes = program::node_table();
    let mut items = program::item_table();
    match file::read_file(file, &mut nodes, &mut items) {
        Err(e) => refuse(text, b"", e),
        Ok(s) => {
            if s.items <= row {
                return refuse(text, b"", Refusal(Reason::NoSuchRow, 0));
            }
            make_item_needs(file, row, rows::item_at(&items, row), text)
        }
    }
}
