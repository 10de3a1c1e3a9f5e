// Writes the support sheet of a file: its nodes and its visible metadata, as lines of text, in two editions.
#![tactic(auto)]

ghost use Rattle.std.specs.Prelude.{◌≡◌, ◌≤◌, ◌*◌, ◌+◌, ◌-◌, min, leb, length};
ghost use Rattle.rows.specs.Rows.{node_width, item_width, item_from, nodes_in, items_from, items_in, ItemIn, ItemRows};
ghost use Rattle.file.specs.Asking.{answered, nodes_left, items_left};
ghost use Rattle.sheet.specs.Sheet.{head_fields, node_line, label, text_of, item_line, visible_line, node_lines, item_lines, group_lines, lines_in, write, write2, write_in, counted, kept};
ghost use Rattle.room.specs.Counts.{Counts};
ghost use Rattle.refusals.specs.Told.{told};
ghost use Rattle.sheet.specs.Inside.{Fills, least_text, least_line, least_lines};

use cursor::{Item, Node};
use refusals::{Reason, Refusal};

// Puts the first line behind its word and a tab: version, the file's length, the counts of rows.
fn put_head_fields(
    out: &mut [u8],
    to: usize,
    version: u64,
    size: usize,
    nodes: usize,
    items: usize,
) -> usize
    ensures { Counts out.old out.new to (head_fields version size nodes items) result }
{
    let a = text::put_version(out, to, version);
    let b = text::put_number(out, a, size as u64);
    let c = text::put_number(out, b, nodes as u64);
    let d = text::put_number(out, c, items as u64);
    room::put_byte(out, d, 0x0a)
}

// Puts the line of a node row, which is row i. Past the room's end nothing is counted.
fn put_node_line(out: &mut [u8], to: usize, i: usize, row: Node) -> usize
    ensures { Fills out.old out.new to (node_line i row) result }
{
    if out.len() < to {
        return to;
    }
    let a = room::put_byte(out, to, b'N');
    let b = text::put_number(out, a, i as u64);
    let c = text::put_number(out, b, row.parent);
    let d = text::put_number(out, c, row.depth);
    let e = text::put_number(out, d, row.reference);
    let f = text::put_number(out, e, row.target);
    let g = text::put_number(out, f, row.extent);
    room::put_byte(out, g, 0x0a)
}

// Puts the lines of the node rows.
fn put_node_lines(out: &mut [u8], to: usize, nodes: &[u64], count: usize) -> usize
    requires { count * node_width ≤ length nodes.now }
    ensures { Fills out.old out.new to (node_lines 0 (nodes_in count nodes.now)) result }
{
    let mut next = to;
    for i in 0..count {
        next = put_node_line(out, next, i, rows::node_at(nodes, i));
    }
    next
}

// Puts the field of an item row: `C` and its name, or `S` and its number.
fn put_label(out: &mut [u8], to: usize, file: &[u8], row: Item) -> usize
    requires { ItemIn (length file.now) row }
    ensures { Counts out.old out.new to (label file.now row) result }
{
    let a = room::put_byte(out, to, 0x09);
    if row.kind == 1 {
        let b = room::put_byte(out, a, b'C');
        let c = room::put_byte(out, b, 0x09);
        return text::put_escaped(out, c, file, row.field as usize, row.name_length as usize);
    }
    let d = room::put_byte(out, a, b'S');
    text::put_number(out, d, row.field)
}

// Puts the text of an item row.
pub fn put_text(out: &mut [u8], to: usize, file: &[u8], row: Item) -> usize
    requires { ItemIn (length file.now) row }
    ensures { Counts out.old out.new to (text_of file.now row) result }
{
    if row.format == 2 {
        return text::put_unicode(out, to, file, row.place as usize, row.size as usize);
    }
    text::put_escaped(out, to, file, row.place as usize, row.size as usize)
}

// Puts the line of item row i. Its words are read where they are put: kept from before the line's first byte on, they would be stored and read again.
pub fn put_item_line(out: &mut [u8], to: usize, file: &[u8], items: &[u64], i: usize) -> usize
    requires { (i * item_width + item_width ≤ length items.now) × ItemIn (length file.now) (item_from items.now (i * item_width)) }
    ensures { Counts out.old out.new to (item_line file.now (item_from items.now (i * item_width))) result }
{
    let a = room::put_byte(out, to, b'M');
    let b = text::put_number(out, a, rows::item_at(items, i).node);
    let c = put_label(out, b, file, rows::item_at(items, i));
    let d = text::put_number(out, c, rows::item_at(items, i).version);
    let e = text::put_number(out, d, rows::item_at(items, i).format);
    let f = room::put_byte(out, e, 0x09);
    let g = put_text(out, f, file, rows::item_at(items, i));
    room::put_byte(out, g, 0x0a)
}

// Puts the line of item row i, if the row is visible.
pub fn put_visible_line(out: &mut [u8], to: usize, file: &[u8], items: &[u64], i: usize) -> usize
    requires { (i * item_width + item_width ≤ length items.now) × ItemIn (length file.now) (item_from items.now (i * item_width)) }
    ensures { Counts out.old out.new to (visible_line file.now (item_from items.now (i * item_width))) result }
{
    if rows::item_at(items, i).format % 2 == 1 {
        return to;
    }
    put_item_line(out, to, file, items, i)
}

// A count of bytes that the line of a visible item row has at least, by its data: a byte gives a byte of text, and two bytes of UTF-16 give one, but for a mark;
// and a line has more than its text.
fn least_text(row: Item) -> u64
    ensures { result ≡ least_text row }
{
    if row.format != 2 {
        return row.size;
    }
    row.size / 2
}

// A count of bytes that the line of an item row has at least, by its name and its data. No byte of the file is read for that.
fn least_line(row: Item) -> u64
    ensures { result ≡ least_line row }
{
    if row.format % 2 == 1 {
        return 0;
    }
    if row.kind != 1 {
        return least_text(row);
    }
    if row.size < row.name_length {
        return row.name_length;
    }
    least_text(row)
}

// Whether the lines of item rows from one row up to another can fit from a place on, by what each has at least.
fn may_fit(size: usize, to: usize, items: &[u64], from: usize, end: usize) -> bool
    requires { (from ≤ end) × (end * item_width ≤ length items.now) }
    ensures { result ≡ leb (to + least_lines (items_from from (end - from) items.now)) size }
{
    if size < to {
        return false;
    }
    let mut left = (size - to) as u64;
    for i in from..end {
        let least = least_line(rows::item_at(items, i));
        if left < least {
            return false;
        }
        left = left - least;
    }
    true
}

// Puts the lines of the visible item rows from one row up to another, up to the first that ends past the room. Where the file is longer than the room, no byte
// is read of lines that cannot all fit; a shorter file is read to its end at little cost.
fn put_item_lines(
    out: &mut [u8],
    to: usize,
    file: &[u8],
    items: &[u64],
    from: usize,
    end: usize,
) -> usize
    requires { (from ≤ end) × ItemRows (length file.now) end items.now }
    ensures { Fills out.old out.new to (item_lines file.now (items_from from (end - from) items.now)) result }
{
    if out.len() < file.len() {
        if !may_fit(out.len(), to, items, from, end) {
            return room::TOO_MANY;
        }
    }
    let mut next = to;
    for i in from..end {
        next = put_visible_line(out, next, file, items, i);
        if out.len() < next {
            return next;
        }
    }
    next
}

// The end of `rows` rows from row `from` on, where there are `count` in all.
fn rows_end(from: usize, rows: u64, count: usize) -> usize
    requires { from ≤ count }
    ensures { result ≡ from + min rows (count - from) }
{
    from + (rows as usize).min(count - from)
}

// Puts the line of each node row, and behind it the lines of its visible item rows.
fn put_group_lines(
    out: &mut [u8],
    to: usize,
    file: &[u8],
    nodes: &[u64],
    items: &[u64],
    rows: usize,
    contents: usize,
) -> usize
    requires { (rows * node_width ≤ length nodes.now) × ItemRows (length file.now) contents items.now }
    ensures { Fills out.old out.new to (group_lines file.now 0 (nodes_in rows nodes.now) (items_in contents items.now)) result }
{
    let mut next = to;
    let mut first = 0;
    for i in 0..rows {
        let row = rows::node_at(nodes, i);
        let end = rows_end(first, row.rows, contents);
        next = put_node_line(out, next, i, row);
        next = put_item_lines(out, next, file, items, first, end);
        first = end;
    }
    next
}

// Puts the whole sheet of the rows that stand in the tables, in either edition.
fn put_sheet(
    out: &mut [u8],
    file: &[u8],
    nodes: &[u64],
    items: &[u64],
    version: u64,
    rows: usize,
    contents: usize,
    second: bool,
) -> usize
    requires { (rows * node_width ≤ length nodes.now) × ItemRows (length file.now) contents items.now }
    ensures { Fills out.old out.new 0 (lines_in second version file.now (nodes_in rows nodes.now) (items_in contents items.now)) result }
{
    if second {
        let word = room::put_bytes(out, 0, b"XMF2\t");
        let head = put_head_fields(out, word, version, file.len(), rows, contents);
        return put_group_lines(out, head, file, nodes, items, rows, contents);
    }
    let word = room::put_bytes(out, 0, b"XMF\t");
    let head = put_head_fields(out, word, version, file.len(), rows, contents);
    let lines = put_node_lines(out, head, nodes, rows);
    put_item_lines(out, lines, file, items, 0, contents)
}

// Reads a file and writes its support sheet in either edition.
fn write_edition(
    file: &[u8],
    nodes: &mut [u64],
    items: &mut [u64],
    sheet: &mut [u8],
    second: bool,
) -> Result<usize, Refusal>
    ensures answer { told result ≡ counted (answered nodes.old items.old file.now (write_in second (length sheet.old))) }
    ensures nodes { nodes.new ≡ nodes_left nodes.old items.old file.now (write_in second (length sheet.old)) }
    ensures items { items.new ≡ items_left nodes.old items.old file.now (write_in second (length sheet.old)) }
    ensures sheet { sheet.new ≡ kept (length sheet.old) (answered nodes.old items.old file.now (write_in second (length sheet.old))) }
{
    match file::read_file(file, nodes, items) {
        Err(r) => {
            sheet.fill(0);
            Err(r)
        }
        Ok(s) => {
            let end = put_sheet(
                sheet, file, nodes, items, s.version, s.nodes, s.items, second,
            );
            if sheet.len() < end {
                rows::clear_all(nodes, items);
                sheet.fill(0);
                return Err(Refusal(Reason::NoRoom, 0));
            }
            room::fill_from(sheet, end, 0);
            Ok(end)
        }
    }
}

// Reads a file and writes its support sheet.
pub fn write_sheet(
    file: &[u8],
    nodes: &mut [u64],
    items: &mut [u64],
    sheet: &mut [u8],
) -> Result<usize, Refusal>
    ensures answer { told result ≡ counted (answered nodes.old items.old file.now (write (length sheet.old))) }
    ensures nodes { nodes.new ≡ nodes_left nodes.old items.old file.now (write (length sheet.old)) }
    ensures items { items.new ≡ items_left nodes.old items.old file.now (write (length sheet.old)) }
    ensures sheet { sheet.new ≡ kept (length sheet.old) (answered nodes.old items.old file.now (write (length sheet.old))) }
{
    write_edition(file, nodes, items, sheet, false)
}

// Reads a file and writes its support sheet in the second edition.
pub fn write_sheet2(
    file: &[u8],
    nodes: &mut [u64],
    items: &mut [u64],
    sheet: &mut [u8],
) -> Result<usize, Refusal>
    ensures answer { told result ≡ counted (answered nodes.old items.old file.now (write2 (length sheet.old))) }
    ensures nodes { nodes.new ≡ nodes_left nodes.old items.old file.now (write2 (length sheet.old)) }
    ensures items { items.new ≡ items_left nodes.old items.old file.now (write2 (length sheet.old)) }
    ensures sheet { sheet.new ≡ kept (length sheet.old) (answered nodes.old items.old file.now (write2 (length sheet.old))) }
{
    write_edition(file, nodes, items, sheet, true)
}
