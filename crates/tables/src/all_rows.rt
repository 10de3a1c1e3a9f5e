// Every row of the two tables, hidden ones too, as its words.
ghost use Rattle.std.specs.Prelude.{◌≤◌, ◌*◌, length};
ghost use Rattle.rows.specs.Rows.{node_width, item_width, nodes_in, items_in};
ghost use Rattle.room.specs.Counts.{Counts};
ghost use Rattle.lines.specs.Answer.{Gives};
ghost use Rattle.tables.specs.Rows.{node_numbers, item_numbers, node_row, item_row, node_rows, item_rows, rows_answer};

use cursor::{Item, Node};
use lines::{Made, conclude, refuse};

// Puts the words of a node row.
fn put_node_words(out: &mut [u8], to: usize, row: Node) -> usize
    ensures { Counts out.old out.new to (node_numbers row) result }
{
    let a = text::put_number(out, to, row.start);
    let b = text::put_number(out, a, row.size);
    let c = text::put_number(out, b, row.header);
    let d = text::put_number(out, c, row.contained);
    let e = text::put_number(out, d, row.parent);
    let f = text::put_number(out, e, row.depth);
    let g = text::put_number(out, f, row.reference);
    let h = text::put_number(out, g, row.target);
    let i = text::put_number(out, h, row.extent);
    let j = text::put_number(out, i, row.unpackers);
    let k = text::put_number(out, j, row.unpacker_count);
    let l = text::put_number(out, k, row.rows);
    text::put_number(out, l, row.detached)
}

// Puts the words of an item row.
fn put_item_words(out: &mut [u8], to: usize, row: Item) -> usize
    ensures { Counts out.old out.new to (item_numbers row) result }
{
    let a = text::put_number(out, to, row.node);
    let b = text::put_number(out, a, row.item);
    let c = text::put_number(out, b, row.kind);
    let d = text::put_number(out, c, row.field);
    let e = text::put_number(out, d, row.name_length);
    let f = text::put_number(out, e, row.version);
    let g = text::put_number(out, f, row.declared);
    let h = text::put_number(out, g, row.format);
    let i = text::put_number(out, h, row.place);
    text::put_number(out, i, row.size)
}

// Puts the line of node row i.
fn put_node_row(out: &mut [u8], to: usize, i: usize, row: Node) -> usize
    ensures { Counts out.old out.new to (node_row i row) result }
{
    let a = room::put_byte(out, to, b'n');
    let b = text::put_number(out, a, i as u64);
    let c = put_node_words(out, b, row);
    room::put_byte(out, c, 0x0a)
}

// Puts the line of item row i, under this letter.
pub fn put_item_row(out: &mut [u8], to: usize, letter: u8, i: usize, row: Item) -> usize
    ensures { Counts out.old out.new to (item_row letter i row) result }
{
    let a = room::put_byte(out, to, letter);
    let b = text::put_number(out, a, i as u64);
    let c = put_item_words(out, b, row);
    room::put_byte(out, c, 0x0a)
}

// Puts the lines of the node rows.
fn put_node_rows(out: &mut [u8], nodes: &[u64], count: usize) -> usize
    requires { count * node_width ≤ length nodes.now }
    ensures { Counts out.old out.new 0 (node_rows 0 (nodes_in count nodes.now)) result }
{
    let mut next: usize = 0;
    for i in 0..count {
        next = put_node_row(out, next, i, rows::node_at(nodes, i));
    }
    next
}

// Puts the lines of the item rows.
fn put_item_rows(out: &mut [u8], to: usize, items: &[u64], count: usize) -> usize
    requires { count * item_width ≤ length items.now }
    ensures { Counts out.old out.new to (item_rows 0 (items_in count items.now)) result }
{
    let mut next = to;
    for i in 0..count {
        next = put_item_row(out, next, b'i', i, rows::item_at(items, i));
    }
    next
}

pub fn make_rows(file: &[u8], text: &mut [u8]) -> Made
    ensures { Gives (length text.old) result text.new (rows_answer (length text.old) file.now) }
{
    let mut nodes = program::node_table();
    let mut items = program::item_table();
    match file::read_file(file, &mut nodes, &mut items) {
        Err(e) => refuse(text, b"", e),
        Ok(s) => {
            let a = put_node_rows(text, &nodes, s.nodes);
            let end = put_item_rows(text, a, &items, s.items);
            conclude(text, b"", end, 0)
        }
    }
}
