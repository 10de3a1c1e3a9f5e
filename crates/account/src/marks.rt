// The kind of each place of a file, as a mark in a lent buffer.
ghost use Rattle.std.specs.Prelude.{◌≡◌, ◌+◌, ◌*◌, ◌^◌, ◌≤◌, ◌<◌, length};
ghost use Rattle.rows.specs.Rows.{item_width, nodes_in, items_in};
ghost use Rattle.room.specs.Room.{counted, kept};
ghost use Rattle.refusals.specs.Told.{told};
ghost use Rattle.account.specs.ByRows.{contents_at, folded, Inside, NodesInside};
ghost use Rattle.account.specs.ByPlace.{over_node, over_item, kind_by_rows};
ghost use Rattle.account.specs.Marks.{marked, nodes_marked, items_marked, Shows, Becomes, spanned};

use crate::{block_size, inline_size, meta_at};
use cursor::{FilePlace, Item, Node};
use refusals::{Reason, Refusal};

// The nine kinds.
pub const OF_HEADER: u8 = 0;

pub const OF_NODES: u8 = 1;

pub const OF_METADATA: u8 = 2;

pub const VISIBLE_DATA: u8 = 3;

pub const HIDDEN_DATA: u8 = 4;

pub const OF_UNPACKERS: u8 = 5;

pub const OF_REFERENCES: u8 = 6;

pub const INLINE_DATA: u8 = 7;

pub const ALL_ELSE: u8 = 8;

// Marks the places from one up to another, as far as there are marks.
fn fill(marks: &mut [u8], from: usize, to: usize, kind: u8)
    ensures { Becomes marks.old marks.new (spanned from to kind) }
{
    let end = to.min(marks.len());
    for at in from..end {
        marks[at] = kind;
    }
}

// Where a node's contents begin.
fn contents_at(row: Node) -> usize
    requires { row.start + row.size < 2 ^ 28 }
    ensures { result ≡ contents_at row }
{
    if row.reference == 1 {
        row.target as usize
    } else {
        (row.start + row.size) as usize
    }
}

// Marks the parts of a node.
fn mark_node(marks: &mut [u8], file: &[u8], row: Node)
    requires { Inside file.now row }
    ensures { Becomes marks.old marks.new (λ m. over_node file.now m row) }
{
    let start = row.start as usize;
    let end = start + row.size as usize;
    let meta = meta_at(file, row);
    let unpackers = meta + block_size(file, end, meta);
    let reference = start + row.header as usize;
    let contents = contents_at(row);
    let behind = room::on(contents, inline_size(row));
    fill(marks, start, meta, OF_NODES);
    fill(marks, meta, unpackers, OF_METADATA);
    fill(marks, unpackers, reference, OF_UNPACKERS);
    fill(marks, reference, contents, OF_REFERENCES);
    fill(marks, contents, behind, INLINE_DATA);
}

// Marks the data of an item row.
fn mark_item(marks: &mut [u8], row: Item)
    ensures { Becomes marks.old marks.new (λ m. over_item m row) }
{
    let place = row.place as usize;
    let end = room::on(place, row.size as usize);
    if row.format % 2 == 1 {
        fill(marks, place, end, HIDDEN_DATA);
        return;
    }
    fill(marks, place, end, VISIBLE_DATA);
}

// Marks the parts of all nodes.
fn mark_nodes(marks: &mut [u8], file: &[u8], nodes: &[u64], count: usize)
    requires { NodesInside file.now count nodes.now }
    ensures { Becomes marks.old marks.new (λ m. folded (over_node file.now) m (nodes_in count nodes.now)) }
{
    for i in 0..count {
        mark_node(marks, file, rows::node_at(nodes, i));
    }
}

// Marks the data of all item rows.
fn mark_items(marks: &mut [u8], items: &[u64], count: usize)
    requires { count * item_width ≤ length items.now }
    ensures { Becomes marks.old marks.new (λ m. folded over_item m (items_in count items.now)) }
{
    for i in 0..count {
        mark_item(marks, rows::item_at(items, i));
    }
}

// Marks every place of a file whose header ends at `end`: all else first, and the data of items over the metadata that it lies in.
fn mark_rows(
    marks: &mut [u8],
    file: &[u8],
    nodes: &[u64],
    items: &[u64],
    end: FilePlace,
    count: usize,
    rows: usize,
)
    requires { NodesInside file.now count nodes.now × (rows * item_width ≤ length items.now) }
    ensures { Shows marks.new (kind_by_rows file.now end.0 (nodes_in count nodes.now) (items_in rows items.now)) }
{
    fill(marks, 0, marks.len(), ALL_ELSE);
    fill(marks, 0, end.0, OF_HEADER);
    mark_nodes(marks, file, nodes, count);
    mark_items(marks, items, rows);
}

// Reads the file and stores the kind of each of its places; 0 behind them. The answer is the number of places.
pub fn mark(
    file: &[u8],
    nodes: &mut [u64],
    items: &mut [u64],
    marks: &mut [u8],
) -> Result<usize, Refusal>
    ensures answer { told result ≡ counted (marked nodes.old items.old file.now (length marks.old)) }
    ensures nodes { nodes.new ≡ nodes_marked nodes.old items.old file.now (length marks.old) }
    ensures items { items.new ≡ items_marked nodes.old items.old file.now (length marks.old) }
    ensures marks { marks.new ≡ kept (length marks.old) (marked nodes.old items.old file.now (length marks.old)) }
{
    match file::read_file(file, nodes, items) {
        Ok(s) => {
            let size = file.len();
            if marks.len() < size {
                rows::clear_all(nodes, items);
                marks.fill(0);
                return Err(Refusal(Reason::NoRoom, 0));
            }
            mark_rows(marks, file, nodes, items, s.header_end, s.nodes, s.items);
            room::fill_from(marks, size, 0);
            Ok(size)
        }
        Err(refusal) => {
            marks.fill(0);
            Err(refusal)
        }
    }
}
