// Where the bytes of a file go, and sums over files.
#![tactic(auto)]

ghost use Rattle.std.specs.Prelude.{◌≡◌, ◌+◌, ◌*◌, ◌^◌, ◌≤◌, ◌<◌, length};
ghost use Rattle.machine.specs.Machine.{run};
ghost use Rattle.cursor.specs.Rows.{meta_frame, inline_size};
ghost use Rattle.cursor.specs.Refusals.{cut_short};
ghost use Rattle.cursor.specs.Leaves.{number};
ghost use Rattle.cursor.specs.Told.{Readable};
ghost use Rattle.rows.specs.Rows.{item_width, nodes_in, items_in};
ghost use Rattle.account.specs.ByRows.{last_byte, counted, meta_at, follow_size, with_node, in_nodes, with_item, in_items, together, kinds_by, Inside, NodesInside, SmallFrames, SmallData, Fits, RowsFit};
ghost use Rattle.account.specs.Totals.{plus_kinds, added, refused_one};
ghost use Rattle.account.specs.Told.{told, totals_in, answer, totals_after, nodes_after, items_after};

use cursor::{Cursor, FilePlace, Item, Node};
use refusals::{Reason, Refusal};

mod marks;

pub use marks::mark;

// The bytes of a file by kind; `rest` is all else.
#[derive(Clone, Copy)]
pub struct Kinds {
    pub header: usize,
    pub nodes: usize,
    pub metadata: usize,
    pub visible: usize,
    pub hidden: usize,
    pub unpackers: usize,
    pub references: usize,
    pub inline: usize,
    pub rest: usize,
}

// The own bytes of nodes: their three numbers, the metadata with its data, all before the reference, all before the contents, and inline data.
#[derive(Clone, Copy)]
struct Frames {
    nodes: usize,
    metadata: usize,
    headers: usize,
    fronts: usize,
    inline: usize,
}

// The data of item rows: all, and the hidden.
#[derive(Clone, Copy)]
struct Data {
    all: usize,
    hidden: usize,
}

// Over all files so far: how many were asked about, how many of these were refused, and the sums.
#[derive(Clone, Copy)]
pub struct Totals {
    pub files: usize,
    pub refused: usize,
    pub kinds: Kinds,
}

// The bytes of the file by kind, or its refusal; and the totals.
#[derive(Clone, Copy)]
pub struct Accounted {
    pub kinds: Result<Kinds, Refusal>,
    pub totals: Totals,
}

// The most files that are summed.
pub const MOST_FILES: usize = 1000;

// The last byte of the number at `at`: its first below 80h, of at most four.
fn last_byte(file: &[u8], at: usize) -> usize
    requires { (at + 4 ≤ length file.now) × (length file.now < 2 ^ 28) }
    ensures { (result ≡ last_byte file.now at) × (result < at + 4) }
{
    if file[at] < 128 {
        return at;
    }
    if file[at + 1] < 128 {
        return at + 1;
    }
    if file[at + 2] < 128 {
        return at + 2;
    }
    at + 3
}

// The bytes of the number at `at`, in a part that ends at `end`, and of the block that it counts. Almost every such number is one byte.
fn block_size(file: &[u8], end: usize, at: usize) -> usize
    requires { (at < end) × Readable end file.now }
    ensures { result ≡ counted at (run (number meta_frame cut_short end) file.now at) }
{
    let first = cursor::wide(file[at]);
    if first < 128 {
        return 1 + first as usize;
    }
    match (Cursor { at: FilePlace(at) }).number(file, FilePlace(end), Reason::CutShort) {
        Ok((n, next)) => next.at.0 + n as usize - at,
        Err(_) => 0,
    }
}

// Where a node's metadata begins: behind its three numbers.
fn meta_at(file: &[u8], row: Node) -> usize
    requires { Inside file.now row }
    ensures { result ≡ meta_at file.now row }
{
    let contained = last_byte(file, row.start as usize) + 1;
    let header = last_byte(file, contained) + 1;
    last_byte(file, header) + 1
}

// The bytes that follow its reference 1, which are its contents.
fn follow_size(row: Node) -> usize
    ensures { result ≡ follow_size row }
{
    if row.reference == 1 {
        row.extent as usize
    } else {
        0
    }
}

// The bytes of its inline data.
fn inline_size(row: Node) -> usize
    ensures { result ≡ inline_size row }
{
    if row.contained == 0 && row.reference == 1 {
        row.extent as usize
    } else {
        0
    }
}

// A node's own bytes, added to these.
fn with_node(k: Frames, file: &[u8], row: Node) -> Frames
    requires { Inside file.now row × SmallFrames (with_node file.now k row) }
    ensures { result ≡ with_node file.now k row }
{
    let headers = k.headers + row.header as usize;
    let fronts = k.fronts + (row.size as usize - follow_size(row));
    let inline = k.inline + inline_size(row);
    let start = row.start as usize;
    let meta = meta_at(file, row);
    let block = block_size(file, start + row.size as usize, meta);
    Frames {
        nodes: k.nodes + (meta - start),
        metadata: k.metadata + block,
        headers,
        fronts,
        inline,
    }
}

// The own bytes of all nodes.
fn in_nodes(file: &[u8], nodes: &[u64], count: usize) -> Frames
    requires { NodesInside file.now count nodes.now × SmallFrames (in_nodes file.now (nodes_in count nodes.now)) }
    ensures { result ≡ in_nodes file.now (nodes_in count nodes.now) }
{
    let mut sum = Frames {
        nodes: 0,
        metadata: 0,
        headers: 0,
        fronts: 0,
        inline: 0,
    };
    for i in 0..count {
        sum = with_node(sum, file, rows::node_at(nodes, i));
    }
    sum
}

// The data of an item row, added to this.
fn with_item(d: Data, row: Item) -> Data
    requires { SmallData (with_item d row) }
    ensures { result ≡ with_item d row }
{
    Data {
        all: d.all + row.size as usize,
        hidden: d.hidden + (row.format % 2 * row.size) as usize,
    }
}

// The data of all item rows.
fn in_items(items: &[u64], count: usize) -> Data
    requires { (count * item_width ≤ length items.now) × SmallData (in_items (items_in count items.now)) }
    ensures { result ≡ in_items (items_in count items.now) }
{
    let mut sum = Data { all: 0, hidden: 0 };
    for i in 0..count {
        sum = with_item(sum, rows::item_at(items, i));
    }
    sum
}

// The counts of a file of `size` bytes whose header ends at `end`: each kind is what others leave.
fn together(size: usize, end: FilePlace, k: Frames, d: Data) -> Kinds
    requires { Fits size end.0 k d }
    ensures { result ≡ together size end.0 k d }
{
    Kinds {
        header: end.0,
        nodes: k.nodes,
        metadata: k.metadata - d.all,
        visible: d.all - d.hidden,
        hidden: d.hidden,
        unpackers: k.headers - k.nodes - k.metadata,
        references: k.fronts - k.headers,
        inline: k.inline,
        rest: size - end.0 - k.fronts - k.inline,
    }
}

// The same, from its rows.
fn kinds_of(
    file: &[u8],
    nodes: &[u64],
    items: &[u64],
    end: FilePlace,
    count: usize,
    rows: usize,
) -> Kinds
    requires { RowsFit file.now end.0 count nodes.now rows items.now }
    ensures { result ≡ kinds_by file.now end.0 (nodes_in count nodes.now) (items_in rows items.now) }
{
    let own = in_nodes(file, nodes, count);
    let data = in_items(items, rows);
    together(file.len(), end, own, data)
}

// Sums over files.
fn plus_kinds(s: Kinds, k: Kinds) -> Kinds
    ensures { result ≡ plus_kinds s k }
{
    let header = room::on(s.header, k.header);
    let nodes = room::on(s.nodes, k.nodes);
    let metadata = room::on(s.metadata, k.metadata);
    let visible = room::on(s.visible, k.visible);
    let hidden = room::on(s.hidden, k.hidden);
    let unpackers = room::on(s.unpackers, k.unpackers);
    let references = room::on(s.references, k.references);
    let inline = room::on(s.inline, k.inline);
    let rest = room::on(s.rest, k.rest);
    Kinds {
        header,
        nodes,
        metadata,
        visible,
        hidden,
        unpackers,
        references,
        inline,
        rest,
    }
}

// One more file, of these counts.
fn add(t: Totals, k: Kinds) -> Totals
    ensures { result ≡ added t k }
{
    let files = room::on(t.files, 1);
    let kinds = plus_kinds(t.kinds, k);
    Totals {
        files,
        refused: t.refused,
        kinds,
    }
}

// One more file, which was refused.
fn add_refused(t: Totals) -> Totals
    ensures { result ≡ refused_one t }
{
    let files = room::on(t.files, 1);
    let refused = room::on(t.refused, 1);
    let kinds = t.kinds;
    Totals {
        files,
        refused,
        kinds,
    }
}

// Reads the file and counts its bytes by kind; the totals with them added. A refused file is one more file and one more refused; a 1,001st is neither.
pub fn account(file: &[u8], nodes: &mut [u64], items: &mut [u64], totals: Totals) -> Accounted
    ensures answer { told result ≡ answer totals nodes.old items.old file.now }
    ensures totals { totals_in result ≡ totals_after totals nodes.old items.old file.now }
    ensures nodes { nodes.new ≡ nodes_after totals nodes.old items.old file.now }
    ensures items { items.new ≡ items_after totals nodes.old items.old file.now }
{
    if MOST_FILES <= totals.files {
        rows::clear_all(nodes, items);
        return Accounted {
            kinds: Err(Refusal(Reason::TooManyFiles, 0)),
            totals,
        };
    }
    match file::read_file(file, nodes, items) {
        Ok(s) => {
            let kinds = kinds_of(file, nodes, items, s.header_end, s.nodes, s.items);
            let sums = add(totals, kinds);
            Accounted {
                kinds: Ok(kinds),
                totals: sums,
            }
        }
        Err(refusal) => {
            let left = add_refused(totals);
            Accounted {
                kinds: Err(refusal),
                totals: left,
            }
        }
    }
}
