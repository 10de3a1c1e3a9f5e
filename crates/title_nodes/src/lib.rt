// Writes the nodes of a file anew, with the data of one content replaced. Two passes over the rows: sizes from the last row to the first, and bytes from the
// first row to the last.
#![tactic(auto)]

ghost use Rattle.std.specs.Prelude.{◌≡◌, true, List, [], ℕ, ◌≤◌, ◌<◌, ◌^◌, ◌+◌, ◌-◌, min, length};
ghost use Rattle.room.specs.Parts.{part};
ghost use Rattle.vlq.specs.Vlq.{least};
ghost use Rattle.room.specs.Counts.{Counts};
ghost use Rattle.rows.specs.Rows.{ItemRows};
ghost use Rattle.title_text.specs.Text.{items_text, reference_text, header_size, length_bytes};
ghost use Rattle.title_items.specs.Contents.{contents_from};
ghost use Rattle.title_parts.specs.Told.{PackedAs};
ghost use Rattle.title_nodes.specs.Passes.{size_stop, body_size, sum_of, task, Outside, Leaf, Sound, Measured, Prepared, tree_text};
ghost use Rattle.title_nodes.specs.Told.{FrameTold, NodePut, Appends, NodeAppended, NodeRoom};

use cursor::{FilePlace, Node};
use title_parts::Packed;
// NodeHeaderLength and NodeLength.
#[derive(Clone, Copy)]
struct Frame {
    header: usize,
    size: usize,
}

// Bytes are put up to `next`; `size` bytes of the file, from `from` on, are to be put behind them.
#[derive(Clone, Copy)]
struct Run {
    next: usize,
    from: usize,
    size: usize,
}

// A size that is measured stops here: every file is shorter.
pub const SIZE_STOP: usize = 268435456;

// A size, stopped.
pub fn stopped(size: usize) -> usize
    ensures { result ≡ min size size_stop }
{
    size.min(SIZE_STOP)
}

// The bytes of a number that counts them and m bytes more.
pub fn self_bytes(m: usize) -> usize
    requires { m ≤ 2 ^ 40 }
    ensures { result ≡ least (λ k. k + m) }
{
    vlq::least_bytes(1 + m, 2 + m, 3 + m)
}

// NodeHeaderLength, where NodeLength has a bytes, and `fixed` bytes of the header are in neither.
fn header_size(fixed: usize, a: usize) -> usize
    requires { (fixed ≤ 2 ^ 32) × (a ≤ 4) }
    ensures { result ≡ header_size fixed a }
{
    a + self_bytes(a + fixed) + fixed
}

// The bytes of NodeLength, where `contents` bytes follow the header.
fn length_bytes(fixed: usize, contents: usize) -> usize
    requires { (fixed ≤ 2 ^ 32) × (contents ≤ 2 ^ 32) }
    ensures { result ≡ length_bytes fixed contents }
{
    let one = header_size(fixed, 1) + contents;
    let two = header_size(fixed, 2) + contents;
    let three = header_size(fixed, 3) + contents;
    vlq::least_bytes(one, two, three)
}

// The bytes of the URI or inline data of a node row; a folder has none of its own.
fn body_size(row: Node) -> u64
    ensures { result ≡ body_size row }
{
    if row.contained == 0 { row.extent } else { 0 }
}

// Puts ReferenceTypeID, and what it leads to: a URI with its length, or inline data.
fn put_reference(
    out: &mut [u8],
    to: usize,
    file: &[u8],
    reference: u64,
    place: FilePlace,
    size: usize,
) -> usize
    requires { place.0 + size ≤ length file.now }
    ensures { Counts out.old out.new to (reference_text reference (part file.now place.0 size)) result }
{
    let a = vlq::put_number(out, to, reference);
    if reference == 4 {
        let b = vlq::put_number(out, a, size as u64);
        return room::put_part(out, b, file, place.0, size);
    }
    room::put_part(out, a, file, place.0, size)
}

// Counts the bytes of ReferenceTypeID, and of a URI or inline data of `size` bytes.
fn measure_reference(reference: u64, size: usize) -> usize
    ensures { (f : List ℕ) (place : ℕ) → place + size ≤ length f → Counts [] [] 0 (reference_text reference (part f place size)) result }
{
    let a = vlq::vlq_size(reference);
    if reference == 4 {
        return room::on(room::on(a, vlq::vlq_size(size as u64)), size);
    }
    room::on(a, size)
}

// NodeHeaderLength and NodeLength of a node row, whose item rows have `metadata` bytes, whose unpackers have `packed`, and whose nodes have `inner`.
fn frame_of(row: Node, metadata: usize, packed: usize, inner: usize) -> Frame
    requires { (metadata ≤ size_stop) × (inner ≤ size_stop) }
    ensures { FrameTold row metadata packed inner result }
{
    let unpackers = stopped(room::on(vlq::vlq_size(packed as u64), packed));
    let body = body_size(row) as usize;
    let own = stopped(measure_reference(row.reference, body));
    let fixed = vlq::vlq_size(row.contained)
        + vlq::vlq_size(metadata as u64)
        + metadata
        + unpackers;
    let contents = own + inner;
    let header = header_size(fixed, length_bytes(fixed, contents));
    let size = stopped(header + contents);
    Frame { header, size }
}

// Puts a node row, but for the nodes that it holds; its item rows are those from row `first` on, up to row `end`. All its lengths were measured.
fn put_node(
    out: &mut [u8],
    to: usize,
    file: &[u8],
    node: Node,
    items: &[u64],
    first: usize,
    end: usize,
    row: usize,
    title: &[u8],
    metadata: usize,
    packed: Packed,
    frame: Frame,
) -> usize
    requires rows { (node.target + node.extent ≤ length file.now) × (length file.now < 2 ^ 28) × (first ≤ end) × ItemRows (length file.now) end items.now }
    requires sizes { (metadata ≡ length (items_text (contents_from file.now row title.now items.now first (end - first)))) × PackedAs file.now node packed }
    ensures { NodePut file.now node (contents_from file.now row title.now items.now first (end - first)) frame out.old out.new to result }
{
    let a = vlq::put_number(out, to, frame.size as u64);
    let b = vlq::put_number(out, a, node.contained);
    let c = vlq::put_number(out, b, frame.header as u64);
    let d = vlq::put_number(out, c, metadata as u64);
    let e = title_items::put_items(out, d, file, items, first, end, row, title);
    let g = title_parts::put_unpackers(out, e, file, node, packed);
    let body = body_size(node) as usize;
    put_reference(
        out,
        g,
        file,
        node.reference,
        FilePlace(node.target as usize),
        body,
    )
}

// Whether a node row has the bytes of the file: it holds no nodes, is no shorter there, and none of its item rows, from row `first` on, up to row `end`, gets the title.
fn stands(node: Node, first: usize, end: usize, row: usize, size: usize) -> bool
    ensures { result ≡ true → (node.contained ≡ 0) × (size ≡ node.size) × Outside row first end }
{
    node.contained == 0 && node.size as usize == size && (row < first || end <= row)
}

// Appends `size` bytes of the file, from `from` on.
fn extend(out: &mut [u8], file: &[u8], run: Run, from: usize, size: usize) -> Run
    requires { (run.from + run.size ≤ length file.now) × (from + size ≤ length file.now) }
    ensures { Appends file.now out.old out.new run (part file.now from size) result }
{
    if run.from + run.size == from {
        return Run {
            next: run.next,
            from: run.from,
            size: run.size + size,
        };
    }
    let next = room::put_part(out, run.next, file, run.from, run.size);
    Run { next, from, size }
}

// Appends a node row, but for the nodes that it holds: as it stands in the file, or anew.
fn put_row(
    out: &mut [u8],
    file: &[u8],
    run: Run,
    node: Node,
    items: &[u64],
    first: usize,
    end: usize,
    row: usize,
    title: &[u8],
    metadata: usize,
    packed: Packed,
    frame: Frame,
) -> Run
    requires rows { (node.target + node.extent ≤ length file.now) × (length file.now < 2 ^ 28) × (first ≤ end) × ItemRows (length file.now) end items.now }
    requires sizes { (metadata ≡ length (items_text (contents_from file.now row title.now items.now first (end - first)))) × PackedAs file.now node packed }
    requires inside { (run.from + run.size ≤ length file.now) × (node.start + node.size ≤ length file.now) }
    requires leaf { Leaf file.now node (contents_from file.now row title.now items.now first (end - first)) (Outside row first end) }
    ensures { NodeAppended file.now node (contents_from file.now row title.now items.now first (end - first)) frame out.old out.new run result }
{
    if stands(node, first, end, row, frame.size) {
        return extend(out, file, run, node.start as usize, frame.size);
    }
    let a = room::put_part(out, run.next, file, run.from, run.size);
    let next = put_node(
        out, a, file, node, items, first, end, row, title, metadata, packed, frame,
    );
    Run {
        next,
        from: 0,
        size: 0,
    }
}

// The sum of the words from word `from` on, up to word `end`.
fn sum(words: &[usize], from: usize, end: usize) -> usize
    requires { (from ≤ end) × (end ≤ length words.now) }
    ensures { result ≡ min (sum_of (part words.now from (end - from))) size_stop }
{
    let mut r: usize = 0;
    for word in &words[from..end] {
        r = stopped(room::on(r, *word));
    }
    r
}

// The first pass, from the last row to the first: for each node the bytes of its item rows, into `metadata`, of its unpackers, into `packed` and `same`, and its two lengths.
// The answer: the bytes of the tree. `sizes` is a stack, which grows down from its end: the sizes of the nodes from row i on that no other of these holds.
pub fn measure_tree(
    file: &[u8],
    nodes: &[u64],
    items: &[u64],
    count: usize,
    total: usize,
    row: usize,
    title: &[u8],
    metadata: &mut [usize],
    packed: &mut [usize],
    same: &mut [bool],
    headers: &mut [usize],
    lengths: &mut [usize],
) -> usize
    requires task { Sound (task file.now nodes.now items.now count total row title.now) }
    requires room { NodeRoom metadata.old packed.old same.old headers.old lengths.old }
    ensures measured { Measured (task file.now nodes.now items.now count total row title.now) 0
        metadata.new packed.new same.new headers.new lengths.new }
    ensures tree { result ≡ min (length (tree_text (task file.now nodes.now items.now count total row title.now))) size_stop }
{
    let mut sizes = [0usize; cursor::MOST_NODES];
    let mut top = cursor::MOST_NODES;
    let mut end = total;
    for i in (0..count).rev() {
        let node = rows::node_at(nodes, i);
        let first = end - node.rows as usize;
        let below = top + node.contained as usize;
        let m = stopped(title_items::put_items(&mut [], 0, file, items, first, end, row, title));
        let p = title_parts::unpackers_of(file, node);
        let n = sum(&sizes, top, below);
        let f = frame_of(node, m, p.size, n);
        metadata[i] = m;
        packed[i] = p.size;
        same[i] = p.same;
        headers[i] = f.header;
        lengths[i] = f.size;
        top = below - 1;
        sizes[top] = f.size;
        end = first;
    }
    sum(&sizes, top, cursor::MOST_NODES)
}

// The second pass, from the first row to the last: puts the nodes. Those that stand in the file end to end are copied at once.
pub fn put_tree(
    out: &mut [u8],
    to: usize,
    file: &[u8],
    nodes: &[u64],
    items: &[u64],
    count: usize,
    total: usize,
    row: usize,
    title: &[u8],
    metadata: &[usize],
    packed: &[usize],
    same: &[bool],
    headers: &[usize],
    lengths: &[usize],
) -> usize
    requires rows { Prepared (task file.now nodes.now items.now count total row title.now) metadata.now packed.now same.now headers.now lengths.now }
    requires room { NodeRoom metadata.now packed.now same.now headers.now lengths.now }
    requires small { length (tree_text (task file.now nodes.now items.now count total row title.now)) < size_stop }
    ensures { Counts out.old out.new to (tree_text (task file.now nodes.now items.now count total row title.now)) result }
{
    let mut run = Run {
        next: to,
        from: 0,
        size: 0,
    };
    let mut first: usize = 0;
    for i in 0..count {
        let node = rows::node_at(nodes, i);
        let end = first + node.rows as usize;
        let size = packed[i];
        let kept = same[i];
        let header = headers[i];
        let whole = lengths[i];
        run = put_row(
            out,
            file,
            run,
            node,
            items,
            first,
            end,
            row,
            title,
            metadata[i],
            Packed { size, same: kept },
            Frame {
                header,
                size: whole,
            },
        );
        first = end;
    }
    room::put_part(out, run.next, file, run.from, run.size)
}
