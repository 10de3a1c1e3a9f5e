// A node up to its contents: its three numbers, metadata, unpackers, reference.
#![tactic(auto)]

ghost use Rattle.std.specs.Prelude.{◌≡◌, ◌||◌, eqb, ℕ, ◌≤◌, ◌<◌, ◌+◌, length};
ghost use Rattle.machine.specs.Machine.{run};
ghost use Rattle.cursor.specs.Told.{Readable, pass_told};
ghost use Rattle.metadata.specs.Told.{Room};
ghost use Rattle.node.specs.Node.{header_length, head, value, identifier, unpacker, entries, unpackers, resource, node_place, uri_place, target, reference, rest, row_of};
ghost use Rattle.node.specs.Told.{head_told, CommonTold, unpacker_told, unpackers_told, reference_told, rest_told, front_run, FrontTold};

use cursor::{Cursor, FilePlace, Node, NodePlace};
use metadata::{Made, Scope};
use refusals::{Reason, Refusal};

// The bounds of a node: it ends at or before `end` and not before `least`. A detached one ends at or before `taken`, where another
// begins, and `offset` is the place of the number that leads to it.
#[derive(Clone, Copy)]
pub struct Bounds {
    pub least: FilePlace,
    pub end: FilePlace,
    pub taken: FilePlace,
    pub offset: FilePlace,
    pub detached: u64,
}

// What a node starts with: its length, the number of contained items, its header's length. The two lengths are places counted from the node's first byte:
// its end, and its header's.
#[derive(Clone, Copy)]
pub struct Head {
    pub size: NodePlace,
    pub contained: u64,
    pub header: NodePlace,
}

// Where the unpackers stand, and how many there are.
#[derive(Clone, Copy)]
pub struct Unpackers {
    pub place: FilePlace,
    pub count: usize,
}

// A reference, and what it leads to.
#[derive(Clone, Copy)]
pub struct Reference {
    pub kind: u64,
    pub target: u64,
    pub extent: u64,
}

// A node's row, and the rows made by then, its own not among them.
#[derive(Clone, Copy)]
pub struct Front {
    pub row: Node,
    pub made: Made,
}

// NodeLength, NodeContainedItems and NodeHeaderLength of a node with these bounds.
#[tactic(auto, using(header::proofs::Reading::reading), unfolding(crate::specs::Node::head))]
fn read_head(c: Cursor, file: &[u8], s: Bounds) -> Result<(Head, Cursor), Refusal>
    requires { Readable s.end.0 file.now }
    ensures { head_told result ≡ run (head s) file.now c.at.0 }
{
    let start = c.at;
    let end = s.end;
    let least = s.least;
    let taken = s.taken;
    let offset = s.offset;
    let (length, d) = c.number(file, end, Reason::CutShort)?;
    let size = NodePlace(length as usize);
    let stop = start.of(size);
    if end.0 < stop.0 || stop.0 < least.0 {
        return Err(Refusal(Reason::BadNode, start.0));
    }
    if taken.0 < stop.0 {
        return Err(Refusal(Reason::BadDetached, offset.0));
    }
    let (contained, e) = d.number(file, stop, Reason::CutShort)?;
    if contained != 0 && s.detached != 0 {
        return Err(Refusal(Reason::BadDetached, offset.0));
    }
    read_header_length(e, file, start, size, contained)
}

// NodeHeaderLength of a node that starts at `start`.
#[tactic(auto, using(header::proofs::Reading::reading), unfolding(crate::specs::Node::header_length))]
fn read_header_length(
    c: Cursor,
    file: &[u8],
    start: FilePlace,
    size: NodePlace,
    contained: u64,
) -> Result<(Head, Cursor), Refusal>
    requires { Readable (start.0 + size.0) file.now }
    ensures { head_told result ≡ run (header_length start.0 size.0 contained) file.now c.at.0 }
{
    let place = c.at;
    let (length, d) = c.number(file, start.of(size), Reason::CutShort)?;
    let header = NodePlace(length as usize);
    if size.0 < header.0 || start.of(header).0 < d.at.0 {
        return Err(Refusal(Reason::BadNode, place.0));
    }
    let is = Head {
        size,
        contained,
        header,
    };
    Ok((is, d))
}

// A number whose value is not kept.
#[tactic(auto, using(header::proofs::Reading::reading), unfolding(crate::specs::Node::value))]
fn read_value(c: Cursor, file: &[u8], end: FilePlace) -> Result<Cursor, Refusal>
    requires { end.0 ≤ length file.now }
    ensures { pass_told result ≡ run (value end.0) file.now c.at.0 }
{
    let (_, d) = c.number(file, end, Reason::CutShort)?;
    Ok(d)
}

// What names an unpacker of the kind.
#[tactic(auto, using(header::proofs::Reading::reading), unfolding(crate::specs::Node::identifier))]
fn read_identifier(c: Cursor, file: &[u8], kind: u64, end: FilePlace) -> Result<Cursor, Refusal>
    requires { end.0 ≤ length file.now }
    ensures { pass_told result ≡ run (identifier kind end.0) file.now c.at.0 }
{
    match kind {
        1 => read_value(c.manufacturer(file, end)?, file, end),
        3 => c.guid(file, end),
        _ => read_value(c, file, end),
    }
}

// Whether a number alone names an unpacker of the kind.
fn is_numbered(kind: u64) -> bool
    ensures { result ≡ (eqb kind 0 || eqb kind 2) }
{
    if kind == 0 {
        return true;
    }
    kind == 2
}

// Whether the unpacker here is in the common form: a number names it, and its kind, that number and its decoded size are one byte each.
fn is_common(c: Cursor, file: &[u8], end: FilePlace) -> bool
    requires { (end.0 ≤ length file.now) × (c.at.0 < end.0) }
    ensures { CommonTold result file.now end.0 c.at.0 }
{
    let place = c.at;
    let kind = c.byte(file);
    if !is_numbered(kind.value) {
        return false;
    }
    if end.0 - place.0 < 3 {
        return false;
    }
    let name = kind.next.byte(file);
    if 127 < name.value {
        return false;
    }
    let size = name.next.byte(file);
    if 127 < size.value {
        return false;
    }
    true
}

// An unpacker: its kind, what names it, its decoded size.
#[tactic(auto, using(header::proofs::Reading::reading), unfolding(crate::specs::Node::unpacker))]
fn read_unpacker(c: Cursor, file: &[u8], end: FilePlace) -> Result<Cursor, Refusal>
    requires { Readable end.0 file.now × (c.at.0 < end.0) }
    ensures { (n : ℕ) → unpacker_told result n ≡ run (unpacker end.0 n) file.now c.at.0 }
{
    // To pass one in the common form at once is faster than to read its numbers. What follows is the rule for any unpacker.
    if is_common(c, file, end) {
        return Ok(c.on(3));
    }
    let place = c.at;
    let (kind, d) = c.number(file, end, Reason::CutShort)?;
    if 3 < kind {
        return Err(Refusal(Reason::BadUnpacker, place.0));
    }
    let e = read_identifier(d, file, kind, end)?;
    read_value(e, file, end)
}

// Unpackers end to end up to `end`; they begin at c. Inlined, the loop takes an eighth more instructions on 15,000 manufacturers (docs/LOOK-BACK.md).
#[inline(never)]
fn read_entries(c: Cursor, file: &[u8], end: FilePlace) -> Result<(Unpackers, Cursor), Refusal>
    requires { Readable end.0 file.now }
    ensures { unpackers_told result ≡ run (entries end.0) file.now c.at.0 }
{
    let place = c.at;
    let stop = end.0;
    let mut next = c;
    let mut at = place.0;
    let mut count: usize = 0;
    while at < stop {
        next = read_unpacker(next, file, end)?;
        at = next.at.0;
        count = count + 1;
    }
    Ok((Unpackers { place, count }, next))
}

// The unpackers of a node whose header ends at `end`.
#[tactic(auto, using(header::proofs::Reading::reading), unfolding(crate::specs::Node::unpackers))]
fn read_unpackers(
    c: Cursor,
    file: &[u8],
    contained: u64,
    end: FilePlace,
) -> Result<(Unpackers, Cursor), Refusal>
    requires { Readable end.0 file.now }
    ensures { unpackers_told result ≡ run (unpackers contained end.0) file.now c.at.0 }
{
    let (size, d) = c.block(file, end, Reason::BadNode)?;
    // Most nodes have no unpackers. To answer here is faster than a loop that reads none.
    if size == 0 {
        let first = d.at;
        let none = Unpackers {
            place: first,
            count: 0,
        };
        return Ok((none, d));
    }
    if contained != 0 {
        return Err(Refusal(Reason::BadFolder, c.at.0));
    }
    let after = d.on(size);
    let stop = after.at;
    read_entries(d, file, stop)
}

// Reference 2: a place of the file at or after the header's end; its extent runs to the file's end.
#[tactic(auto, using(header::proofs::Reading::reading), unfolding(crate::specs::Node::resource))]
fn read_resource(
    c: Cursor,
    file: &[u8],
    header_end: FilePlace,
    end: FilePlace,
) -> Result<(Reference, Cursor), Refusal>
    requires { end.0 ≤ length file.now }
    ensures { reference_told result ≡ run (resource header_end.0 (length file.now) end.0) file.now c.at.0 }
{
    let place = c.at;
    let (offset, d) = c.number(file, end, Reason::CutShort)?;
    let size = file.len();
    if (offset as usize) < header_end.0 || size < offset as usize {
        return Err(Refusal(Reason::BadTarget, place.0));
    }
    let is = Reference {
        kind: 2,
        target: offset,
        extent: (size - offset as usize) as u64,
    };
    Ok((is, d))
}

// Reference 3: the place of a node's first byte.
#[tactic(auto, using(header::proofs::Reading::reading), unfolding(crate::specs::Node::node_place))]
fn read_node_place(c: Cursor, file: &[u8], end: FilePlace) -> Result<(Reference, Cursor), Refusal>
    requires { end.0 ≤ length file.now }
    ensures { reference_told result ≡ run (node_place end.0) file.now c.at.0 }
{
    let (offset, d) = c.number(file, end, Reason::CutShort)?;
    let is = Reference {
        kind: 3,
        target: offset,
        extent: 0,
    };
    Ok((is, d))
}

// Reference 4: an XString with a URI.
#[tactic(auto, using(header::proofs::Reading::reading), unfolding(crate::specs::Node::uri_place))]
fn read_uri(c: Cursor, file: &[u8], end: FilePlace) -> Result<(Reference, Cursor), Refusal>
    requires { Readable end.0 file.now }
    ensures { reference_told result ≡ run (uri_place end.0) file.now c.at.0 }
{
    let (size, d) = c.block(file, end, Reason::CutShort)?;
    let place = d.at;
    let is = Reference {
        kind: 4,
        target: place.0 as u64,
        extent: size,
    };
    Ok((is, d.on(size)))
}

// What a reference other than 1 leads to, in a node that ends at `end`.
#[tactic(auto, using(header::proofs::Reading::reading), unfolding(crate::specs::Node::target))]
fn read_target(
    c: Cursor,
    file: &[u8],
    header_end: FilePlace,
    kind: u64,
    end: FilePlace,
) -> Result<(Reference, Cursor), Refusal>
    requires { Readable end.0 file.now × (1 < kind) }
    ensures { reference_told result ≡ run (target header_end.0 (length file.now) kind end.0) file.now c.at.0 }
{
    match kind {
        2 => read_resource(c, file, header_end, end),
        3 => read_node_place(c, file, end),
        _ => read_uri(c, file, end),
    }
}

// ReferenceTypeID and what it leads to; a folder uses reference 1.
#[tactic(auto, using(header::proofs::Reading::reading), unfolding(crate::specs::Node::reference))]
fn read_reference(
    c: Cursor,
    file: &[u8],
    header_end: FilePlace,
    contained: u64,
    end: FilePlace,
) -> Result<(Reference, Cursor), Refusal>
    requires { Readable end.0 file.now }
    ensures { reference_told result ≡ run (reference header_end.0 (length file.now) contained end.0) file.now c.at.0 }
{
    let place = c.at;
    let (kind, d) = c.number(file, end, Reason::CutShort)?;
    // Most nodes use reference 1, so it is asked for first: the contents follow, to the node's end.
    if kind == 1 {
        let here = d.at;
        let extent = end.0 - here.0;
        let is = Reference {
            kind,
            target: here.0 as u64,
            extent: extent as u64,
        };
        return Ok((is, d));
    }
    if kind == 0 || 4 < kind {
        return Err(Refusal(Reason::BadReference, place.0));
    }
    if contained != 0 {
        return Err(Refusal(Reason::BadFolder, place.0));
    }
    read_target(d, file, header_end, kind, end)
}

// The unpackers, which end where the header does, and the reference.
#[tactic(auto, using(header::proofs::Reading::reading), unfolding(crate::specs::Node::rest))]
fn read_rest(
    c: Cursor,
    file: &[u8],
    header_end: FilePlace,
    contained: u64,
    inner: FilePlace,
    stop: FilePlace,
) -> Result<(Unpackers, Reference, Cursor), Refusal>
    requires { Readable inner.0 file.now × Readable stop.0 file.now }
    ensures { rest_told result ≡ run (rest header_end.0 (length file.now) contained inner.0 stop.0) file.now c.at.0 }
{
    let (u, d) = read_unpackers(c, file, contained, inner)?;
    let place = d.at;
    if place.0 < inner.0 {
        return Err(Refusal(Reason::BytesLeft, place.0));
    }
    let (r, e) = read_reference(d, file, header_end, contained, stop)?;
    Ok((u, r, e))
}

// A node's row.
fn row_of(
    start: FilePlace,
    h: Head,
    parent: usize,
    depth: usize,
    detached: u64,
    r: Reference,
    u: Unpackers,
    rows: usize,
) -> Node
    ensures { result ≡ row_of start.0 h parent depth detached r u rows }
{
    let size = h.size;
    let header = h.header;
    let place = u.place;
    Node {
        start: start.0 as u64,
        size: size.0 as u64,
        header: header.0 as u64,
        contained: h.contained,
        parent: parent as u64,
        depth: depth as u64,
        reference: r.kind,
        target: r.target,
        extent: r.extent,
        unpackers: place.0 as u64,
        unpacker_count: u.count as u64,
        rows: rows as u64,
        detached,
    }
}

// A node up to its contents. After a refusal nothing is said of the item table, which may hold some of the rows: `file::read_file` clears it then.
pub fn read_front(
    c: Cursor,
    file: &[u8],
    types: &[u64],
    items: &mut [u64],
    scope: Scope,
    parent: usize,
    depth: usize,
    s: Bounds,
    made: Made,
) -> Result<(Front, Cursor), Refusal>
    requires { Room scope file.now types.now items.old s.end.0 made }
    ensures { FrontTold (front_run scope types.now file.now parent depth s made c.at.0) made scope.limits result items.old items.new }
{
    let start = c.at;
    let (h, d) = read_head(c, file, s)?;
    let inner = start.of(h.header);
    let (rows, e) = metadata::read_metadata(
        d, file, types, items, scope, made.nodes, inner, made.items,
    )?;
    let stop = start.of(h.size);
    let header_end = scope.header_end;
    let (u, r, g) = read_rest(e, file, header_end, h.contained, inner, stop)?;
    let row = row_of(start, h, parent, depth, s.detached, r, u, rows - made.items);
    let m = Made {
        nodes: made.nodes,
        items: rows,
    };
    Ok((Front { row, made: m }, g))
}
