// Where a reference 3 leads: what lies outside header and tree, and what the detached nodes take that were read.
#![tactic(auto)]

ghost use Rattle.std.specs.Prelude.{◌≡◌, ◌⊎◌, ◌≤◌, ◌<◌, ◌^◌, ◌*◌, ◌+◌, min, max, length};
ghost use Rattle.header.specs.Told.{extent_of};
ghost use Rattle.header.specs.Header as spec;
ghost use Rattle.rows.specs.Rows.{node_width, node_at, nodes_in};
ghost use Rattle.targets.specs.Targets.{offset_at, outside, part_end};
ghost use Rattle.targets.specs.Told.{taken_by_rows, EndLow, Attached, HeaderIn, Spans};

use cursor::{Cursor, FilePlace, NodePlace};
use header::Extent;
use refusals::{Reason, Refusal};

// Where the detached nodes lie that were read: `first` is the first byte that one of them has, or the file's end, and all end at or before `beyond`.
#[derive(Clone, Copy)]
pub struct Span {
    pub first: FilePlace,
    pub beyond: FilePlace,
}

pub fn lesser(a: usize, b: usize) -> usize
    ensures { result ≡ min a b }
{
    if a <= b { a } else { b }
}

fn greater(a: usize, b: usize) -> usize
    ensures { result ≡ max a b }
{
    if a <= b { b } else { a }
}

// The first byte from `place` on that a detached node has, by the rows; `end` if none before that. No row before row `tree` is detached.
pub fn first_taken(
    nodes: &[u64],
    tree: usize,
    count: usize,
    place: FilePlace,
    end: FilePlace,
) -> FilePlace
    requires { (tree ≤ count) × (count * node_width ≤ length nodes.now) × EndLow count nodes.now × Attached tree count nodes.now }
    ensures { result.0 ≡ taken_by_rows (nodes_in count nodes.now) place.0 end.0 }
{
    let mut i = count;
    let mut taken = end.0;
    while tree < i {
        i = i - 1;
        let row = rows::node_at(nodes, i);
        if row.detached == 1 {
            if place.0 < (row.start + row.size) as usize {
                taken = lesser(greater(place.0, row.start as usize), taken);
            }
        }
    }
    FilePlace(taken)
}

// Whether the place lies in a file of `size` bytes, outside header and tree.
pub fn is_outside(extent: Extent, size: usize, place: FilePlace) -> bool
    ensures { (h : spec.Header) → h.extent ≡ extent_of extent → result ≡ outside h size place.0 }
{
    let end = extent.end;
    let start = extent.start;
    let last = extent.last;
    if place.0 < end.0 {
        return false;
    }
    if size <= place.0 {
        return false;
    }
    if place.0 < start.0 {
        return true;
    }
    last.0 < place.0
}

// The end of the part that the place lies in.
pub fn part_end(extent: Extent, size: usize, place: FilePlace) -> FilePlace
    ensures { (h : spec.Header) → h.extent ≡ extent_of extent → result.0 ≡ part_end h size place.0 }
{
    let start = extent.start;
    if place.0 < start.0 {
        return start;
    }
    FilePlace(size)
}

// The place of row i's offset, found again from its header.
pub fn offset_at(file: &[u8], nodes: &[u64], count: usize, i: usize) -> FilePlace
    requires { (i < count) × (count * node_width ≤ length nodes.now) × HeaderIn (length file.now) count nodes.now i × (length file.now < 2 ^ 28) }
    ensures { result.0 ≡ offset_at file.now (node_at (nodes_in count nodes.now) i) }
{
    let row = rows::node_at(nodes, i);
    let start = FilePlace(row.start as usize);
    let at = start.of(NodePlace(row.header as usize));
    match (Cursor { at }).number(file, FilePlace(file.len()), Reason::CutShort) {
        Ok((_, next)) => next.at,
        Err(Refusal(_, place)) => FilePlace(place),
    }
}

// How many rows are asked about a place: where it lies before all detached nodes or behind them, the tree's alone.
pub fn rows_asked(tree: usize, count: usize, place: FilePlace, span: Span) -> usize
    requires { tree ≤ count }
    ensures { (tree ≤ result) × (result ≤ count) × (result < count → (span.beyond.0 ≤ place.0) ⊎ (place.0 < span.first.0)) }
{
    let first = span.first;
    let beyond = span.beyond;
    if beyond.0 <= place.0 {
        return tree;
    }
    if place.0 < first.0 {
        return tree;
    }
    count
}

// `end`, or for a place before all detached nodes the first byte that one of them has, if that comes sooner.
pub fn end_asked(place: FilePlace, end: FilePlace, span: Span) -> FilePlace
    ensures { (place.0 < span.first.0 → result.0 ≡ min span.first.0 end.0) × (span.first.0 ≤ place.0 → result.0 ≡ end.0) }
{
    let first = span.first;
    if place.0 < first.0 {
        return FilePlace(lesser(first.0, end.0));
    }
    end
}

// The span with the node of row `known`, if there are more rows than `known`.
pub fn with_row(nodes: &[u64], known: usize, count: usize, span: Span) -> Span
    requires { (count * node_width ≤ length nodes.now) × EndLow count nodes.now }
    ensures { (count ≤ known → result ≡ span) × (known < count → Spans (node_at (nodes_in count nodes.now) known) span result) }
{
    if count <= known {
        return span;
    }
    let row = rows::node_at(nodes, known);
    let first = span.first;
    let beyond = span.beyond;
    Span {
        first: FilePlace(lesser(row.start as usize, first.0)),
        beyond: FilePlace(greater(beyond.0, (row.start + row.size) as usize)),
    }
}
