// Resolves the resource of a node: follows references and gives its place, or the resource itself, as a part of the file or copied into a buffer.
#![tactic(auto)]

ghost use Rattle.std.specs.Prelude.{◌≡◌, ◌≤◌, ◌<◌, ◌*◌, ◌+◌, length};
ghost use Rattle.rows.specs.Rows.{node_width, nodes_in, Rising};
ghost use Rattle.file.specs.Asking.{answered, nodes_left, items_left};
ghost use Rattle.resolve.specs.Resolve.{chain, resolve_row, resolve, copy_into, copy_left};
ghost use Rattle.resolve.specs.Told.{told, Given, Linked};

use cursor::FilePlace;
use refusals::{Reason, Refusal};

// The references that are followed at most.
pub const MOST_HOPS: u64 = 4;

// Where a resource is: its place and length, the row whose unpackers apply, the number of references followed.
#[derive(Clone, Copy)]
pub struct Resolved {
    pub place: FilePlace,
    pub size: usize,
    pub last: usize,
    pub hops: u64,
}

// Follows references from row k on, where `hops` were followed and `left` more may be. The first `tree` of the rows are the tree's.
fn follow(
    nodes: &[u64],
    tree: usize,
    count: usize,
    left: u64,
    k: usize,
    hops: u64,
) -> Result<Resolved, Refusal>
    requires { (count * node_width ≤ length nodes.now) × (k < count) × (hops + left ≤ 4) × Linked (nodes_in count nodes.now) × (tree ≤ count) × Rising (nodes_in tree nodes.now) }
    ensures { told result ≡ chain left (nodes_in count nodes.now) k hops }
{
    let row = rows::node_at(nodes, k);
    if row.contained != 0 {
        return Err(Refusal(Reason::EndsAtFolder, 0));
    }
    let place = FilePlace(row.target as usize);
    if row.reference == 1 {
        return Ok(Resolved {
            place,
            size: row.extent as usize,
            last: k,
            hops,
        });
    }
    if row.reference == 2 {
        if left == 0 {
            return Err(Refusal(Reason::TooManyHops, 0));
        }
        return Ok(Resolved {
            place,
            size: row.extent as usize,
            last: k,
            hops: hops + 1,
        });
    }
    if row.reference != 3 {
        return Err(Refusal(Reason::EndsAtUri, 0));
    }
    if left == 0 {
        return Err(Refusal(Reason::TooManyHops, 0));
    }
    let next = rows::row_starting(nodes, tree, count, place);
    follow(nodes, tree, count, left - 1, next, hops + 1)
}

// The answer for a row of an accepted file.
#[tactic(auto, using(crate::proofs::Chain::row_none, crate::proofs::Chain::row_there))]
fn resolve_row(nodes: &[u64], tree: usize, count: usize, row: usize) -> Result<Resolved, Refusal>
    requires { (count * node_width ≤ length nodes.now) × Linked (nodes_in count nodes.now) × (tree ≤ count) × Rising (nodes_in tree nodes.now) }
    ensures { told result ≡ resolve_row row (nodes_in count nodes.now) }
{
    if count <= row {
        return Err(Refusal(Reason::NoSuchRow, 0));
    }
    follow(nodes, tree, count, MOST_HOPS, row, 0)
}

// The third question: where the resource of a row is.
pub fn resolve(
    file: &[u8],
    nodes: &mut [u64],
    items: &mut [u64],
    row: usize,
) -> Result<Resolved, Refusal>
    ensures answer { told result ≡ answered nodes.old items.old file.now (resolve row) }
    ensures nodes { nodes.new ≡ nodes_left nodes.old items.old file.now (resolve row) }
    ensures items { items.new ≡ items_left nodes.old items.old file.now (resolve row) }
{
    let s = file::read_file(file, nodes, items)?;
    match resolve_row(nodes, s.tree, s.nodes, row) {
        Err(r) => {
            rows::clear_all(nodes, items);
            Err(r)
        }
        Ok(found) => Ok(found),
    }
}

// The resource of a row itself, as that part of the file; an empty part on a refusal.
pub fn resource<'a>(file: &'a [u8], nodes: &mut [u64], items: &mut [u64], row: usize) -> &'a [u8]
    ensures { Given row nodes.old items.old file.now result.now nodes.new items.new }
{
    match resolve(file, nodes, items, row) {
        Err(_) => &file[0..0],
        Ok(found) => {
            let at = found.place.0;
            &file[at..at + found.size]
        }
    }
}

// Where the resource of a row is, and its bytes in a buffer, with zeros behind them; zeros alone on a refusal.
pub fn copy_resource(
    file: &[u8],
    nodes: &mut [u64],
    items: &mut [u64],
    row: usize,
    out: &mut [u8],
) -> Result<Resolved, Refusal>
    ensures answer { told result ≡ answered nodes.old items.old file.now (copy_into row (length out.old)) }
    ensures nodes { nodes.new ≡ nodes_left nodes.old items.old file.now (copy_into row (length out.old)) }
    ensures items { items.new ≡ items_left nodes.old items.old file.now (copy_into row (length out.old)) }
    ensures out { out.new ≡ copy_left out.old nodes.old items.old file.now row }
{
    match resolve(file, nodes, items, row) {
        Err(r) => {
            out.fill(0);
            Err(r)
        }
        Ok(found) => {
            let size = found.size;
            if out.len() < size {
                rows::clear_all(nodes, items);
                out.fill(0);
                return Err(Refusal(Reason::NoRoom, 0));
            }
            let at = found.place.0;
            room::store(out, 0, &file[at..at + size]);
            room::fill_from(out, size, 0);
            Ok(found)
        }
    }
}
