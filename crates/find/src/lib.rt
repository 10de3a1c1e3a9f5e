// The two kinds of find: an item row of a field on a node itself, or the nearest one, climbing from the node to the root.
#![tactic(auto)]

ghost use Rattle.std.specs.Prelude.{◌≡◌, ◌≤◌, ◌<◌, ◌*◌, ◌+◌, length};
ghost use Rattle.rows.specs.Rows.{node_width, nodes_in, items_in, ItemIn, ItemRows};
ghost use Rattle.file.specs.Asking.{answered, nodes_left, items_left};
ghost use Rattle.file.specs.Own.{numbered, part, first_row, Tables};
ghost use Rattle.find.specs.Find.{standard, custom, matches, among, nearest, find, find_own};
ghost use Rattle.find.specs.Told.{wanted_of, told, found_by, question};

use cursor::Item;
use refusals::{Reason, Refusal};

// The field that is looked for: a standard number, or the custom name that is lent beside it.
#[derive(Clone, Copy)]
pub enum Field {
    Standard(u64),
    Custom,
}

// Whether the row is of that custom name. An empty name is never found.
#[tactic(auto, using(crate::proofs::Matching::compared), unfolding(crate::specs::Find::matches))]
fn is_named(file: &[u8], row: Item, name: &[u8]) -> bool
    requires { ItemIn (length file.now) row }
    ensures { result ≡ matches file.now (custom name.now) row }
{
    let at = row.field as usize;
    let size = name.len();
    0 < size && row.kind == 1 && row.name_length == size as u64 && &file[at..at + size] == name
}

// Whether the row is of that field.
#[tactic(auto, unfolding(crate::specs::Find::matches))]
fn is_wanted(file: &[u8], row: Item, field: Field, name: &[u8]) -> bool
    requires { ItemIn (length file.now) row }
    ensures { result ≡ matches file.now (wanted_of field name.now) row }
{
    match field {
        Field::Custom => is_named(file, row, name),
        Field::Standard(number) => row.kind == 0 && row.field == number,
    }
}

// The first row of that field among the item rows from `first` on and before `end`, as its number in the item table and its ten words.
#[tactic(auto, using(crate::proofs::Looking::row_found, crate::proofs::Looking::row_other, crate::proofs::Looking::row_none))]
fn look(
    file: &[u8],
    items: &[u64],
    m: usize,
    first: usize,
    end: usize,
    field: Field,
    name: &[u8],
) -> Result<(usize, Item), Refusal>
    requires { ItemRows (length file.now) m items.now × (end ≤ m) }
    ensures { told result ≡ among file.now (wanted_of field name.now) (numbered first (part (items_in m items.now) first end)) }
{
    for i in first..end {
        let row = rows::item_at(items, i);
        if is_wanted(file, row, field, name) {
            return Ok((i, row));
        }
    }
    Err(Refusal(Reason::NoSuchItem, 0))
}

// The item row behind node k's own rows, where those of node `from`, which is later, begin at `first`. Goes back over the node rows between the two.
#[tactic(auto, using(crate::proofs::Climbing::back_rows, crate::proofs::Climbing::back_one))]
fn rows_end(nodes: &[u64], n: usize, from: usize, first: usize, k: usize) -> usize
    requires { (n * node_width ≤ length nodes.now) × (k < from) × (from ≤ n) × (first ≡ first_row (nodes_in n nodes.now) from) }
    ensures { result ≡ first_row (nodes_in n nodes.now) (k + 1) }
{
    let mut end = first;
    for i in (k + 1..from).rev() {
        let row = rows::node_at(nodes, i);
        end = end - row.rows as usize;
    }
    end
}

// The nearest row of that field: the look at node k, whose own item rows end before row `end`, or else at its parent, whose row is smaller, and so on to the
// root. In all each node row is passed once.
fn climb(
    file: &[u8],
    nodes: &[u64],
    items: &[u64],
    n: usize,
    m: usize,
    k: usize,
    end: usize,
    field: Field,
    name: &[u8],
) -> Result<(usize, Item), Refusal>
    requires { Tables file.now nodes.now items.now n m × (k < n) × (end ≡ first_row (nodes_in n nodes.now) (k + 1)) }
    ensures { told result ≡ nearest file.now (wanted_of field name.now) (nodes_in n nodes.now) (items_in m items.now) k }
{
    let row = rows::node_at(nodes, k);
    let first = end - row.rows as usize;
    match look(file, items, m, first, end, field, name) {
        Ok(found) => Ok(found),
        Err(_) => {
            let parent = row.parent as usize;
            if k <= parent {
                return Err(Refusal(Reason::NoSuchItem, 0));
            }
            let before = rows_end(nodes, n, k, first, parent);
            climb(file, nodes, items, n, m, parent, before, field, name)
        }
    }
}

// What is found from node k: the nearest row of that field, or its own.
#[tactic(auto, using(crate::proofs::Climbing::looks))]
fn found_by(
    file: &[u8],
    nodes: &[u64],
    items: &[u64],
    n: usize,
    m: usize,
    k: usize,
    field: Field,
    name: &[u8],
    climbs: bool,
) -> Result<(usize, Item), Refusal>
    requires { Tables file.now nodes.now items.now n m × (k < n) }
    ensures { told result ≡ found_by climbs file.now (wanted_of field name.now) (nodes_in n nodes.now) (items_in m items.now) k }
{
    let end = rows_end(nodes, n, n, m, k);
    if climbs {
        return climb(file, nodes, items, n, m, k, end, field, name);
    }
    let row = rows::node_at(nodes, k);
    look(file, items, m, end - row.rows as usize, end, field, name)
}

// Reads the file and finds from the row.
fn find_field(
    file: &[u8],
    nodes: &mut [u64],
    items: &mut [u64],
    row: usize,
    field: Field,
    name: &[u8],
    climbs: bool,
) -> Result<(usize, Item), Refusal>
    ensures answer { told result ≡ answered nodes.old items.old file.now (question climbs (wanted_of field name.now) row) }
    ensures nodes { nodes.new ≡ nodes_left nodes.old items.old file.now (question climbs (wanted_of field name.now) row) }
    ensures items { items.new ≡ items_left nodes.old items.old file.now (question climbs (wanted_of field name.now) row) }
{
    let s = file::read_file(file, nodes, items)?;
    if s.nodes <= row {
        rows::clear_all(nodes, items);
        return Err(Refusal(Reason::NoSuchRow, 0));
    }
    match found_by(
        file, nodes, items, s.nodes, s.items, row, field, name, climbs,
    ) {
        Ok(found) => Ok(found),
        Err(r) => {
            rows::clear_all(nodes, items);
            Err(r)
        }
    }
}

// The nearest item row of a standard field.
pub fn find_standard(
    file: &[u8],
    nodes: &mut [u64],
    items: &mut [u64],
    row: usize,
    number: u64,
) -> Result<(usize, Item), Refusal>
    ensures answer { told result ≡ answered nodes.old items.old file.now (find (standard number) row) }
    ensures nodes { nodes.new ≡ nodes_left nodes.old items.old file.now (find (standard number) row) }
    ensures items { items.new ≡ items_left nodes.old items.old file.now (find (standard number) row) }
{
    find_field(file, nodes, items, row, Field::Standard(number), b"", true)
}

// The nearest item row of a custom field, whose name is lent.
pub fn find_custom(
    file: &[u8],
    nodes: &mut [u64],
    items: &mut [u64],
    row: usize,
    name: &[u8],
) -> Result<(usize, Item), Refusal>
    ensures answer { told result ≡ answered nodes.old items.old file.now (find (custom name.now) row) }
    ensures nodes { nodes.new ≡ nodes_left nodes.old items.old file.now (find (custom name.now) row) }
    ensures items { items.new ≡ items_left nodes.old items.old file.now (find (custom name.now) row) }
{
    find_field(file, nodes, items, row, Field::Custom, name, true)
}

// A node's own item row of a standard field.
pub fn find_own_standard(
    file: &[u8],
    nodes: &mut [u64],
    items: &mut [u64],
    row: usize,
    number: u64,
) -> Result<(usize, Item), Refusal>
    ensures answer { told result ≡ answered nodes.old items.old file.now (find_own (standard number) row) }
    ensures nodes { nodes.new ≡ nodes_left nodes.old items.old file.now (find_own (standard number) row) }
    ensures items { items.new ≡ items_left nodes.old items.old file.now (find_own (standard number) row) }
{
    find_field(file, nodes, items, row, Field::Standard(number), b"", false)
}

// A node's own item row of a custom field, whose name is lent.
pub fn find_own_custom(
    file: &[u8],
    nodes: &mut [u64],
    items: &mut [u64],
    row: usize,
    name: &[u8],
) -> Result<(usize, Item), Refusal>
    ensures answer { told result ≡ answered nodes.old items.old file.now (find_own (custom name.now) row) }
    ensures nodes { nodes.new ≡ nodes_left nodes.old items.old file.now (find_own (custom name.now) row) }
    ensures items { items.new ≡ items_left nodes.old items.old file.now (find_own (custom name.now) row) }
{
    find_field(file, nodes, items, row, Field::Custom, name, false)
}
