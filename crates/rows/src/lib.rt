// Node and item rows as words of a table: stored, read back, and found by where they start.
#![tactic(auto)]

ghost use Rattle.std.specs.Prelude.{◌≡◌, ◌≤◌, ◌*◌, ◌+◌, length, replicate};
ghost use Rattle.std.proofs.lemmas.List.Edits.{sets};
ghost use Rattle.rows.specs.Rows.{node_width, item_width, node_words, item_words, node_from, item_from, nodes_in, row_starting, Rising};

use cursor::{FilePlace, Item, Node};

// Stores a node row behind the `made` rows that are there.
pub fn put_node(nodes: &mut [u64], made: usize, row: Node)
    requires { made * node_width + node_width ≤ length nodes.old }
    ensures { nodes.new ≡ sets nodes.old (made * node_width) (node_words row) }
{
    let words = [
        row.start,
        row.size,
        row.header,
        row.contained,
        row.parent,
        row.depth,
        row.reference,
        row.target,
        row.extent,
        row.unpackers,
        row.unpacker_count,
        row.rows,
        row.detached,
    ];
    room::store(nodes, made * cursor::NODE_WIDTH, &words);
}

// Stores an item row behind the `made` rows that are there.
pub fn put_item(items: &mut [u64], made: usize, row: Item)
    requires { made * item_width + item_width ≤ length items.old }
    ensures { items.new ≡ sets items.old (made * item_width) (item_words row) }
{
    let words = [
        row.node,
        row.item,
        row.kind,
        row.field,
        row.name_length,
        row.version,
        row.declared,
        row.format,
        row.place,
        row.size,
    ];
    room::store(items, made * cursor::ITEM_WIDTH, &words);
}

// Row i of the node table.
pub fn node_at(nodes: &[u64], i: usize) -> Node
    requires { i * node_width + node_width ≤ length nodes.now }
    ensures { result ≡ node_from nodes.now (i * node_width) }
{
    let k = i * cursor::NODE_WIDTH;
    Node {
        start: nodes[k],
        size: nodes[k + 1],
        header: nodes[k + 2],
        contained: nodes[k + 3],
        parent: nodes[k + 4],
        depth: nodes[k + 5],
        reference: nodes[k + 6],
        target: nodes[k + 7],
        extent: nodes[k + 8],
        unpackers: nodes[k + 9],
        unpacker_count: nodes[k + 10],
        rows: nodes[k + 11],
        detached: nodes[k + 12],
    }
}

// Row i of the item table.
pub fn item_at(items: &[u64], i: usize) -> Item
    requires { i * item_width + item_width ≤ length items.now }
    ensures { result ≡ item_from items.now (i * item_width) }
{
    let k = i * cursor::ITEM_WIDTH;
    Item {
        node: items[k],
        item: items[k + 1],
        kind: items[k + 2],
        field: items[k + 3],
        name_length: items[k + 4],
        version: items[k + 5],
        declared: items[k + 6],
        format: items[k + 7],
        place: items[k + 8],
        size: items[k + 9],
    }
}

// Sets every word of both tables to 0.
pub fn clear_all(nodes: &mut [u64], items: &mut [u64])
    ensures nodes { nodes.new ≡ replicate (length nodes.old) 0 }
    ensures items { items.new ≡ replicate (length items.old) 0 }
{
    nodes.fill(0);
    items.fill(0);
}

// The row that starts at the place; `count` if none does. The starts of the first `tree` rows rise.
pub fn row_starting(nodes: &[u64], tree: usize, count: usize, place: FilePlace) -> usize
    requires { (tree ≤ count) × (count * node_width ≤ length nodes.now) × Rising (nodes_in tree nodes.now) }
    ensures { result ≡ row_starting (nodes_in count nodes.now) place.0 }
{
    let mut low: usize = 0;
    let mut high = tree;
    while low < high {
        let middle = low + (high - low) / 2;
        let start = node_at(nodes, middle).start as usize;
        if start == place.0 {
            return middle;
        }
        if start < place.0 {
            low = middle + 1;
        } else {
            high = middle;
        }
    }
    for i in tree..count {
        if node_at(nodes, i).start as usize == place.0 {
            return i;
        }
    }
    count
}
