// Reads a file into two lent tables, one of node rows and one of item rows: its tree, and the nodes that references 3 lead to.
#![tactic(auto)]

ghost use Rattle.std.specs.Prelude.{◌≡◌, ◌≤◌, ◌<◌, ◌^◌, ◌*◌, ◌+◌, length};
ghost use Rattle.header.specs.Told.{header_of};
ghost use Rattle.rows.specs.Rows.{nodes_of, node_at};
ghost use Rattle.metadata.specs.Tables.{limits};
ghost use Rattle.metadata.specs.Told.{Gives};
ghost use Rattle.refusals.specs.Told.{told};
ghost use Rattle.file.specs.Reading.{good, follow_row, follow, read_of, answer_of};
ghost use Rattle.file.specs.Asking.{reads, reads_behind, nodes_read, items_read, nodes_behind, items_behind};
ghost use Rattle.file.specs.Told.{Lent, tree_run, Stand, CanFollow, Follows};

use cursor::{Cursor, FilePlace};
use header::{Edition, Header};
use metadata::{Limits, Made, Scope};
use node::Bounds;
use refusals::{Reason, Refusal};
use targets::Span;

// What is kept of an accepted file besides its rows: where its header ends, how many rows there are, and how many of the node rows are the tree's.
#[derive(Clone, Copy)]
pub struct Summary {
    pub version: u64,
    pub edition: Edition,
    pub header_end: FilePlace,
    pub tree: usize,
    pub nodes: usize,
    pub items: usize,
}

// The first question's answer: version (100, 101, 200), number of node rows, number of item rows.
#[derive(Clone, Copy)]
pub struct Tree {
    pub version: u64,
    pub nodes: usize,
    pub items: usize,
}

// How many rows tables of `nodes` and `items` words hold.
fn room_of(nodes: usize, items: usize) -> Limits
    ensures { result ≡ limits nodes items }
{
    Limits {
        nodes: cursor::MOST_NODES.min(nodes / cursor::NODE_WIDTH),
        items: cursor::MOST_ITEMS.min(items / cursor::ITEM_WIDTH),
    }
}

// The tree of a file whose header is h, into tables with room for the rows of `lim`.
fn read_root(
    file: &[u8],
    types: &[u64],
    nodes: &mut [u64],
    items: &mut [u64],
    h: Header,
    lim: Limits,
) -> Result<(Made, Cursor), Refusal>
    requires { Lent h lim file.now types.now nodes.old items.old }
    ensures { Gives lim result nodes.new items.new (tree_run h lim types.now file.now nodes.old items.old) }
{
    let scope = Scope {
        limits: lim,
        types: h.types,
        header_end: h.extent.end,
    };
    let none = Made { nodes: 0, items: 0 };
    let end = FilePlace(h.extent.last.0 + 1);
    let s = Bounds {
        least: end,
        end,
        taken: end,
        offset: FilePlace(0),
        detached: 0,
    };
    tree::read_children(
        Cursor { at: h.extent.start },
        file,
        types,
        nodes,
        items,
        scope,
        cursor::MOST_DEPTH,
        0,
        s,
        1,
        none,
    )
}

// Follows row i: reads the node that it refers to, if that one has no row yet. `span` says where the detached nodes lie.
fn follow_row(
    file: &[u8],
    types: &[u64],
    nodes: &mut [u64],
    items: &mut [u64],
    h: Header,
    lim: Limits,
    tree: usize,
    i: usize,
    made: Made,
    span: Span,
) -> Result<(Made, Cursor), Refusal>
    requires { CanFollow h lim file.now types.now nodes.old items.old tree i made span }
    ensures { Follows lim file.now tree made nodes.old items.old nodes.new items.new result
        (λ log. follow_row lim file.now (header_of h types.now) log (node_at (nodes_of log) i)) }
{
    let here = Cursor { at: FilePlace(0) };
    let row = rows::node_at(nodes, i);
    if row.reference != 3 {
        return Ok((made, here));
    }
    let to = FilePlace(row.target as usize);
    let asked = targets::rows_asked(tree, made.nodes, to, span);
    if rows::row_starting(nodes, tree, asked, to) < asked {
        return Ok((made, here));
    }
    let offset = targets::offset_at(file, nodes, made.nodes, i);
    let extent = h.extent;
    if targets::is_outside(extent, file.len(), to) {
        let end = targets::part_end(extent, file.len(), to);
        let taken = targets::first_taken(nodes, tree, asked, to, targets::end_asked(to, end, span));
        let scope = Scope {
            limits: lim,
            types: h.types,
            header_end: extent.end,
        };
        let s = Bounds {
            least: FilePlace(0),
            end,
            taken,
            offset,
            detached: 1,
        };
        let levels = cursor::MOST_DEPTH + 1;
        return tree::read_children(
            Cursor { at: to },
            file,
            types,
            nodes,
            items,
            scope,
            levels,
            made.nodes,
            s,
            1,
            made,
        );
    }
    Err(Refusal(Reason::BadTarget, offset.0))
}

// Follows the rows from the first on, in row order, over the growing table.
fn follow_all(
    file: &[u8],
    types: &[u64],
    nodes: &mut [u64],
    items: &mut [u64],
    h: Header,
    lim: Limits,
    made: Made,
) -> Result<(Made, Cursor), Refusal>
    requires { Lent h lim file.now types.now nodes.old items.old × Stand lim (length file.now) made.nodes nodes.old items.old made }
    ensures { Follows lim file.now made.nodes made nodes.old items.old nodes.new items.new result
        (λ log. follow lim.nodes lim file.now (header_of h types.now) 0 (good log)) }
{
    let mut m = made;
    let mut i = 0;
    // A place before or behind all detached nodes that were read is not looked for among them. In a chain, most lead to such a place.
    let mut span = Span {
        first: FilePlace(file.len()),
        beyond: FilePlace(0),
    };
    while i < m.nodes {
        let (n, _) = follow_row(file, types, nodes, items, h, lim, made.nodes, i, m, span)?;
        span = targets::with_row(nodes, m.nodes, n.nodes, span);
        m = n;
        i = i + 1;
    }
    Ok((m, Cursor { at: FilePlace(0) }))
}

// Reads what follows the header h into the two tables: the tree, and what is referred to from there.
pub fn read_behind(
    file: &[u8],
    types: &[u64],
    nodes: &mut [u64],
    items: &mut [u64],
    h: Header,
) -> Result<Summary, Refusal>
    requires { (h.extent.start.0 ≤ h.extent.last.0) × (h.extent.last.0 < length file.now) × (length file.now < 2 ^ 28) × (h.types * 2 ≤ length types.now) }
    ensures answer { told result ≡ read_of (reads_behind nodes.old items.old file.now (header_of h types.now)) }
    ensures nodes { nodes.new ≡ nodes_behind nodes.old items.old file.now (header_of h types.now) }
    ensures items { items.new ≡ items_behind nodes.old items.old file.now (header_of h types.now) }
{
    let lim = room_of(nodes.len(), items.len());
    match read_root(file, types, nodes, items, h, lim) {
        Err(r) => {
            rows::clear_all(nodes, items);
            Err(r)
        }
        Ok((tree, _)) => match follow_all(file, types, nodes, items, h, lim, tree) {
            Err(r) => {
                rows::clear_all(nodes, items);
                Err(r)
            }
            Ok((m, _)) => {
                room::fill_from(nodes, m.nodes * cursor::NODE_WIDTH, 0);
                room::fill_from(items, m.items * cursor::ITEM_WIDTH, 0);
                Ok(Summary {
                    version: h.version,
                    edition: h.edition,
                    header_end: h.extent.end,
                    tree: tree.nodes,
                    nodes: m.nodes,
                    items: m.items,
                })
            }
        },
    }
}

// Reads a file into the two tables: the start of every question.
pub fn read_file(file: &[u8], nodes: &mut [u64], items: &mut [u64]) -> Result<Summary, Refusal>
    ensures answer { told result ≡ read_of (reads nodes.old items.old file.now) }
    ensures nodes { nodes.new ≡ nodes_read nodes.old items.old file.now }
    ensures items { items.new ≡ items_read nodes.old items.old file.now }
{
    let mut types = [0u64; header::MOST_TYPES * 2];
    match header::read_header(file, &mut types) {
        Err(r) => {
            rows::clear_all(nodes, items);
            Err(r)
        }
        Ok(h) => read_behind(file, &types, nodes, items, h),
    }
}

// The first question: reads the tree into the two tables.
pub fn read_tree(file: &[u8], nodes: &mut [u64], items: &mut [u64]) -> Result<Tree, Refusal>
    ensures answer { told result ≡ answer_of (reads nodes.old items.old file.now) }
    ensures nodes { nodes.new ≡ nodes_read nodes.old items.old file.now }
    ensures items { items.new ≡ items_read nodes.old items.old file.now }
{
    let s = read_file(file, nodes, items)?;
    Ok(Tree {
        version: s.version,
        nodes: s.nodes,
        items: s.items,
    })
}
