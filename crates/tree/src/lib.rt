// Reads a node and all that it holds into two lent tables, one of node rows and one of item rows.
#![tactic(auto)]

ghost use Rattle.std.specs.Prelude.{◌≡◌, List, ℕ, ◌≤◌, ◌<◌, ◌^◌, ◌*◌, ◌+◌, length};
ghost use Rattle.machine.specs.Machine.{ret, exec, times};
ghost use Rattle.rows.specs.Rows.{node_width};
ghost use Rattle.metadata.specs.Tables.{put, state};
ghost use Rattle.metadata.specs.Told.{Room, Gives};
ghost use Rattle.cursor.specs.Rows.{inline_size};
ghost use Rattle.tree.specs.Tree.{most_depth, folder, node};
ghost use Rattle.tree.specs.Told.{Reads};

use cursor::{Cursor, FilePlace, Node, NodePlace};
use metadata::{Limits, Made, Scope};
use node::Bounds;
use refusals::{Reason, Refusal};

// The cursor behind a node's row, which passes the inline data of a file node.
fn past_inline(c: Cursor, row: Node) -> Cursor
    requires { c.at.0 + inline_size row < 2 ^ 28 }
    ensures { result.at.0 ≡ c.at.0 + inline_size row }
{
    if row.contained == 0 {
        if row.reference == 1 {
            let at = c.at;
            return Cursor {
                at: FilePlace(at.0 + row.extent as usize),
            };
        }
    }
    c
}

// The end of a node whose children were read up to c: nothing remains before `end`.
fn end_node(c: Cursor, end: FilePlace, lim: Limits, made: Made) -> Result<(Made, Cursor), Refusal>
    requires { (made.nodes ≤ lim.nodes) × (made.items ≤ lim.items) }
    ensures { (s t u : List ℕ) → Gives lim result t u (exec put (folder end.0 (ret made)) s c.at.0 (state t u made)) }
{
    let place = c.at;
    if place.0 < end.0 {
        return Err(Refusal(Reason::BytesLeft, place.0));
    }
    Ok((made, c))
}

// The node at c, with the bounds s, and all that it holds.
#[cycle(read_children_read_node)]
fn read_node(
    c: Cursor,
    file: &[u8],
    types: &[u64],
    nodes: &mut [u64],
    items: &mut [u64],
    scope: Scope,
    levels: usize,
    parent: usize,
    s: Bounds,
    made: Made,
) -> Result<(Made, Cursor), Refusal>
    requires { Room scope file.now types.now items.old s.end.0 made × (scope.limits.nodes * node_width ≤ length nodes.old) × (levels ≤ most_depth + 1) }
    ensures { Reads scope (λ x. node levels x parent s made) file.now types.now c.at.0 made nodes.old items.old nodes.new items.new result }
{
    let start = c.at;
    if levels == 0 {
        return Err(Refusal(Reason::TooDeep, start.0));
    }
    let lim = scope.limits;
    let index = made.nodes;
    if lim.nodes <= index {
        return Err(Refusal(Reason::NoRowLeft, start.0));
    }
    let (w, d) = node::read_front(
        c,
        file,
        types,
        items,
        scope,
        parent,
        cursor::MOST_DEPTH + 1 - levels,
        s,
        made,
    )?;
    let row = w.row;
    let m = w.made;
    let counts = Made {
        nodes: m.nodes + 1,
        items: m.items,
    };
    rows::put_node(nodes, index, row);
    let stop = start.of(NodePlace(row.size as usize));
    let next = past_inline(d, row);
    // A file node has no children. To ask here is faster than a call that reads none.
    if row.contained == 0 {
        return end_node(next, stop, lim, counts);
    }
    let inside = Bounds {
        least: FilePlace(0),
        end: stop,
        taken: stop,
        offset: FilePlace(0),
        detached: 0,
    };
    let (all, e) = read_children(
        next,
        file,
        types,
        nodes,
        items,
        scope,
        levels - 1,
        index,
        inside,
        row.contained,
        counts,
    )?;
    end_node(e, stop, lim, all)
}

// `left` nodes, one after the other, each with the bounds s: the children of a folder. The root and a detached node are read here too, each as one node: so
// `read_node` is called at one place, the compiler puts it into this loop, and a file node costs no call.
#[cycle(read_children_read_node)]
pub fn read_children(
    c: Cursor,
    file: &[u8],
    types: &[u64],
    nodes: &mut [u64],
    items: &mut [u64],
    scope: Scope,
    levels: usize,
    parent: usize,
    s: Bounds,
    left: u64,
    made: Made,
) -> Result<(Made, Cursor), Refusal>
    requires { Room scope file.now types.now items.old s.end.0 made × (scope.limits.nodes * node_width ≤ length nodes.old) × (levels ≤ most_depth + 1) }
    ensures { Reads scope (λ x. times left (node levels x parent s) made) file.now types.now c.at.0 made nodes.old items.old nodes.new items.new result }
{
    let mut next = c;
    let mut m = made;
    for _ in 0..left {
        (m, next) = read_node(next, file, types, nodes, items, scope, levels, parent, s, m)?;
    }
    Ok((m, next))
}
