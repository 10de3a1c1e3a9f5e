// Puts a file anew with the data of one content replaced: the header with the numbers that count the tree, and the tree.
#![tactic(auto)]

ghost use Rattle.std.specs.Prelude.{◌≡◌, false, ◌≤◌, ◌<◌, ◌^◌, length};
ghost use Rattle.rows.specs.Rows.{nodes_in};
ghost use Rattle.title_text.specs.Description.{opening_size};
ghost use Rattle.title_text.specs.Text.{start_with, last_bytes, start_at, file_bytes};
ghost use Rattle.title_text.specs.Title.{elsewhere};
ghost use Rattle.title_nodes.specs.Passes.{task, Sound};
ghost use Rattle.title_file.specs.Stands.{Stands};
ghost use Rattle.title_file.specs.Told.{Fills, file_anew, PutTitled};

use cursor::FilePlace;
use header::Extent;

// The bytes of TreeEnd, where FileLength has x bytes and TreeStart y, and `fixed` bytes before the tree are in none of the three.
fn last_bytes(fixed: usize, tree: usize, x: usize, y: usize) -> usize
    requires { (fixed ≤ 2 ^ 32) × (tree ≤ 2 ^ 32) × (1 ≤ x) × (x ≤ 4) × (y ≤ 4) }
    ensures { result ≡ last_bytes fixed tree x y }
{
    title_nodes::self_bytes(x + y + fixed + tree - 1)
}

// TreeStart, where FileLength has x bytes and TreeStart y.
fn start_with(fixed: usize, tree: usize, x: usize, y: usize) -> usize
    requires { (fixed ≤ 2 ^ 32) × (tree ≤ 2 ^ 32) × (1 ≤ x) × (x ≤ 4) × (y ≤ 4) }
    ensures { result ≡ start_with fixed x y (last_bytes fixed tree x y) }
{
    x + y + last_bytes(fixed, tree, x, y) + fixed
}

// TreeStart, where FileLength has x bytes.
fn start_at(fixed: usize, tree: usize, x: usize) -> usize
    requires { (fixed ≤ 2 ^ 32) × (tree ≤ 2 ^ 32) × (1 ≤ x) × (x ≤ 4) }
    ensures { result ≡ start_at fixed tree x }
{
    let one = start_with(fixed, tree, x, 1);
    let two = start_with(fixed, tree, x, 2);
    let three = start_with(fixed, tree, x, 3);
    start_with(fixed, tree, x, vlq::least_bytes(one, two, three))
}

// TreeStart, where `after` bytes follow the tree.
fn tree_start(fixed: usize, tree: usize, after: usize) -> usize
    requires { (fixed ≤ 2 ^ 32) × (tree ≤ 2 ^ 32) × (after ≤ 2 ^ 32) }
    ensures { result ≡ start_at fixed tree (file_bytes fixed tree after) }
{
    let one = start_at(fixed, tree, 1) + tree + after;
    let two = start_at(fixed, tree, 2) + tree + after;
    let three = start_at(fixed, tree, 3) + tree + after;
    start_at(fixed, tree, vlq::least_bytes(one, two, three))
}

// Puts the file, whose FileLength begins at `opening`.
fn put_file(
    out: &mut [u8],
    file: &[u8],
    nodes: &[u64],
    items: &[u64],
    opening: FilePlace,
    extent: Extent,
    count: usize,
    total: usize,
    row: usize,
    title: &[u8],
) -> usize
    requires rows { Sound (task file.now nodes.now items.now count total row title.now) }
    requires inside { (opening.0 ≤ length file.now) × (extent.end.0 ≤ extent.start.0) × (extent.start.0 ≤ extent.last.0) × (extent.last.0 < length file.now) }
    ensures { Fills out.old out.new (file_anew (task file.now nodes.now items.now count total row title.now) opening.0 extent) result }
{
    let mut metadata = [0usize; cursor::MOST_NODES];
    let mut packed = [0usize; cursor::MOST_NODES];
    let mut same = [false; cursor::MOST_NODES];
    let mut headers = [0usize; cursor::MOST_NODES];
    let mut lengths = [0usize; cursor::MOST_NODES];
    let tree = title_nodes::measure_tree(
        file,
        nodes,
        items,
        count,
        total,
        row,
        title,
        &mut metadata,
        &mut packed,
        &mut same,
        &mut headers,
        &mut lengths,
    );
    if tree == title_nodes::SIZE_STOP {
        return tree;
    }
    let types = title_nodes::stopped(title_parts::put_types(&mut [], 0, file, opening));
    let end = extent.end;
    let start = extent.start;
    let last = extent.last;
    let gap = start.0 - end.0;
    let rest = FilePlace(last.0 + 1);
    let after = file.len() - rest.0;
    let first = tree_start(opening.0 + types + gap, tree, after);
    let stop = first + tree;
    let size = stop + after;
    let a = room::put_part(out, 0, file, 0, opening.0);
    let b = vlq::put_number(out, a, size as u64);
    let c = title_parts::put_types(out, b, file, opening);
    let d = vlq::put_number(out, c, first as u64);
    let e = vlq::put_number(out, d, (stop - 1) as u64);
    let f = room::put_part(out, e, file, end.0, gap);
    let g = title_nodes::put_tree(
        out, f, file, nodes, items, count, total, row, title, &metadata, &packed, &same, &headers,
        &lengths,
    );
    room::put_part(out, g, file, rest.0, after)
}

// Where FileLength begins.
fn opening_of(version: u64) -> FilePlace
    ensures { result.0 ≡ opening_size version }
{
    if version == 200 {
        FilePlace(16)
    } else {
        FilePlace(8)
    }
}

// Puts the file with that title.
pub fn put_titled(
    out: &mut [u8],
    file: &[u8],
    nodes: &[u64],
    items: &[u64],
    count: usize,
    total: usize,
    row: usize,
    title: &[u8],
) -> usize
    requires { Stands file.now nodes.now items.now count total × (elsewhere (nodes_in count nodes.now) ≡ false) }
    ensures { PutTitled (task file.now nodes.now items.now count total row title.now) out.old out.new result }
{
    let mut types = [0u64; header::MOST_TYPES * 2];
    let Ok(h) = header::read_header(file, &mut types) else {
        return 0;
    };
    let opening = opening_of(h.version);
    put_file(
        out, file, nodes, items, opening, h.extent, count, total, row, title,
    )
}
