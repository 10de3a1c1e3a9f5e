// Correct a title: writes a file anew with the data of one content replaced, and refuses where that cannot be.
#![tactic(auto)]

ghost use Rattle.std.specs.Prelude.{◌≡◌, ◌≤◌, ◌*◌, ◌+◌, length};
ghost use Rattle.rows.specs.Rows.{node_width, item_width, item_from, nodes_in, items_in};
ghost use Rattle.room.specs.Room.{counted, kept};
ghost use Rattle.refusals.specs.Told.{told};
ghost use Rattle.title_text.specs.Title.{elsewhere, is_no_title};
ghost use Rattle.title_nodes.specs.Passes.{task};
ghost use Rattle.title_file.specs.Stands.{Stands};
ghost use Rattle.title.specs.Refusals.{allowed};
ghost use Rattle.title.specs.Told.{WroteTitled, corrected, nodes_corrected, items_corrected};

use refusals::{Reason, Refusal};

// Whether some node names a place of the file.
pub fn refers_elsewhere(nodes: &[u64], count: usize) -> bool
    requires { count * node_width ≤ length nodes.now }
    ensures { result ≡ elsewhere (nodes_in count nodes.now) }
{
    for i in 0..count {
        let node = rows::node_at(nodes, i);
        if node.reference == 2 || node.reference == 3 {
            return true;
        }
    }
    false
}

// Whether item row `row` is hidden or a version.
#[tactic(auto, unfolding(title_text::specs::Title::is_no_title, file::specs::Hidden::is_hidden))]
pub fn is_no_title(items: &[u64], row: usize) -> bool
    requires { row * item_width + item_width ≤ length items.now }
    ensures { result ≡ is_no_title (item_from items.now (row * item_width)) }
{
    let item = rows::item_at(items, row);
    item.format % 2 == 1 || item.version != 0
}

// Whether the rows allow the title: the first refusal that they give.
fn check_rows(
    nodes: &[u64],
    items: &[u64],
    count: usize,
    total: usize,
    row: usize,
) -> Result<(), Refusal>
    requires { (count * node_width ≤ length nodes.now) × (total * item_width ≤ length items.now) }
    ensures { told result ≡ allowed row (nodes_in count nodes.now) (items_in total items.now) }
{
    if total <= row {
        return Err(Refusal(Reason::NoSuchRow, 0));
    }
    let refers = refers_elsewhere(nodes, count);
    let other = is_no_title(items, row);
    if refers {
        return Err(Refusal(Reason::RefersElsewhere, 0));
    }
    if other {
        return Err(Refusal(Reason::NotATitle, 0));
    }
    Ok(())
}

// Writes the file with that title, where nothing refuses it.
fn write_titled(
    out: &mut [u8],
    file: &[u8],
    nodes: &[u64],
    items: &[u64],
    count: usize,
    total: usize,
    row: usize,
    title: &[u8],
) -> Result<usize, Refusal>
    requires { Stands file.now nodes.now items.now count total }
    ensures { WroteTitled (task file.now nodes.now items.now count total row title.now) out.old out.new result }
{
    check_rows(nodes, items, count, total, row)?;
    let size = title_file::put_titled(out, file, nodes, items, count, total, row, title);
    if title_nodes::SIZE_STOP <= size {
        return Err(Refusal(Reason::ResultTooLarge, 0));
    }
    if out.len() < size {
        return Err(Refusal(Reason::NoRoom, 0));
    }
    Ok(size)
}

// Writes a file anew with the title as the data of item row `row`, a universal and visible content.
pub fn correct_title(
    file: &[u8],
    nodes: &mut [u64],
    items: &mut [u64],
    row: usize,
    title: &[u8],
    out: &mut [u8],
) -> Result<usize, Refusal>
    ensures answer { told result ≡ counted (corrected nodes.old items.old file.now row title.now out.old) }
    ensures nodes { nodes.new ≡ nodes_corrected nodes.old items.old file.now row title.now out.old }
    ensures items { items.new ≡ items_corrected nodes.old items.old file.now row title.now out.old }
    ensures out { out.new ≡ kept (length out.old) (corrected nodes.old items.old file.now row title.now out.old) }
{
    match file::read_file(file, nodes, items) {
        Err(r) => {
            out.fill(0);
            Err(r)
        }
        Ok(s) => match write_titled(out, file, nodes, items, s.nodes, s.items, row, title) {
            Err(r) => {
                rows::clear_all(nodes, items);
                out.fill(0);
                Err(r)
            }
            Ok(size) => {
                room::fill_from(out, size, 0);
                let written = &out[..size];
                let _ = file::read_file(written, nodes, items);
                Ok(size)
            }
        },
    }
}
