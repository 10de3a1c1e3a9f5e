// The item row of a field, nearest to a node or its own.
ghost use Rattle.std.specs.Prelude.{◌≡◌, ◌≤◌, ◌+◌, ◌*◌, length};
ghost use Rattle.rows.specs.Rows.{item_width, item_from, ItemIn};
ghost use Rattle.room.specs.Counts.{Counts};
ghost use Rattle.file.specs.Asking.{answered, items_left};
ghost use Rattle.find.specs.Told.{wanted_of, told, question};
ghost use Rattle.lines.specs.Answer.{Gives};
ghost use Rattle.tables.specs.Rows.{found_lines, found_answer};

use cursor::Item;
use find::Field;
use lines::{Made, conclude, refuse};
use refusals::Refusal;

// Finds by a field's number or by its name.
fn find_field(
    file: &[u8],
    nodes: &mut [u64],
    items: &mut [u64],
    climbs: bool,
    row: usize,
    field: Field,
    name: &[u8],
) -> Result<(usize, Item), Refusal>
    ensures answer { told result ≡ answered nodes.old items.old file.now (question climbs (wanted_of field name.now) row) }
    ensures items { items.new ≡ items_left nodes.old items.old file.now (question climbs (wanted_of field name.now) row) }
{
    match (field, climbs) {
        (Field::Standard(number), true) => find::find_standard(file, nodes, items, row, number),
        (Field::Standard(number), false) => find::find_own_standard(
            file, nodes, items, row, number,
        ),
        (Field::Custom, true) => find::find_custom(file, nodes, items, row, name),
        (Field::Custom, false) => find::find_own_custom(file, nodes, items, row, name),
    }
}

// Puts the line of item row i, which was found, and its line on the sheet if it is visible.
fn put_found(out: &mut [u8], file: &[u8], items: &[u64], i: usize) -> usize
    requires { (i * item_width + item_width ≤ length items.now) × ItemIn (length file.now) (item_from items.now (i * item_width)) }
    ensures { Counts out.old out.new 0 (found_lines file.now (record { row = i; item = item_from items.now (i * item_width) })) result }
{
    let next = crate::all_rows::put_item_row(out, 0, b'I', i, rows::item_at(items, i));
    sheet::put_visible_line(out, next, file, items, i)
}

pub fn make_found(
    file: &[u8],
    climbs: bool,
    row: usize,
    field: Field,
    name: &[u8],
    text: &mut [u8],
) -> Made
    ensures { Gives (length text.old) result text.new (found_answer (length text.old) climbs (wanted_of field name.now) row file.now) }
{
    let mut nodes = program::node_table();
    let mut items = program::item_table();
    match find_field(file, &mut nodes, &mut items, climbs, row, field, name) {
        Err(e) => refuse(text, b"", e),
        Ok((i, _)) => {
            let end = put_found(text, file, &items, i);
            conclude(text, b"", end, 0)
        }
    }
}
