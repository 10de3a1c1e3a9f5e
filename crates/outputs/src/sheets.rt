// The support sheet in either edition, and a sheet in its other edition.
ghost use Rattle.std.specs.Prelude.{◌≡◌, length};
ghost use Rattle.room.specs.Room.{counted, kept};
ghost use Rattle.refusals.specs.Told.{told};
ghost use Rattle.file.specs.Asking.{answered};
ghost use Rattle.sheet.specs.Sheet.{write_in};
ghost use Rattle.lines.specs.Answer.{Gives};
ghost use Rattle.outputs.specs.Printed.{sheet_answer, moved_answer};

use lines::{Made, settle};
use refusals::Refusal;

// Writes the sheet in either edition.
fn write_edition(
    file: &[u8],
    nodes: &mut [u64],
    items: &mut [u64],
    second: bool,
    text: &mut [u8],
) -> Result<usize, Refusal>
    ensures answer { told result ≡ counted (answered nodes.old items.old file.now (write_in second (length text.old))) }
    ensures text { text.new ≡ kept (length text.old) (answered nodes.old items.old file.now (write_in second (length text.old))) }
{
    if second {
        return sheet::write_sheet2(file, nodes, items, text);
    }
    sheet::write_sheet(file, nodes, items, text)
}

pub fn make_sheet(file: &[u8], second: bool, tail: &[u8], text: &mut [u8]) -> Made
    ensures { Gives (length text.old) result text.new (sheet_answer (length text.old) second tail.now file.now) }
{
    let mut nodes = program::node_table();
    let mut items = program::item_table();
    let written = write_edition(file, &mut nodes, &mut items, second, text);
    settle(text, tail, written)
}

pub fn make_moved(lines: &[u8], text: &mut [u8]) -> Made
    ensures { Gives (length text.old) result text.new (moved_answer (length text.old) lines.now) }
{
    let written = mover::move_sheet(lines, text);
    settle(text, b"", written)
}
