// The contents that can be corrected, and the file with another one.
#![tactic(auto)]

ghost use Rattle.std.specs.Prelude.{◌≡◌, ◌≤◌, ◌+◌, ◌*◌, length};
ghost use Rattle.rows.specs.Rows.{item_width, item_from, items_in, ItemIn, ItemRows};
ghost use Rattle.room.specs.Counts.{Counts};
ghost use Rattle.lines.specs.Answer.{reads, Gives};
ghost use Rattle.titles.specs.Titles.{title_line, title_lines, titles_answer, title_format, corrected_answer, retitled_answer};

use lines::{Made, conclude, refuse, settle};
use refusals::{Reason, Refusal};

// Puts the line of an item row, if it is visible and universal: its number, and its line on the sheet.
fn put_title_line(out: &mut [u8], to: usize, file: &[u8], items: &[u64], row: usize) -> usize
    requires { (row * item_width + item_width ≤ length items.now) × ItemIn (length file.now) (item_from items.now (row * item_width)) }
    ensures { Counts out.old out.new to (title_line file.now row (item_from items.now (row * item_width))) result }
{
    if title::is_no_title(items, row) {
        return to;
    }
    let a = room::put_decimal(out, to, row as u64);
    let b = room::put_byte(out, a, 0x09);
    sheet::put_item_line(out, b, file, items, row)
}

// Puts the lines of all titles.
fn put_title_lines(out: &mut [u8], file: &[u8], items: &[u64], count: usize) -> usize
    requires { ItemRows (length file.now) count items.now }
    ensures { Counts out.old out.new 0 (title_lines file.now 0 (items_in count items.now)) result }
{
    let mut next: usize = 0;
    for i in 0..count {
        next = put_title_line(out, next, file, items, i);
    }
    next
}

pub fn make_titles(file: &[u8], text: &mut [u8]) -> Made
    ensures { Gives (length text.old) result text.new (titles_answer (length text.old) file.now) }
{
    let mut nodes = program::node_table();
    let mut items = program::item_table();
    match file::read_file(file, &mut nodes, &mut items) {
        Err(e) => refuse(text, b"", e),
        Ok(s) => {
            if title::refers_elsewhere(&nodes, s.nodes) {
                return refuse(text, b"", Refusal(Reason::RefersElsewhere, 0));
            }
            let end = put_title_lines(text, file, &items, s.items);
            conclude(text, b"", end, 0)
        }
    }
}

// The format of an item row that is visible and universal; 1 for any other.
pub fn title_format(file: &[u8], row: usize) -> u64
    ensures { result ≡ title_format row (reads file.now) }
{
    let mut nodes = program::node_table();
    let mut items = program::item_table();
    match file::read_file(file, &mut nodes, &mut items) {
        Err(_) => 1,
        Ok(s) => {
            if s.items <= row {
                return 1;
            }
            if title::is_no_title(&items, row) {
                return 1;
            }
            rows::item_at(&items, row).format
        }
    }
}

// The file with these bytes as the data of an item row.
pub fn make_corrected(file: &[u8], row: usize, bytes: &[u8], text: &mut [u8]) -> Made
    ensures { Gives (length text.old) result text.new (corrected_answer (length text.old) row bytes.now file.now) }
{
    let mut nodes = program::node_table();
    let mut items = program::item_table();
    let written = title::correct_title(file, &mut nodes, &mut items, row, bytes, text);
    settle(text, b"", written)
}

// The file with this title in an item row; the title of a row in UTF-16 is converted.
pub fn make_retitled(file: &[u8], row: usize, title: &[u8], text: &mut [u8]) -> Made
    ensures { Gives (length text.old) result text.new (retitled_answer (length text.old) row title.now file.now) }
{
    if title_format(file, row) != 2 {
        return make_corrected(file, row, title, text);
    }
    let mut units = io::large_buffer();
    match utf16::to_utf16(title, &mut units) {
        Err(e) => refuse(text, b"", e),
        Ok(n) => make_corrected(file, row, &units[..n], text),
    }
}
