// Texts for people, on a terminal: no control character, and no mark that breaks a line or turns its direction.
#![tactic(auto)]

ghost use Rattle.std.specs.Prelude.{◌≡◌, ◌∷◌, [], length, drop};
ghost use Rattle.room.specs.Counts.{Counts};
ghost use Rattle.lines.specs.Answer.{reads};
ghost use Rattle.notes.specs.Safe.{is_safe, safe_size, safe_text};
ghost use Rattle.notes.specs.Changes.{row_text, title_field, changes_text};

// Whether a character does nothing but stand where it is: no control character, not U+2028 to U+202E, not U+2066 to U+2069.
#[tactic(auto, unfolding(crate::specs::Safe::is_safe))]
fn is_safe(c: u64) -> bool
    ensures { result ≡ is_safe c }
{
    !matches!(c, 0..=0x1f | 0x7f..=0x9f | 0x2028..=0x202e | 0x2066..=0x2069)
}

// How many bytes of UTF-8 at a place are a safe character; 0 if none.
#[tactic(auto, unfolding(crate::specs::Safe::safe_size, crate::specs::Safe::size_if))]
fn safe_size(text: &[u8], at: usize) -> usize
    ensures { result ≡ safe_size (drop at text.now) }
{
    match utf16::char8(text, at) {
        Some((value, size)) if is_safe(value) => size,
        _ => 0,
    }
}

// Puts what says that a text goes on.
fn put_cut(out: &mut [u8], to: usize) -> usize
    ensures { Counts out.old out.new to (0x2E ∷ 0x2E ∷ []) result }
{
    room::put_bytes(out, to, b"..")
}

// Puts a text: its safe characters as they are, its other bytes as a backslash and two digits. What does not stand in its first `most` bytes is left
// out, and `..` says so.
pub fn put_safe(out: &mut [u8], to: usize, text: &[u8], most: usize) -> usize
    ensures { Counts out.old out.new to (safe_text most text.now) result }
{
    let mut next = to;
    let mut at = 0;
    while at < text.len() {
        let size = safe_size(text, at);
        if most < at + size {
            return put_cut(out, next);
        }
        if size == 0 {
            if most <= at {
                return put_cut(out, next);
            }
            next = text::put_escaped(out, next, text, at, 1);
            at = at + 1;
        } else {
            next = room::put_part(out, next, text, at, size);
            at = at + size;
        }
    }
    next
}

// Puts the text of an item row, if it is visible and universal, as it stands on the sheet.
fn put_row_text(out: &mut [u8], file: &[u8], row: usize) -> usize
    ensures { Counts out.old out.new 0 (row_text row file.now (reads file.now)) result }
{
    let mut nodes = program::node_table();
    let mut items = program::item_table();
    match file::read_file(file, &mut nodes, &mut items) {
        Err(_) => 0,
        Ok(s) => {
            if s.items <= row {
                return 0;
            }
            if title::is_no_title(&items, row) {
                return 0;
            }
            sheet::put_text(out, 0, file, rows::item_at(&items, row))
        }
    }
}

// Room for a text of 65,536 bytes, each as a backslash and two digits.
fn title_buffer() -> [u8; 196608]
    ensures { 196608 ≡ length result }
{
    [0; 196608]
}

// Puts a tab and the text of an item row, cut at 200 bytes.
fn put_title(out: &mut [u8], to: usize, file: &[u8], row: usize) -> usize
    ensures { Counts out.old out.new to (title_field row file.now) result }
{
    let mut text = title_buffer();
    let n = put_row_text(&mut text, file, row);
    let next = room::put_byte(out, to, 0x09);
    if n > 196608 {
        return next;
    }
    put_safe(out, next, &text[..n], 200)
}

// Puts what a correction changed: the title and the file's length, before and after.
pub fn put_changes(out: &mut [u8], given: &[u8], corrected: &[u8], row: usize) -> usize
    ensures { Counts out.old out.new 0 (changes_text row given.now corrected.now) result }
{
    let a = room::put_bytes(out, 0, b"title");
    let b = put_title(out, a, given, row);
    let c = put_title(out, b, corrected, row);
    let d = room::put_bytes(out, c, b"\nlength");
    let e = text::put_number(out, d, given.len() as u64);
    let f = text::put_number(out, e, corrected.len() as u64);
    room::put_byte(out, f, 0x0a)
}
