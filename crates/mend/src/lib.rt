// A file whose FileLength or TreeEnd is wrong: a copy with the two set right, in the bytes that they have.
#![tactic(auto)]

ghost use Rattle.std.specs.Prelude.{◌≡◌, false, List, ℕ, ◌+◌, ◌-◌, ◌*◌, ◌^◌, ◌≤◌, ◌<◌, ltb, length, replicate};
ghost use Rattle.machine.specs.Machine.{run};
ghost use Rattle.std.proofs.lemmas.List.Edits.{sets};
ghost use Rattle.vlq.specs.Vlq.{in_bytes};
ghost use Rattle.room.specs.Counts.{Counts};
ghost use Rattle.mend.specs.Fields.{number_field, fields};
ghost use Rattle.room.specs.Room.{bad, padded};
ghost use Rattle.metadata.specs.Tables.{limits};
ghost use Rattle.file.specs.Reading.{read_file};
ghost use Rattle.mend.specs.Mend.{number_at, tabbed, line, both_lines, set_to, mended, accepted};
ghost use Rattle.mend.specs.Told.{field_of, field_told, fields_of, fields_told, FewTypes, FieldsIn, sound_for, told, sizes_of, asked, nodes_after, items_after, copy_after, lines_after, Ends, Set};

use cursor::{Cursor, FilePlace};
use header::{Edition, Extent, Header};
use refusals::{Reason, Refusal};

// A number of the header, with its place and the place after it.
#[derive(Clone, Copy)]
pub struct Field {
    pub place: FilePlace,
    pub value: u64,
    pub end: FilePlace,
}

// What the header's fields say: `length` is FileLength, `start` TreeStart, `last` TreeEnd. None of them is judged.
#[derive(Clone, Copy)]
pub struct Fields {
    pub version: u64,
    pub edition: Edition,
    pub length: Field,
    pub types: usize,
    pub start: u64,
    pub last: Field,
}

// The number at the cursor, with its place and end.
#[tactic(auto, using(header::proofs::Reading::reading), unfolding(crate::specs::Fields::number_field))]
fn read_field(c: Cursor, file: &[u8]) -> Result<Field, Refusal>
    ensures { field_told result ≡ run (number_field (length file.now)) file.now c.at.0 }
{
    let place = c.at;
    let (value, d) = c.number(file, FilePlace(file.len()), Reason::CutShort)?;
    let end = d.at;
    Ok(Field { place, value, end })
}

// Reads the header's fields, and the declared types into the lent table; FileLength and the tree's extent are not judged.
#[tactic(auto, using(header::proofs::Reading::reading), unfolding(crate::specs::Fields::fields))]
fn read_fields(file: &[u8], types: &mut [u64]) -> Result<Fields, Refusal>
    requires { 64 ≤ length types.old }
    ensures answer { fields_told result types.new ≡ run (fields (length file.now)) file.now 0 }
    ensures listed { FewTypes result }
{
    let (version, c) = header::read_opening(file)?;
    let (edition, d) = header::read_edition(c, file, version)?;
    let length = read_field(d, file)?;
    let e = Cursor { at: length.end };
    let (count, g) = header::read_types(e, file, types)?;
    let start = read_field(g, file)?;
    let k = Cursor { at: start.end };
    let last = read_field(k, file)?;
    Ok(Fields {
        version,
        edition,
        length,
        types: count,
        start: start.value,
        last,
    })
}

// The number at a place of the file; 0 where there is none.
#[tactic(auto, using(header::proofs::Reading::reading), unfolding(crate::specs::Mend::number_at))]
fn number_at(file: &[u8], at: usize) -> u64
    ensures { result ≡ number_at file.now at }
{
    match (Cursor { at: FilePlace(at) }).number(file, FilePlace(file.len()), Reason::CutShort) {
        Ok((n, _)) => n,
        Err(_) => 0,
    }
}

// Whether n can be written in k bytes.
fn fits_in(n: usize, k: usize) -> bool
    requires { (1 ≤ k) × (k ≤ 4) }
    ensures { result ≡ ltb n (128 ^ k) }
{
    if k == 1 {
        return n < 128;
    }
    if k == 2 {
        return n < 16384;
    }
    if k == 3 {
        return n < 2097152;
    }
    n < 268435456
}

// Puts a tab and a decimal number.
fn put_tabbed(lines: &mut [u8], to: usize, n: u64) -> usize
    ensures { Counts lines.old lines.new to (tabbed n) result }
{
    let a = room::put_byte(lines, to, 9);
    room::put_decimal(lines, a, n)
}

// Puts the line of a field that is set to n; none where it says n already.
fn put_line(lines: &mut [u8], to: usize, name: &[u8], x: Field, n: usize) -> usize
    ensures { Counts lines.old lines.new to (line name.now (field_of x) n) result }
{
    if x.value == n as u64 {
        return room::put_bytes(lines, to, b"");
    }
    let place = x.place;
    let a = room::put_bytes(lines, to, name);
    let b = put_tabbed(lines, a, place.0 as u64);
    let c = put_tabbed(lines, b, x.value);
    let d = put_tabbed(lines, c, n as u64);
    room::put_byte(lines, d, 10)
}

// Puts the lines of both fields, set to `size` and `last`.
fn put_lines(lines: &mut [u8], w: Fields, size: usize, last: usize) -> usize
    ensures { Counts lines.old lines.new 0 (both_lines (field_of w.length) (field_of w.last) size last) result }
{
    let a = put_line(lines, 0, b"FileLength", w.length, size);
    put_line(lines, a, b"TreeEnd", w.last, last)
}

// Sets a field to n, in the bytes that it has.
fn set_field(copy: &mut [u8], x: Field, n: usize)
    requires { (x.place.0 < x.end.0) × (x.end.0 ≤ x.place.0 + 4) × (x.end.0 ≤ length copy.old) }
    ensures { copy.new ≡ sets copy.old x.place.0 (in_bytes (x.end.0 - x.place.0) n) }
{
    let place = x.place;
    let end = x.end;
    vlq::put_in_bytes(copy, place.0, n as u64, end.0 - place.0);
}

// TreeEnd as it should be: the root, which begins with its length, fills the tree.
fn last_of(file: &[u8], start: u64) -> usize
    requires { start < 2 ^ 28 }
    ensures { result ≡ start + number_at file.now start - 1 }
{
    let root = number_at(file, start as usize);
    room::room_at((start + root) as usize, 1)
}

// Whether the two values fit their bytes, and the tree lies in the file behind the header.
fn is_sound(size: usize, w: Fields, last: usize) -> bool
    requires { (ws : List ℕ) → FieldsIn (fields_of w ws) size }
    ensures { (ws : List ℕ) → result ≡ sound_for size (fields_of w ws) last }
{
    let a = w.length;
    let b = w.last;
    let a0 = a.place;
    let a1 = a.end;
    let b0 = b.place;
    let b1 = b.end;
    if !fits_in(size, a1.0 - a0.0) {
        return false;
    }
    if !fits_in(last, b1.0 - b0.0) {
        return false;
    }
    let start = w.start as usize;
    if start < b1.0 {
        return false;
    }
    if last < start {
        return false;
    }
    last < size
}

// No room for the copy or the lines: both tables and both buffers are cleared.
fn no_room(
    nodes: &mut [u64],
    items: &mut [u64],
    copy: &mut [u8],
    lines: &mut [u8],
) -> Result<(usize, usize), Refusal>
    ensures answer { told result ≡ bad 22 0 }
    ensures nodes { nodes.new ≡ replicate (length nodes.old) 0 }
    ensures items { items.new ≡ replicate (length items.old) 0 }
    ensures copy { copy.new ≡ replicate (length copy.old) 0 }
    ensures lines { lines.new ≡ replicate (length lines.old) 0 }
{
    rows::clear_all(nodes, items);
    copy.fill(0);
    lines.fill(0);
    Err(Refusal(Reason::NoRoom, 0))
}

// Writes the file into the buffer, both fields set, and zeros behind it.
fn put_copy(copy: &mut [u8], file: &[u8], w: Fields, last: usize)
    requires { ((ws : List ℕ) → FieldsIn (fields_of w ws) (length file.now)) × (length file.now ≤ length copy.old) }
    ensures { (ws : List ℕ) → copy.new ≡ padded (length copy.old) (set_to file.now (fields_of w ws) (length file.now) last) }
{
    room::store(copy, 0, file);
    set_field(copy, w.length, file.len());
    set_field(copy, w.last, last);
    room::fill_from(copy, file.len(), 0);
}

// Writes the copy, both fields set, and the lines; where the buffers have no room for them, tables and buffers are cleared.
fn write_mended(
    file: &[u8],
    nodes: &mut [u64],
    items: &mut [u64],
    copy: &mut [u8],
    lines: &mut [u8],
    w: Fields,
    last: usize,
) -> Result<(usize, usize), Refusal>
    requires { (ws : List ℕ) → FieldsIn (fields_of w ws) (length file.now) }
    ensures { (ws : List ℕ) → Set file.now (fields_of w ws) last (told result) nodes.old items.old (length copy.old) (length lines.old)
        nodes.new items.new copy.new lines.new }
{
    let n = put_lines(lines, w, file.len(), last);
    if copy.len() < file.len() {
        return no_room(nodes, items, copy, lines);
    }
    if lines.len() < n {
        return no_room(nodes, items, copy, lines);
    }
    put_copy(copy, file, w, last);
    room::fill_from(lines, n, 0);
    Ok((file.len(), n))
}

// The refusal of the file as it is, which no values of the two mend.
fn refuse_unchanged(
    file: &[u8],
    nodes: &mut [u64],
    items: &mut [u64],
    copy: &mut [u8],
    lines: &mut [u8],
) -> Result<(usize, usize), Refusal>
    requires { accepted (read_file (limits (length nodes.old) (length items.old)) (mended file.now)) ≡ false }
    ensures { Ends file.now (length nodes.old) (length items.old) (length copy.old) (length lines.old) (told result) nodes.new items.new copy.new lines.new }
{
    copy.fill(0);
    lines.fill(0);
    match file::read_file(file, nodes, items) {
        Ok(_) => unreachable!(),
        Err(refusal) => Err(refusal),
    }
}

// A copy of the file with FileLength and TreeEnd set right, in the bytes that they have, and a line for each that changed; the tables hold the rows of the mended file.
// Where no values of the two mend it: its own refusal. The lent file is read, under the header set right, and never the copy: so a lack of room is reported after the file's
// own refusals.
pub fn mend(
    file: &[u8],
    nodes: &mut [u64],
    items: &mut [u64],
    copy: &mut [u8],
    lines: &mut [u8],
) -> Result<(usize, usize), Refusal>
    ensures answer { told result ≡ sizes_of (asked nodes.old items.old copy.old lines.old file.now) }
    ensures nodes { nodes.new ≡ nodes_after nodes.old items.old copy.old lines.old file.now }
    ensures items { items.new ≡ items_after nodes.old items.old copy.old lines.old file.now }
    ensures copy { copy.new ≡ copy_after nodes.old items.old copy.old lines.old file.now }
    ensures lines { lines.new ≡ lines_after nodes.old items.old copy.old lines.old file.now }
{
    let mut types = [0u64; header::MOST_TYPES * 2];
    let Ok(w) = read_fields(file, &mut types) else {
        return refuse_unchanged(file, nodes, items, copy, lines);
    };
    let last = last_of(file, w.start);
    if !is_sound(file.len(), w, last) {
        return refuse_unchanged(file, nodes, items, copy, lines);
    }
    let extent = Extent {
        start: FilePlace(w.start as usize),
        last: FilePlace(last),
        end: w.last.end,
    };
    let h = Header {
        version: w.version,
        edition: w.edition,
        types: w.types,
        extent,
    };
    match file::read_behind(file, &types, nodes, items, h) {
        Ok(_) => write_mended(file, nodes, items, copy, lines, w, last),
        Err(_) => refuse_unchanged(file, nodes, items, copy, lines),
    }
}
