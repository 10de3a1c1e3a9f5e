// Writes anew what is read again for it, unpackers and the types table: every number in its shortest form, and all else as it is.
#![tactic(auto)]

ghost use Rattle.std.specs.Prelude.{[], ◌<◌, ◌^◌, length};
ghost use Rattle.machine.specs.Machine.{run, times};
ghost use Rattle.cursor.specs.Rows.{Frame};
ghost use Rattle.vlq.specs.Vlq.{sized};
ghost use Rattle.title_text.specs.Description.{answer, unpacker_text, identifier_text, entry_text, table_text, shape};
ghost use Rattle.room.specs.Counts.{Counts};
ghost use Rattle.title_parts.specs.Told.{number_text, Copies, PackedAs};

use cursor::{Cursor, FilePlace, Node};
use refusals::{Reason, Refusal};

// The functions that put unpackers are inlined where they are called: where the buffer is empty the compiler leaves of them what measures.

// Puts the number at c. It answers, as all that copy do, the place after what was put, and the cursor after what was read for it.
#[inline(always)]
fn copy_number(
    out: &mut [u8],
    to: usize,
    file: &[u8],
    c: Cursor,
) -> Result<(usize, Cursor), Refusal>
    ensures { (κ : Frame) → Copies out.old out.new to result (run (number_text κ file.now) file.now c.at.0) }
{
    let (v, d) = c.number(file, FilePlace(file.len()), Reason::CutShort)?;
    Ok((vlq::put_number(out, to, v), d))
}

// Puts what names the unpacker at c, which is of that kind.
#[inline(always)]
fn copy_identifier(
    out: &mut [u8],
    to: usize,
    file: &[u8],
    c: Cursor,
    kind: u64,
) -> Result<(usize, Cursor), Refusal>
    requires { length file.now < 2 ^ 28 }
    ensures { Copies out.old out.new to result (run (identifier_text file.now kind) file.now c.at.0) }
{
    let start = c.at;
    let end = FilePlace(file.len());
    if kind == 3 {
        let d = c.guid(file, end)?;
        let after = d.at;
        return Ok((room::put_part(out, to, file, start.0, after.0 - start.0), d));
    }
    if kind == 1 {
        let d = c.manufacturer(file, end)?;
        let after = d.at;
        let a = room::put_part(out, to, file, start.0, after.0 - start.0);
        return copy_number(out, a, file, d);
    }
    copy_number(out, to, file, c)
}

// Puts the unpacker at c.
#[inline(always)]
fn copy_unpacker(
    out: &mut [u8],
    to: usize,
    file: &[u8],
    c: Cursor,
) -> Result<(usize, Cursor), Refusal>
    requires { length file.now < 2 ^ 28 }
    ensures { Copies out.old out.new to result (run (unpacker_text file.now []) file.now c.at.0) }
{
    let (kind, d) = c.number(file, FilePlace(file.len()), Reason::CutShort)?;
    let a = vlq::put_number(out, to, kind);
    let (b, e) = copy_identifier(out, a, file, d, kind)?;
    copy_number(out, b, file, e)
}

// Puts the `count` unpackers at c.
#[inline(always)]
fn copy_unpackers(
    out: &mut [u8],
    to: usize,
    file: &[u8],
    c: Cursor,
    count: u64,
) -> Result<(usize, Cursor), Refusal>
    requires { length file.now < 2 ^ 28 }
    ensures { Copies out.old out.new to result (run (times count (unpacker_text file.now) []) file.now c.at.0) }
{
    let mut next = to;
    let mut at = c;
    for _i in 0..count {
        let (a, d) = copy_unpacker(out, next, file, at)?;
        next = a;
        at = d;
    }
    Ok((next, at))
}

// Unpackers as they are written: how many bytes they have, and whether the file has these very bytes.
#[derive(Clone, Copy)]
pub struct Packed {
    pub size: usize,
    pub same: bool,
}

// Measures the unpackers of a node row. Those of a file that was read are never refused. Where the file has no more bytes than their shortest form, it has that form.
pub fn unpackers_of(file: &[u8], row: Node) -> Packed
    requires { length file.now < 2 ^ 28 }
    ensures { PackedAs file.now row result }
{
    let at = FilePlace(row.unpackers as usize);
    let Ok((size, d)) = copy_unpackers(&mut [], 0, file, Cursor { at }, row.unpacker_count) else {
        return Packed {
            size: 0,
            same: false,
        };
    };
    let end = d.at;
    if end.0 - at.0 != size || file.len() < end.0 {
        return Packed { size, same: false };
    }
    Packed { size, same: true }
}

// Puts the unpackers of a node row, which were measured, with their length.
pub fn put_unpackers(out: &mut [u8], to: usize, file: &[u8], row: Node, p: Packed) -> usize
    requires { (length file.now < 2 ^ 28) × PackedAs file.now row p }
    ensures { Counts out.old out.new to (sized (shape file.now row).unpackers) result }
{
    let a = vlq::put_number(out, to, p.size as u64);
    if p.size == 0 {
        return a;
    }
    let at = FilePlace(row.unpackers as usize);
    if p.same {
        return room::put_part(out, a, file, at.0, p.size);
    }
    match copy_unpackers(out, a, file, Cursor { at }, row.unpacker_count) {
        Err(_) => a,
        Ok((b, _)) => b,
    }
}

// Puts the entry of the types table at c.
fn copy_entry(out: &mut [u8], to: usize, file: &[u8], c: Cursor) -> Result<(usize, Cursor), Refusal>
    requires { length file.now < 2 ^ 28 }
    ensures { Copies out.old out.new to result (run (entry_text file.now []) file.now c.at.0) }
{
    let (a, d) = copy_number(out, to, file, c)?;
    let (b, e) = copy_number(out, a, file, d)?;
    let (size, name) = e.block(file, FilePlace(file.len()), Reason::CutShort)?;
    let first = name.at;
    let g = vlq::put_number(out, b, size);
    let h = room::put_part(out, g, file, first.0, size as usize);
    Ok((h, name.on(size)))
}

// Puts the `count` entries of the types table at c.
fn copy_entries(
    out: &mut [u8],
    to: usize,
    file: &[u8],
    c: Cursor,
    count: u64,
) -> Result<(usize, Cursor), Refusal>
    requires { length file.now < 2 ^ 28 }
    ensures { Copies out.old out.new to result (run (times count (entry_text file.now) []) file.now c.at.0) }
{
    let mut next = to;
    let mut at = c;
    for _i in 0..count {
        let (a, d) = copy_entry(out, next, file, at)?;
        next = a;
        at = d;
    }
    Ok((next, at))
}

// Puts the types table's count and entries; FileLength, which stands before the table, begins at c.
fn copy_table(out: &mut [u8], to: usize, file: &[u8], c: Cursor) -> Result<(usize, Cursor), Refusal>
    requires { length file.now < 2 ^ 28 }
    ensures { Copies out.old out.new to result (run (table_text file.now) file.now c.at.0) }
{
    let end = FilePlace(file.len());
    let (_, d) = c.number(file, end, Reason::CutShort)?;
    let (_, e) = d.block(file, end, Reason::CutShort)?;
    let (count, g) = e.number(file, end, Reason::CutShort)?;
    let a = vlq::put_number(out, to, count);
    copy_entries(out, a, file, g, count)
}

// Puts the types table with its length; FileLength, which stands before it, begins at `opening`. The table of a file that was read is never refused.
pub fn put_types(out: &mut [u8], to: usize, file: &[u8], opening: FilePlace) -> usize
    requires { length file.now < 2 ^ 28 }
    ensures { Counts out.old out.new to (sized (answer (run (table_text file.now) file.now opening.0))) result }
{
    let c = Cursor { at: opening };
    let Ok((n, _)) = copy_table(&mut [], 0, file, c) else {
        return vlq::put_number(out, to, 0);
    };
    let a = vlq::put_number(out, to, n as u64);
    match copy_table(out, a, file, c) {
        Err(_) => a,
        Ok((b, _)) => b,
    }
}
