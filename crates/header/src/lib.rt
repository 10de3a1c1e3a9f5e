// The file header: version, type and revision, the declared types, and where the tree lies.
#![tactic(auto)]

ghost use Rattle.std.specs.Prelude.{◌≡◌, ◌∷◌, [], ◌++◌, ◌≤◌, ◌<◌, ◌+◌, ◌*◌, ◌^◌, length, IfOk};
ghost use Rattle.machine.specs.Machine.{run, times};
ghost use Rattle.cursor.specs.Told.{Readable, number_told, pass_told};
ghost use Rattle.refusals.specs.Reasons.{number_of};
ghost use Rattle.header.specs.Types.{types_of, format_of, found_told};
ghost use Rattle.header.specs.Header.{four, opening, edition, file_length, entry, types_table, extent, header};
ghost use Rattle.header.specs.Told.{edition_told, entry_told, types_told, Listed, extent_told, header_told, Few};

use cursor::{Cursor, FilePlace};
use refusals::{Reason, Refusal};

// The most types that are declared; a table of types has two words for each: the type and its string format.
pub const MOST_TYPES: usize = 32;

// The file's type and its revision; both 0 before version 2.00.
#[derive(Clone, Copy)]
pub struct Edition {
    pub kind: u64,
    pub revision: u64,
}

// The tree's first and last byte, and the header's end.
#[derive(Clone, Copy)]
pub struct Extent {
    pub start: FilePlace,
    pub last: FilePlace,
    pub end: FilePlace,
}

// What the header says. The types stand in the lent table; `types` is their number. The version is 100, 101 or 200.
#[derive(Clone, Copy)]
pub struct Header {
    pub version: u64,
    pub edition: Edition,
    pub types: usize,
    pub extent: Extent,
}

// The format of a type, if it is declared.
pub fn format_of(types: &[u64], count: usize, of: u64) -> Option<u64>
    requires { count * 2 ≤ length types.now }
    ensures { found_told result ≡ format_of (types_of count types.now) of }
{
    for i in 0..count {
        if types[i * 2] == of {
            return Some(types[i * 2 + 1]);
        }
    }
    None
}

// Four bytes as one number, high byte first.
#[tactic(auto, using(crate::proofs::Reading::reading), unfolding(crate::specs::Header::four, cursor::specs::Leaves::next))]
fn read_four(c: Cursor, file: &[u8], end: FilePlace, past: Reason) -> Result<(u64, Cursor), Refusal>
    requires { (end.0 ≤ length file.now) × (c.at.0 ≤ end.0) }
    ensures value { number_told result ≡ run (four (number_of past) end.0) file.now c.at.0 }
    ensures inside { IfOk result (λ r. r.1.at.0 ≤ end.0) }
{
    let place = c.at;
    let at = place.0;
    if end.0 - at < 4 {
        return Err(Refusal(past, at));
    }
    let value = u32::from_be_bytes([file[at], file[at + 1], file[at + 2], file[at + 3]]);
    Ok((value as u64, c.on(4)))
}

// `XMF_` and the version: 100, 101 or 200.
#[tactic(auto, using(crate::proofs::Reading::reading), unfolding(crate::specs::Header::opening))]
pub fn read_opening(file: &[u8]) -> Result<(u64, Cursor), Refusal>
    ensures { number_told result ≡ run (opening (length file.now)) file.now 0 }
{
    let size = file.len();
    if 268435455 < size {
        return Err(Refusal(Reason::TooLarge, 0));
    }
    if size < 8 {
        return Err(Refusal(Reason::NotXmf, 0));
    }
    let first = Cursor { at: FilePlace(0) };
    let end = FilePlace(size);
    let (magic, c) = read_four(first, file, end, Reason::NotXmf)?;
    if magic != 0x584D465F {
        return Err(Refusal(Reason::NotXmf, 0));
    }
    let (version, d) = read_four(c, file, end, Reason::BadVersion)?;
    match version {
        0x312E3030 => Ok((100, d)),
        0x312E3031 => Ok((101, d)),
        0x322E3030 => Ok((200, d)),
        _ => Err(Refusal(Reason::BadVersion, 4)),
    }
}

// The type and the revision, which 2.00 has.
#[tactic(auto, using(crate::proofs::Reading::reading), unfolding(crate::specs::Header::edition))]
pub fn read_edition(c: Cursor, file: &[u8], version: u64) -> Result<(Edition, Cursor), Refusal>
    requires { c.at.0 ≤ length file.now }
    ensures { edition_told result ≡ run (edition (length file.now) version) file.now c.at.0 }
{
    if version != 200 {
        let none = Edition {
            kind: 0,
            revision: 0,
        };
        return Ok((none, c));
    }
    let end = FilePlace(file.len());
    let (kind, d) = read_four(c, file, end, Reason::CutShort)?;
    let (revision, e) = read_four(d, file, end, Reason::CutShort)?;
    Ok((Edition { kind, revision }, e))
}

// FileLength, which is the number of bytes lent.
#[tactic(auto, using(crate::proofs::Reading::reading), unfolding(crate::specs::Header::file_length))]
fn read_length(c: Cursor, file: &[u8]) -> Result<Cursor, Refusal>
    ensures { pass_told result ≡ run (file_length (length file.now)) file.now c.at.0 }
{
    let place = c.at;
    let size = file.len();
    let (n, d) = c.number(file, FilePlace(size), Reason::CutShort)?;
    if n as usize != size {
        return Err(Refusal(Reason::WrongLength, place.0));
    }
    Ok(d)
}

// An entry of the types table, which ends at `end`, behind `count` others.
#[tactic(auto, using(crate::proofs::Reading::declaring), unfolding(crate::specs::Header::entry))]
fn read_entry(
    c: Cursor,
    file: &[u8],
    types: &mut [u64],
    count: usize,
    end: FilePlace,
) -> Result<Cursor, Refusal>
    requires { Readable end.0 file.now × (64 ≤ length types.old) × (count ≤ 32) }
    ensures { entry_told result (types_of (count + 1) types.new) ≡ run (entry end.0 (types_of count types.old)) file.now c.at.0 }
{
    let place = c.at;
    let (of, d) = c.number(file, end, Reason::CutShort)?;
    if MOST_TYPES <= count || format_of(types, count, of).is_some() {
        return Err(Refusal(Reason::BadType, place.0));
    }
    let (format, e) = d.number(file, end, Reason::CutShort)?;
    let (size, name) = e.block(file, end, Reason::CutShort)?;
    room::store(types, count * 2, &[of, format]);
    Ok(name.on(size))
}

// The entries of the types table, which ends at `end`: their number, and the cursor after them.
fn read_entries(
    c: Cursor,
    file: &[u8],
    types: &mut [u64],
    count: u64,
    end: FilePlace,
) -> Result<(usize, Cursor), Refusal>
    requires { Readable end.0 file.now × (64 ≤ length types.old) }
    ensures types_value { types_told result types.new ≡ run (times count (entry end.0) []) file.now c.at.0 }
    ensures listed { Listed result }
{
    let mut next = c;
    for made in 0..count as usize {
        next = read_entry(next, file, types, made, end)?;
    }
    Ok((count as usize, next))
}

// MetaDataTypesTable: the number of declared types, and the cursor after their table.
#[tactic(auto, using(crate::proofs::Reading::reading), unfolding(crate::specs::Header::types_table))]
pub fn read_types(c: Cursor, file: &[u8], types: &mut [u64]) -> Result<(usize, Cursor), Refusal>
    requires { (length file.now < 2 ^ 28) × (64 ≤ length types.old) }
    ensures types_value { types_told result types.new ≡ run (types_table (length file.now)) file.now c.at.0 }
    ensures listed { Listed result }
{
    let (size, d) = c.block(file, FilePlace(file.len()), Reason::CutShort)?;
    let end = d.on(size).at;
    let (count, e) = d.number(file, end, Reason::CutShort)?;
    let (made, after) = read_entries(e, file, types, count, end)?;
    let left = after.at;
    if left.0 < end.0 {
        return Err(Refusal(Reason::BytesLeft, left.0));
    }
    Ok((made, after))
}

// TreeStart and TreeEnd, and the header's end.
#[tactic(auto, using(crate::proofs::Reading::reading), unfolding(crate::specs::Header::extent))]
fn read_extent(c: Cursor, file: &[u8]) -> Result<Extent, Refusal>
    ensures { extent_told result ≡ run (extent (length file.now)) file.now c.at.0 }
{
    let place = c.at;
    let size = file.len();
    let all = FilePlace(size);
    let (start, d) = c.number(file, all, Reason::CutShort)?;
    let second = d.at;
    let (last, e) = d.number(file, all, Reason::CutShort)?;
    let end = e.at;
    if (start as usize) < end.0 {
        return Err(Refusal(Reason::BadTree, place.0));
    }
    if last < start || size <= last as usize {
        return Err(Refusal(Reason::BadTree, second.0));
    }
    Ok(Extent {
        start: FilePlace(start as usize),
        last: FilePlace(last as usize),
        end,
    })
}

// The whole file header; the declared types go into the lent table. Called by `file::read_file` alone, which lends a table of its own and does not
// look at it after a refusal: nothing is said of it then.
#[tactic(auto, using(crate::proofs::Reading::reading), unfolding(crate::specs::Header::header))]
pub fn read_header(file: &[u8], types: &mut [u64]) -> Result<Header, Refusal>
    requires { 64 ≤ length types.old }
    ensures answer { header_told result types.new ≡ run (header (length file.now)) file.now 0 }
    ensures listed { Few result }
{
    let (version, c) = read_opening(file)?;
    let (edition, d) = read_edition(c, file, version)?;
    let e = read_length(d, file)?;
    let (count, g) = read_types(e, file, types)?;
    let extent = read_extent(g, file)?;
    Ok(Header {
        version,
        edition,
        types: count,
        extent,
    })
}
