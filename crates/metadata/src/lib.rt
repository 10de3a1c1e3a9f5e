// Metadata: the items of a node, and their rows in the item table.
#![tactic(auto)]

ghost use Rattle.std.specs.Prelude.{◌≡◌, List, ℕ, ◌≤◌, ◌<◌, ◌+◌, length};
ghost use Rattle.machine.specs.Machine.{run, times};
ghost use Rattle.cursor.specs.Told.{Readable};
ghost use Rattle.metadata.specs.Metadata.{field, contents, item_frame, row_of, universal, version, rows_for, item, meta_items, metadata};
ghost use Rattle.metadata.specs.Told.{ItemRoom, Room, counts, field_told, contents_told, item_told, CommonTold, Makes};

use cursor::{Cursor, FilePlace, Item};
use refusals::{Reason, Refusal};

// The rows that there is room for.
#[derive(Clone, Copy)]
pub struct Limits {
    pub nodes: usize,
    pub items: usize,
}

// The rows made so far.
#[derive(Clone, Copy)]
pub struct Made {
    pub nodes: usize,
    pub items: usize,
}

// What a node is read with: the limits, the number of declared types, the file header's end.
#[derive(Clone, Copy)]
pub struct Scope {
    pub limits: Limits,
    pub types: usize,
    pub header_end: FilePlace,
}

// An item's field: a standard number, or where its custom name stands and how long that is.
#[derive(Clone, Copy)]
pub enum Field {
    Standard(u64),
    Name(FilePlace, u64),
}

// An item's contents: universal, or a number of versions.
#[derive(Clone, Copy)]
pub enum Contents {
    Universal,
    Versions(u64),
}

#[derive(Clone, Copy)]
pub struct MetaItem {
    pub field: Field,
    pub contents: Contents,
}

// Whose row it is: the node's row, the item's number in the node, and its field.
#[derive(Clone, Copy)]
pub struct Label {
    pub node: usize,
    pub item: usize,
    pub field: Field,
}

// The field here: 0 and a standard number, or an XString, which is a custom name.
#[tactic(auto, using(header::proofs::Reading::reading), unfolding(crate::specs::Metadata::field))]
fn read_field(c: Cursor, file: &[u8], end: FilePlace) -> Result<(Field, Cursor), Refusal>
    requires { Readable end.0 file.now }
    ensures { field_told result ≡ run (field end.0) file.now c.at.0 }
{
    let (size, d) = c.block(file, end, Reason::CutShort)?;
    if size != 0 {
        return Ok((Field::Name(d.at, size), d.on(size)));
    }
    let (k, e) = d.number(file, end, Reason::CutShort)?;
    Ok((Field::Standard(k), e))
}

// The contents here: 0 for universal, or the number of versions.
#[tactic(auto, using(header::proofs::Reading::reading), unfolding(crate::specs::Metadata::contents))]
fn read_contents(c: Cursor, file: &[u8], end: FilePlace) -> Result<(Contents, Cursor), Refusal>
    requires { end.0 ≤ length file.now }
    ensures { contents_told result ≡ run (contents end.0) file.now c.at.0 }
{
    let (n, d) = c.number(file, end, Reason::CutShort)?;
    if n == 0 {
        return Ok((Contents::Universal, d));
    }
    Ok((Contents::Versions(n), d))
}

// An item's field and contents.
#[tactic(auto, using(header::proofs::Reading::reading), unfolding(crate::specs::Metadata::item_frame))]
fn read_frame(c: Cursor, file: &[u8], end: FilePlace) -> Result<(MetaItem, Cursor), Refusal>
    requires { Readable end.0 file.now }
    ensures { item_told result ≡ run (item_frame end.0) file.now c.at.0 }
{
    let (field, d) = read_field(c, file, end)?;
    let (contents, e) = read_contents(d, file, end)?;
    Ok((MetaItem { field, contents }, e))
}

// The row of a content of the labelled item.
fn row_of(
    l: Label,
    version: usize,
    declared: u64,
    format: u64,
    place: FilePlace,
    size: usize,
) -> Item
    ensures { result ≡ row_of l version declared format place.0 size }
{
    let (kind, field, name_length) = match l.field {
        Field::Standard(k) => (0, k, 0),
        Field::Name(at, n) => (1, at.0 as u64, n),
    };
    Item {
        node: l.node as u64,
        item: l.item as u64,
        kind,
        field,
        name_length,
        version: version as u64,
        declared,
        format,
        place: place.0 as u64,
        size: size as u64,
    }
}

// A universal content: a length of at least 1, which covers string format and data. Metadata makes item rows alone: this function and those below are
// given, as `rows`, the number of item rows that are there, and answer how many there are by then, and the cursor after what was read.
#[tactic(auto, using(crate::proofs::Filling::filling), unfolding(crate::specs::Metadata::universal))]
fn read_universal(
    c: Cursor,
    file: &[u8],
    items: &mut [u64],
    scope: Scope,
    l: Label,
    end: FilePlace,
    rows: usize,
) -> Result<(usize, Cursor), Refusal>
    requires { Readable end.0 file.now × ItemRoom scope items.old (counts l.node rows) }
    ensures { (ws : List ℕ) → Makes scope l.node rows (λ x. universal x l end.0) file.now ws items.old items.new c.at.0 result }
{
    let place = c.at;
    let limits = scope.limits;
    if limits.items <= rows {
        return Err(Refusal(Reason::NoRowLeft, place.0));
    }
    let (size, d) = c.block(file, end, Reason::CutShort)?;
    if size == 0 {
        return Err(Refusal(Reason::BadContents, place.0));
    }
    let after = d.on(size);
    let stop = after.at;
    let (format, e) = d.number(file, stop, Reason::CutShort)?;
    let data = e.at;
    rows::put_item(items, rows, row_of(l, 0, 0, format, data, stop.0 - data.0));
    Ok((rows + 1, after))
}

// A version: a declared type, a length and data. `before` item rows were there when its item began.
#[tactic(auto, using(crate::proofs::Filling::filling), unfolding(crate::specs::Metadata::version, crate::specs::Metadata::declared_format))]
fn read_version(
    c: Cursor,
    file: &[u8],
    types: &[u64],
    items: &mut [u64],
    scope: Scope,
    l: Label,
    end: FilePlace,
    before: usize,
    rows: usize,
) -> Result<(usize, Cursor), Refusal>
    requires { Room scope file.now types.now items.old end.0 (counts l.node rows) × (before ≤ rows) }
    ensures { Makes scope l.node rows (λ x. version x l end.0 before) file.now types.now items.old items.new c.at.0 result }
{
    let place = c.at;
    let limits = scope.limits;
    if limits.items <= rows {
        return Err(Refusal(Reason::NoRowLeft, place.0));
    }
    let (of, d) = c.number(file, end, Reason::CutShort)?;
    let Some(format) = header::format_of(types, scope.types, of) else {
        return Err(Refusal(Reason::BadContents, place.0));
    };
    let (size, e) = d.block(file, end, Reason::CutShort)?;
    let made = rows + 1;
    let number = made - before;
    rows::put_item(
        items,
        rows,
        row_of(l, number, of, format, e.at, size as usize),
    );
    Ok((made, e.on(size)))
}

// `count` versions, one after the other.
fn read_versions(
    c: Cursor,
    file: &[u8],
    types: &[u64],
    items: &mut [u64],
    scope: Scope,
    l: Label,
    end: FilePlace,
    count: u64,
    rows: usize,
) -> Result<(usize, Cursor), Refusal>
    requires { Room scope file.now types.now items.old end.0 (counts l.node rows) }
    ensures { Makes scope l.node rows (λ x. times count (version x l end.0 rows)) file.now types.now items.old items.new c.at.0 result }
{
    let mut next = c;
    let mut m = rows;
    for _ in 0..count {
        (m, next) = read_version(next, file, types, items, scope, l, end, rows, m)?;
    }
    Ok((m, next))
}

// The rows of an item's contents.
#[tactic(auto, using(crate::proofs::Filling::filling), unfolding(crate::specs::Metadata::rows_for))]
fn read_rows(
    c: Cursor,
    file: &[u8],
    types: &[u64],
    items: &mut [u64],
    scope: Scope,
    l: Label,
    end: FilePlace,
    contents: Contents,
    rows: usize,
) -> Result<(usize, Cursor), Refusal>
    requires { Room scope file.now types.now items.old end.0 (counts l.node rows) }
    ensures { Makes scope l.node rows (λ x. rows_for x l end.0 contents) file.now types.now items.old items.new c.at.0 result }
{
    match contents {
        Contents::Universal => read_universal(c, file, items, scope, l, end, rows),
        Contents::Versions(n) => read_versions(c, file, types, items, scope, l, end, n, rows),
    }
}

// The item here, the length of its content, and its string format, if it is in the common form: a standard field with a universal content, whose number,
// length and string format are one byte each.
fn read_common(c: Cursor, file: &[u8], end: FilePlace) -> Option<(MetaItem, u64, u64)>
    requires { end.0 ≤ length file.now }
    ensures { CommonTold result file.now end.0 c.at.0 }
{
    let at = c.at.0;
    if end.0 <= at || end.0 - at < 5 {
        return None;
    }
    let name = c.byte(file);
    if name.value != 0 {
        return None;
    }
    let number = name.next.byte(file);
    if 127 < number.value {
        return None;
    }
    let versions = number.next.byte(file);
    if versions.value != 0 {
        return None;
    }
    let size = versions.next.byte(file);
    if size.value == 0 || 127 < size.value {
        return None;
    }
    let format = size.next.byte(file);
    if 127 < format.value {
        return None;
    }
    let after = size.next.on(size.value);
    if end.0 < after.at.0 {
        return None;
    }
    let is = MetaItem {
        field: Field::Standard(number.value),
        contents: Contents::Universal,
    };
    Some((is, size.value, format.value))
}

// An item: its field, its contents, and their rows.
#[tactic(auto, using(crate::proofs::Filling::filling), unfolding(crate::specs::Metadata::item))]
fn read_item(
    c: Cursor,
    file: &[u8],
    types: &[u64],
    items: &mut [u64],
    scope: Scope,
    node: usize,
    index: usize,
    end: FilePlace,
    rows: usize,
) -> Result<(usize, Cursor), Refusal>
    requires { Room scope file.now types.now items.old end.0 (counts node rows) }
    ensures { Makes scope node rows (λ x. item x node index end.0) file.now types.now items.old items.new c.at.0 result }
{
    let limits = scope.limits;
    if rows < limits.items {
        // Most items are in the common form. Their row is made at once: without this a full file takes a third more time. Below is the way of any item.
        if let Some((is, size, format)) = read_common(c, file, end) {
            let l = Label {
                node,
                item: index,
                field: is.field,
            };
            let data = c.on(5);
            rows::put_item(
                items,
                rows,
                row_of(l, 0, 0, format, data.at, size as usize - 1),
            );
            return Ok((rows + 1, c.on(4 + size)));
        }
    }
    let (is, d) = read_frame(c, file, end)?;
    let l = Label {
        node,
        item: index,
        field: is.field,
    };
    read_rows(d, file, types, items, scope, l, end, is.contents, rows)
}

// Items end to end up to `end`.
fn read_items(
    c: Cursor,
    file: &[u8],
    types: &[u64],
    items: &mut [u64],
    scope: Scope,
    node: usize,
    end: FilePlace,
    rows: usize,
) -> Result<(usize, Cursor), Refusal>
    requires { Room scope file.now types.now items.old end.0 (counts node rows) }
    ensures { Makes scope node rows (λ x. meta_items x node end.0) file.now types.now items.old items.new c.at.0 result }
{
    let mut next = c;
    let mut m = rows;
    let mut index = 0;
    while next.at.0 < end.0 {
        (m, next) = read_item(next, file, types, items, scope, node, index, end, m)?;
        index = index + 1;
    }
    Ok((m, next))
}

// The metadata of a node whose header ends at `end`: a length, and items end to end. After a refusal nothing is said of the item table, which may
// hold some of the rows: `file::read_file` clears it then.
#[tactic(auto, using(crate::proofs::Filling::filling), unfolding(crate::specs::Metadata::metadata))]
pub fn read_metadata(
    c: Cursor,
    file: &[u8],
    types: &[u64],
    items: &mut [u64],
    scope: Scope,
    node: usize,
    end: FilePlace,
    rows: usize,
) -> Result<(usize, Cursor), Refusal>
    requires { Room scope file.now types.now items.old end.0 (counts node rows) }
    ensures { Makes scope node rows (λ x. metadata x node end.0) file.now types.now items.old items.new c.at.0 result }
{
    let (size, d) = c.block(file, end, Reason::BadNode)?;
    let after = d.on(size);
    read_items(d, file, types, items, scope, node, after.at, rows)
}
