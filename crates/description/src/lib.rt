// What the tune needs: reads a content description, which is the data of field 13, whole, and gives its count for a channel and a resource.
#![tactic(auto)]

ghost use Rattle.std.specs.Prelude.{◌≡◌, ◌≤◌, ◌<◌, ◌^◌, ◌*◌, ◌+◌, length};
ghost use Rattle.machine.specs.Machine.{run, times};
ghost use Rattle.cursor.specs.Told.{number_told, pass_told};
ghost use Rattle.rows.specs.Rows.{items_in, ItemIn, ItemRows};
ghost use Rattle.file.specs.Asking.{answered, nodes_left, items_left};
ghost use Rattle.description.specs.Row.{is_field, is_binary};
ghost use Rattle.description.specs.Description.{value, guid, identifier, resource, numbers, lists, table, description};
ghost use Rattle.description.specs.Count.{is_readable, count_of, count_in, count_row, count_for};
ghost use Rattle.description.specs.Told.{told, picked, found};

use cursor::{Cursor, FilePlace, Item};
use refusals::{Reason, Refusal};

// A number whose value is not kept.
fn read_value(c: Cursor, file: &[u8], end: FilePlace) -> Result<Cursor, Refusal>
    requires { end.0 ≤ length file.now }
    ensures { pass_told result ≡ run (value end.0) file.now c.at.0 }
{
    let (_, d) = c.number(file, end, Reason::CutShort)?;
    Ok(d)
}

// A GUID: sixteen plain bytes.
fn read_guid(c: Cursor, file: &[u8], end: FilePlace) -> Result<Cursor, Refusal>
    requires { end.0 ≤ length file.now }
    ensures { pass_told result ≡ run (guid end.0) file.now c.at.0 }
{
    let place = c.at;
    let at = place.0;
    if end.0 <= at {
        return Err(Refusal(Reason::CutShort, at));
    }
    if end.0 - at < 16 {
        return Err(Refusal(Reason::CutShort, at));
    }
    Ok(Cursor {
        at: FilePlace(at + 16),
    })
}

// What names a resource of the kind.
fn read_identifier(c: Cursor, file: &[u8], kind: u64, end: FilePlace) -> Result<Cursor, Refusal>
    requires { end.0 ≤ length file.now }
    ensures { pass_told result ≡ run (identifier kind end.0) file.now c.at.0 }
{
    if kind == 3 {
        return read_guid(c, file, end);
    }
    if kind == 5 {
        return read_guid(c, file, end);
    }
    if kind == 1 {
        let d = c.manufacturer(file, end)?;
        return read_value(d, file, end);
    }
    read_value(c, file, end)
}

// A resource: its kind, and what names it.
fn read_resource(c: Cursor, file: &[u8], end: FilePlace) -> Result<Cursor, Refusal>
    requires { end.0 ≤ length file.now }
    ensures { pass_told result ≡ run (resource end.0) file.now c.at.0 }
{
    let place = c.at;
    let (kind, d) = c.number(file, end, Reason::CutShort)?;
    if 5 < kind {
        return Err(Refusal(Reason::BadDescription, place.0));
    }
    read_identifier(d, file, kind, end)
}

// `count` resources.
fn read_resources(c: Cursor, file: &[u8], end: FilePlace, count: u64) -> Result<Cursor, Refusal>
    requires { end.0 ≤ length file.now }
    ensures { pass_told result ≡ run (times count (λ _. resource end.0) tt) file.now c.at.0 }
{
    let mut next = c;
    for i in 0..count {
        next = read_resource(next, file, end)?;
    }
    Ok(next)
}

// `count` numbers, of which the one at `index` is kept.
fn read_numbers(
    c: Cursor,
    file: &[u8],
    end: FilePlace,
    count: u64,
    index: u64,
) -> Result<(u64, Cursor), Refusal>
    requires { end.0 ≤ length file.now }
    ensures { number_told result ≡ picked index (run (numbers count end.0) file.now c.at.0) }
{
    let mut next = c;
    let mut kept = 0;
    for i in 0..count {
        let (v, d) = next.number(file, end, Reason::CutShort)?;
        next = d;
        if i == index {
            kept = v;
        }
    }
    Ok((kept, next))
}

// The resource list and the group list.
pub fn read_lists(c: Cursor, file: &[u8], end: FilePlace, resources: u64) -> Result<Cursor, Refusal>
    requires { end.0 ≤ length file.now }
    ensures { pass_told result ≡ run (lists resources end.0) file.now c.at.0 }
{
    let d = read_resources(c, file, end, resources)?;
    let (_, e) = read_numbers(d, file, end, resources, 0)?;
    Ok(e)
}

// Where the count of a channel and a resource stands in the table, if the table has them.
fn index_of(channels: u64, resources: u64, channel: u64, resource: u64) -> u64
    requires { (channels < 2 ^ 28) × (resources < 2 ^ 28) }
    ensures { channel < channels → resource < resources → result ≡ channel * resources + resource }
{
    if channels <= channel {
        return 0;
    }
    if resources <= resource {
        return 0;
    }
    channel * resources + resource
}

// The count table, after which the item ends: the count of a channel and a resource, if the table has them.
fn read_table(
    c: Cursor,
    file: &[u8],
    end: FilePlace,
    channels: u64,
    resources: u64,
    channel: u64,
    resource: u64,
) -> Result<Option<u64>, Refusal>
    requires { (end.0 ≤ length file.now) × (channels < 2 ^ 28) × (resources < 2 ^ 28) }
    ensures { told result ≡ found channel resource (run (table channels resources end.0) file.now c.at.0) }
{
    let index = index_of(channels, resources, channel, resource);
    let (count, d) = read_numbers(c, file, end, channels * resources, index)?;
    let after = d.at;
    if after.0 < end.0 {
        return Err(Refusal(Reason::BadDescription, after.0));
    }
    if channels <= channel {
        return Ok(None);
    }
    if resources <= resource {
        return Ok(None);
    }
    Ok(Some(count))
}

// A whole item, which is `size` bytes from `place` on: the count of a channel and a resource, if it has them.
fn read_description(
    file: &[u8],
    place: usize,
    size: usize,
    channel: u64,
    resource: u64,
) -> Result<Option<u64>, Refusal>
    requires { place + size ≤ length file.now }
    ensures { told result ≡ found channel resource (run (description (place + size)) file.now place) }
{
    let end = FilePlace(place + size);
    let c = Cursor {
        at: FilePlace(place),
    };
    let (_, d) = c.number(file, end, Reason::CutShort)?;
    let (channels, e) = d.number(file, end, Reason::CutShort)?;
    let (resources, g) = e.number(file, end, Reason::CutShort)?;
    let h = read_lists(g, file, end, resources)?;
    read_table(h, file, end, channels, resources, channel, resource)
}

// The count of a channel and a resource in such an item. Whatever is wrong in it, it is a bad description.
fn count_of(
    file: &[u8],
    place: usize,
    size: usize,
    channel: u64,
    resource: u64,
) -> Result<u64, Refusal>
    requires { place + size ≤ length file.now }
    ensures { told result ≡ count_of channel resource (run (description (place + size)) file.now place) }
{
    match read_description(file, place, size, channel, resource) {
        Err(Refusal(_, at)) => Err(Refusal(Reason::BadDescription, at)),
        Ok(None) => Err(Refusal(Reason::NoSuchItem, 0)),
        Ok(Some(count)) => Ok(count),
    }
}

// Whether the row's data, which lies in the file, is readable.
pub fn is_readable(file: &[u8], row: Item) -> bool
    requires { ItemIn (length file.now) row }
    ensures { result ≡ is_readable file.now row }
{
    read_description(file, row.place as usize, row.size as usize, 0, 0).is_ok()
}

// Whether the row is of the standard field.
#[tactic(auto, unfolding(crate::specs::Row::is_field))]
pub fn is_field(row: Item, field: u64) -> bool
    ensures { result ≡ is_field field row }
{
    row.kind == 0 && row.field == field
}

// Whether the row is universal, of format 6 or 7.
#[tactic(auto, unfolding(crate::specs::Row::is_binary))]
pub fn is_binary(row: Item) -> bool
    ensures { result ≡ is_binary row }
{
    row.version == 0 && (row.format == 6 || row.format == 7)
}

// The answer for a row whose data lies in the file.
pub fn count_in(file: &[u8], row: Item, channel: u64, resource: u64) -> Result<u64, Refusal>
    requires { ItemIn (length file.now) row }
    ensures { told result ≡ count_in file.now channel resource row }
{
    if !is_field(row, 13) {
        return Err(Refusal(Reason::NoSuchItem, 0));
    }
    if !is_binary(row) {
        return Err(Refusal(Reason::NoSuchItem, 0));
    }
    count_of(
        file,
        row.place as usize,
        row.size as usize,
        channel,
        resource,
    )
}

// The answer for an item row of an accepted file.
fn count_row(
    file: &[u8],
    items: &[u64],
    count: usize,
    row: usize,
    channel: u64,
    resource: u64,
) -> Result<u64, Refusal>
    requires { ItemRows (length file.now) count items.now }
    ensures { told result ≡ count_row file.now row channel resource (items_in count items.now) }
{
    if count <= row {
        return Err(Refusal(Reason::NoSuchRow, 0));
    }
    count_in(file, rows::item_at(items, row), channel, resource)
}

// Reads the file, and the content description that is the item row: its count of a channel and a resource.
pub fn count_for(
    file: &[u8],
    nodes: &mut [u64],
    items: &mut [u64],
    item_row: usize,
    channel: u64,
    resource: u64,
) -> Result<u64, Refusal>
    ensures answer { told result ≡ answered nodes.old items.old file.now (count_for item_row channel resource) }
    ensures nodes { nodes.new ≡ nodes_left nodes.old items.old file.now (count_for item_row channel resource) }
    ensures items { items.new ≡ items_left nodes.old items.old file.now (count_for item_row channel resource) }
{
    let s = file::read_file(file, nodes, items)?;
    let counted = count_row(file, items, s.items, item_row, channel, resource);
    if counted.is_err() {
        rows::clear_all(nodes, items);
    }
    counted
}
