// Where the resource of a row is, and the resource itself.
#![tactic(auto)]

ghost use Rattle.std.specs.Prelude.{length};
ghost use Rattle.room.specs.Counts.{Counts};
ghost use Rattle.lines.specs.Answer.{Gives};
ghost use Rattle.places.specs.Places.{place_line, place_answer, resource_answer, origin_line, origin_answer};

use lines::{Made, conclude, refuse};
use resolve::Resolved;

// Puts the line of a resource: place, length, the row whose unpackers apply, the number of references followed.
fn put_place(out: &mut [u8], r: Resolved) -> usize
    ensures { Counts out.old out.new 0 (place_line (record { place = r.place.0; size = r.size; row = r.last; hops = r.hops })) result }
{
    let a = room::put_byte(out, 0, b'P');
    let b = text::put_number(out, a, r.place.0 as u64);
    let c = text::put_number(out, b, r.size as u64);
    let d = text::put_number(out, c, r.last as u64);
    let e = text::put_number(out, d, r.hops);
    room::put_byte(out, e, 0x0a)
}

pub fn make_place(file: &[u8], row: usize, text: &mut [u8]) -> Made
    ensures { Gives (length text.old) result text.new (place_answer (length text.old) row file.now) }
{
    let mut nodes = program::node_table();
    let mut items = program::item_table();
    match resolve::resolve(file, &mut nodes, &mut items, row) {
        Err(e) => refuse(text, b"", e),
        Ok(r) => {
            let end = put_place(text, r);
            conclude(text, b"", end, 0)
        }
    }
}

// The bytes of the resource.
pub fn make_resource(file: &[u8], row: usize, text: &mut [u8]) -> Made
    ensures { Gives (length text.old) result text.new (resource_answer (length text.old) row file.now) }
{
    let mut nodes = program::node_table();
    let mut items = program::item_table();
    match resolve::resolve(file, &mut nodes, &mut items, row) {
        Err(e) => refuse(text, b"", e),
        Ok(r) => {
            let end = room::put_part(text, 0, file, r.place.0, r.size);
            conclude(text, b"", end, 0)
        }
    }
}

// Puts where a resource comes from. What a reference 2 names may be any bytes of the file.
fn put_origin(out: &mut [u8], r: Resolved, reference: u64) -> usize
    ensures { Counts out.old out.new 0 (origin_line reference (record { place = r.place.0; size = r.size; row = r.last; hops = r.hops })) result }
{
    let a = room::put_decimal(out, 0, r.size as u64);
    let b = room::put_bytes(out, a, b" bytes from byte ");
    let c = room::put_decimal(out, b, r.place.0 as u64);
    if reference == 2 {
        return room::put_bytes(out, c, b", which may hold hidden data\n");
    }
    room::put_byte(out, c, 0x0a)
}

pub fn make_origin(file: &[u8], row: usize, text: &mut [u8]) -> Made
    ensures { Gives (length text.old) result text.new (origin_answer (length text.old) row file.now) }
{
    let mut nodes = program::node_table();
    let mut items = program::item_table();
    match resolve::resolve(file, &mut nodes, &mut items, row) {
        Err(e) => refuse(text, b"", e),
        Ok(r) => {
            let reference = rows::node_at(&nodes, r.last).reference;
            let end = put_origin(text, r, reference);
            conclude(text, b"", end, 0)
        }
    }
}
