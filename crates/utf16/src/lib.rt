// UTF-16, high byte first, into UTF-8 and back.
#![tactic(auto)]

ghost use Rattle.std.specs.Prelude.{◌≡◌, ◌∷◌, [], ◌≤◌, ◌<◌, ◌*◌, ◌+◌, ◌-◌, ◌/◌, ◌%◌, length, get_or, drop};
ghost use Rattle.room.specs.Counts.{Counts};
ghost use Rattle.room.specs.Room.{fitting, counted, kept};
ghost use Rattle.utf16.specs.Unicode.{bytes_of, utf8, bytes16, first16, tails, first8, converted, to_utf8, to_utf16, is_good};
ghost use Rattle.utf16.specs.Told.{char_told};
ghost use Rattle.refusals.specs.Told.{told};

use refusals::{Reason, Refusal};

// The unit at a place, the high byte first.
fn unit(units: &[u8], at: usize) -> u64
    requires { at + 2 ≤ length units.now }
    ensures value { result ≡ get_or units.now at 0 * 256 + get_or units.now (at + 1) 0 }
    ensures upper_bound { result < 65536 }
{
    let high = cursor::wide(units[at]);
    let low = cursor::wide(units[at + 1]);
    high * 256 + low
}

// The character of UTF-16 at a place: its scalar value and how many bytes it takes.
pub fn char16(units: &[u8], at: usize) -> Option<(u64, usize)>
    ensures { char_told result ≡ first16 (drop at units.now) }
{
    let left = room::room_at(units.len(), at);
    if left < 2 {
        return None;
    }
    let u = unit(units, at);
    if u < 0xd800 {
        return Some((u, 2));
    }
    if 0xe000 <= u {
        return Some((u, 2));
    }
    if 0xdc00 <= u {
        return None;
    }
    if left < 4 {
        return None;
    }
    let v = unit(units, at + 2);
    if v < 0xdc00 {
        return None;
    }
    if 0xe000 <= v {
        return None;
    }
    Some((0x10000 + (u - 0xd800) * 1024 + (v - 0xdc00), 4))
}

// The last six bits of a number, as a byte after the first.
fn tail(c: u64) -> u8
    ensures { result ≡ 0x80 + c % 64 }
{
    (0x80 + c % 64) as u8
}

// Puts a scalar value as UTF-8.
pub fn put8(out: &mut [u8], to: usize, c: u64) -> usize
    requires { c < 0x110000 }
    ensures { Counts out.old out.new to (utf8 c) result }
{
    if c < 0x80 {
        return room::put_byte(out, to, c as u8);
    }
    if c < 0x800 {
        let one = room::put_byte(out, to, (0xc0 + c / 64) as u8);
        return room::put_byte(out, one, tail(c));
    }
    if c < 0x10000 {
        let one = room::put_byte(out, to, (0xe0 + c / 4096) as u8);
        let two = room::put_byte(out, one, tail(c / 64));
        return room::put_byte(out, two, tail(c));
    }
    let one = room::put_byte(out, to, (0xf0 + c / 262144) as u8);
    let two = room::put_byte(out, one, tail(c / 4096));
    let three = room::put_byte(out, two, tail(c / 64));
    room::put_byte(out, three, tail(c))
}

// The character whose first byte gave `lead`: `count` bytes of six bits follow from `from` on; it has `size` bytes in all, and no shorter form where
// its value is at least `low`.
fn read_tails(
    text: &[u8],
    from: usize,
    count: usize,
    lead: u64,
    size: usize,
    low: u64,
) -> Option<(u64, usize)>
    requires { (count ≤ 3) × (lead < 64) × (from ≤ length text.now) }
    ensures { char_told result ≡ tails count lead size low (drop from text.now) }
{
    let mut v = lead;
    for at in from..from + count {
        if text.len() <= at {
            return None;
        }
        let b = cursor::wide(text[at]);
        if b < 0x80 {
            return None;
        }
        if 0xc0 <= b {
            return None;
        }
        v = v * 64 + (b - 0x80);
    }
    if v < low {
        return None;
    }
    if v < 0xd800 {
        return Some((v, size));
    }
    if v < 0xe000 {
        return None;
    }
    if v < 0x110000 {
        return Some((v, size));
    }
    None
}

// The character of UTF-8 at a place: its scalar value and how many bytes it takes.
pub fn char8(text: &[u8], at: usize) -> Option<(u64, usize)>
    ensures { char_told result ≡ first8 (drop at text.now) }
{
    if text.len() <= at {
        return None;
    }
    let b = cursor::wide(text[at]);
    if b < 0x80 {
        return Some((b, 1));
    }
    if b < 0xc0 {
        return None;
    }
    if b < 0xe0 {
        return read_tails(text, at + 1, 1, b - 0xc0, 2, 0x80);
    }
    if b < 0xf0 {
        return read_tails(text, at + 1, 2, b - 0xe0, 3, 0x800);
    }
    if b < 0xf8 {
        return read_tails(text, at + 1, 3, b - 0xf0, 4, 0x10000);
    }
    None
}

// Puts a unit, the high byte first.
fn put_unit(out: &mut [u8], to: usize, u: u64) -> usize
    requires { u < 65536 }
    ensures { Counts out.old out.new to (bytes_of (u ∷ [])) result }
{
    let one = room::put_byte(out, to, (u / 256) as u8);
    room::put_byte(out, one, (u % 256) as u8)
}

// Puts a scalar value as UTF-16.
pub fn put16(out: &mut [u8], to: usize, c: u64) -> usize
    requires { c < 0x110000 }
    ensures { Counts out.old out.new to (bytes16 c) result }
{
    if c < 0x10000 {
        return put_unit(out, to, c);
    }
    let one = put_unit(out, to, 0xd800 + (c - 0x10000) / 1024);
    put_unit(out, one, 0xdc00 + (c - 0x10000) % 1024)
}

// The place after a leading mark.
pub fn after_mark(units: &[u8]) -> usize
    ensures units_value { to_utf8 units.now ≡ converted first16 utf8 result (drop result units.now) }
    ensures upper_bound { result ≤ length units.now }
{
    match char16(units, 0) {
        None => 0,
        Some((value, size)) => {
            if value == 0xfeff {
                return size;
            }
            0
        }
    }
}

// Converts UTF-16 into UTF-8.
pub fn to_utf8(units: &[u8], text: &mut [u8]) -> Result<usize, Refusal>
    ensures answer { told result ≡ counted (fitting (length text.old) (to_utf8 units.now)) }
    ensures text { text.new ≡ kept (length text.old) (fitting (length text.old) (to_utf8 units.now)) }
{
    let mut at = after_mark(units);
    let mut next = 0;
    while at < units.len() {
        match char16(units, at) {
            None => {
                text.fill(0);
                return Err(Refusal(Reason::BadText, at));
            }
            Some((value, size)) => {
                next = put8(text, next, value);
                at = at + size;
            }
        }
    }
    if text.len() < next {
        text.fill(0);
        return Err(Refusal(Reason::NoRoom, 0));
    }
    room::fill_from(text, next, 0);
    Ok(next)
}

// Converts UTF-8 into UTF-16.
pub fn to_utf16(text: &[u8], units: &mut [u8]) -> Result<usize, Refusal>
    ensures answer { told result ≡ counted (fitting (length units.old) (to_utf16 text.now)) }
    ensures units { units.new ≡ kept (length units.old) (fitting (length units.old) (to_utf16 text.now)) }
{
    let mut at = 0;
    let mut next = 0;
    while at < text.len() {
        match char8(text, at) {
            None => {
                units.fill(0);
                return Err(Refusal(Reason::BadText, at));
            }
            Some((value, size)) => {
                next = put16(units, next, value);
                at = at + size;
            }
        }
    }
    if units.len() < next {
        units.fill(0);
        return Err(Refusal(Reason::NoRoom, 0));
    }
    room::fill_from(units, next, 0);
    Ok(next)
}

// Whether UTF-16 converts.
pub fn converts(units: &[u8]) -> bool
    ensures { result ≡ is_good (to_utf8 units.now) }
{
    let mut at = 0;
    while at < units.len() {
        match char16(units, at) {
            None => {
                return false;
            }
            Some((_, size)) => {
                at = at + size;
            }
        }
    }
    true
}
