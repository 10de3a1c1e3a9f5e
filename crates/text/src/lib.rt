// Bytes as text: a tab and a decimal number, bytes that stand for themselves, bytes in hex, UTF-16 as it is shown, and a version.
#![tactic(auto)]

ghost use Rattle.std.specs.Prelude.{◌≡◌, true, [], ◌≤◌, ◌<◌, ◌*◌, ◌+◌, ◌-◌, length};
ghost use Rattle.room.specs.Counts.{Counts};
ghost use Rattle.utf16.specs.Unicode.{utf8, to_utf8, is_good};
ghost use Rattle.text.specs.Text.{hex_digits, plain, hexed, escaped, escaped_part, shown, shown_or, unicode_text, number, version_text};
ghost use Rattle.text.specs.Inside.{PlainUpTo, letter, Letters, lows};

// Puts a tab and a decimal number.
pub fn put_number(out: &mut [u8], to: usize, n: u64) -> usize
    ensures { Counts out.old out.new to (number n) result }
{
    let next = room::put_byte(out, to, 0x09);
    room::put_decimal(out, next, n)
}

// Whether a byte stands for itself.
#[tactic(auto, using(std::proofs::lemmas::Bool::Decides::nat_tests), unfolding(crate::specs::Text::plain))]
pub fn is_plain(byte: u8) -> bool
    ensures { result ≡ plain byte }
{
    0x20 <= byte && byte <= 0x7e && byte != 0x5c
}

// The lower-case hex digits.
#[tactic(auto, unfolding(crate::specs::Text::hex_digits))]
pub fn hex_digits() -> [u8; 16]
    ensures { result ≡ hex_digits }
{
    *b"0123456789abcdef"
}

// Puts a byte as a backslash and two hex digits.
fn put_hex(out: &mut [u8], to: usize, byte: u8, hex: &[u8; 16]) -> usize
    requires { hex.now ≡ hex_digits }
    ensures { Counts out.old out.new to (hexed byte) result }
{
    if room::room_at(out.len(), 2) <= to {
        return room::on(to, 3);
    }
    out[to] = 0x5c;
    out[to + 1] = hex[(byte / 16) as usize];
    out[to + 2] = hex[(byte % 16) as usize];
    to + 3
}

// Puts one byte as text.
fn put_escaped_byte(out: &mut [u8], to: usize, byte: u8) -> usize
    ensures { Counts out.old out.new to (escaped byte) result }
{
    if is_plain(byte) {
        return room::put_byte(out, to, byte);
    }
    let hex = hex_digits();
    put_hex(out, to, byte, &hex)
}

// Where the bytes from `from` on that stand for themselves end.
fn plain_end(file: &[u8], from: usize, end: usize) -> usize
    requires { (from ≤ end) × (end ≤ length file.now) }
    ensures { PlainUpTo file.now from result × (result ≤ end) }
{
    for at in from..end {
        if !is_plain(file[at]) {
            return at;
        }
    }
    end
}

// Where bytes that were put end: in the room and in the file.
#[derive(Clone, Copy)]
struct Run {
    next: usize,
    at: usize,
}

// Puts the bytes from `from` on up to the first that stands for itself, in hex.
fn put_hexes(out: &mut [u8], to: usize, file: &[u8], from: usize, end: usize, hex: &[u8; 16]) -> Run
    requires { (hex.now ≡ hex_digits) × (from ≤ end) × (end ≤ length file.now) }
    ensures { (from ≤ result.at) × (result.at ≤ end) × Counts out.old out.new to (escaped_part file.now from (result.at - from)) result.next }
{
    let mut next = to;
    for at in from..end {
        let byte = file[at];
        if is_plain(byte) {
            return Run { next, at };
        }
        next = put_hex(out, next, byte, hex);
    }
    Run { next, at: end }
}

// Puts `size` bytes of the file as text. Bytes that stand for themselves are put together, and so are bytes in hex.
pub fn put_escaped(out: &mut [u8], to: usize, file: &[u8], from: usize, size: usize) -> usize
    requires { from + size ≤ length file.now }
    ensures { Counts out.old out.new to (escaped_part file.now from size) result }
{
    let end = from + size;
    let hex = hex_digits();
    let mut next = to;
    let mut at = from;
    while at < end {
        let byte = file[at];
        if is_plain(byte) {
            let stop = plain_end(file, at + 1, end);
            next = room::put_part(out, next, file, at, stop - at);
            at = stop;
        } else {
            let one = put_hex(out, next, byte, &hex);
            let run = put_hexes(out, one, file, at + 1, end, &hex);
            next = run.next;
            at = run.at;
        }
    }
    next
}

// Puts the version: 100 is `1.00`.
pub fn put_version(out: &mut [u8], to: usize, version: u64) -> usize
    ensures { Counts out.old out.new to (version_text version) result }
{
    let one = room::put_decimal(out, to, version / 100);
    let two = room::put_byte(out, one, b'.');
    let three = room::put_decimal(out, two, version / 10 % 10);
    room::put_decimal(out, three, version % 10)
}

// Puts a character of a converted text: a byte below 80h as text, another character as itself.
fn put_shown_char(out: &mut [u8], to: usize, c: u64) -> usize
    requires { c < 0x110000 }
    ensures { Counts out.old out.new to (shown (utf8 c)) result }
{
    if c < 0x80 {
        return put_escaped_byte(out, to, c as u8);
    }
    utf16::put8(out, to, c)
}

// Whether the unit at a place is a byte that stands for itself.
#[tactic(auto, using(std::proofs::lemmas::Bool::Decides::nat_tests), unfolding(crate::specs::Inside::letter))]
fn is_letter(units: &[u8], at: usize) -> bool
    requires { at + 2 ≤ length units.now }
    ensures { result ≡ letter units.now at }
{
    units[at] == 0 && is_plain(units[at + 1])
}

// How many such units follow each other from a place on.
fn letters(units: &[u8], from: usize) -> usize
    requires { from ≤ length units.now }
    ensures { Letters units.now from result }
{
    let most = (units.len() - from) / 2;
    for n in 0..most {
        if !is_letter(units, from + 2 * n) {
            return n;
        }
    }
    most
}

// The same where the first character is known: one from 80h up is none of them.
fn letters_with(units: &[u8], from: usize, first: u64) -> usize
    requires { from ≤ length units.now }
    ensures { Letters units.now from result }
{
    if 0x80 <= first {
        return 0;
    }
    letters(units, from)
}

// Whether the last unit is such a byte.
fn ends_in_letter(units: &[u8]) -> bool {
    let size = units.len();
    2 <= size && is_letter(units, size - 2)
}

// Puts the low bytes of `size` units.
fn put_lows(out: &mut [u8], to: usize, units: &[u8], from: usize, size: usize) -> usize
    requires { from + 2 * size ≤ length units.now }
    ensures { Counts out.old out.new to (lows units.now from size) result }
{
    if room::room_at(out.len(), to) < size {
        return room::on(to, size);
    }
    for i in 0..size {
        out[to + i] = units[from + 2 * i + 1];
    }
    to + size
}

// Puts UTF-16 that converts, as it is shown. Letters that stand for themselves are put together.
fn put_shown(out: &mut [u8], to: usize, units: &[u8]) -> usize
    requires { is_good (to_utf8 units.now) ≡ true }
    ensures { Counts out.old out.new to (shown_or (to_utf8 units.now) []) result }
{
    let mut at = utf16::after_mark(units);
    let mut next = to;
    while at < units.len() {
        match utf16::char16(units, at) {
            None => {
                return next;
            }
            Some((value, size)) => {
                let n = letters_with(units, at, value);
                if 0 < n {
                    next = put_lows(out, next, units, at, n);
                    at = at + 2 * n;
                } else {
                    next = put_shown_char(out, next, value);
                    at = at + size;
                }
            }
        }
    }
    next
}

// Puts `size` bytes of the file, which are UTF-16: converted, or as text where they do not convert. Where all units are letters that stand for themselves, they convert; the last one tells most texts of which that is not so.
pub fn put_unicode(out: &mut [u8], to: usize, file: &[u8], from: usize, size: usize) -> usize
    requires { from + size ≤ length file.now }
    ensures { Counts out.old out.new to (unicode_text file.now from size) result }
{
    let end = from + size;
    if ends_in_letter(&file[from..end]) {
        let mark = utf16::after_mark(&file[from..end]);
        let n = letters(&file[from..end], mark);
        if mark + 2 * n == size {
            return put_lows(out, to, &file[from..end], mark, n);
        }
    }
    if utf16::converts(&file[from..end]) {
        return put_shown(out, to, &file[from..end]);
    }
    put_escaped(out, to, file, from, size)
}
