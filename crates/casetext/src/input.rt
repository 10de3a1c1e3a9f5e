// Numbers and bytes read from a field.
ghost use Rattle.std.specs.Prelude.{◌≡◌, ◌≤◌};
ghost use Rattle.casetext.specs.Text.{digit_of, Spells, SpellsBytes};
ghost use Rattle.io.specs.Counts.{IsPrefixLen};

use crate::fields::field;

// How many bytes were decoded, and whether they are all that the field spells.
#[derive(Clone, Copy)]
pub struct Decoded {
    pub count: usize,
    pub right: bool,
}

// Reads a decimal number that a word holds.
pub fn read_decimal(digits: &[u8]) -> Option<usize>
    ensures { Spells digits.now result }
{
    if digits.is_empty() {
        return None;
    }
    let mut value: usize = 0;
    for b in digits {
        let d = digit(*b);
        if d > 9 {
            return None;
        }
        value = value.checked_mul(10)?.checked_add(usize::from(d))?;
    }
    Some(value)
}

// The value of a lower-case hex digit, and 16 for any other byte.
fn digit(b: u8) -> u8
    ensures { (result ≡ digit_of b) × (result ≤ 16) }
{
    match b {
        b'0'..=b'9' => b - b'0',
        b'a'..=b'f' => b - b'a' + 10,
        _ => 16,
    }
}

// Decodes lower-case hex, two digits to a byte, into the start of `bytes`; a single `-` stands for no bytes.
pub fn read_hex(digits: &[u8], bytes: &mut [u8]) -> Decoded
    ensures { SpellsBytes digits.now bytes.new result.count result.right }
{
    if digits.len() == 1 {
        return Decoded {
            count: 0,
            right: digits[0] == b'-',
        };
    }
    let count = digits.len() / 2;
    if count > bytes.len() {
        return Decoded {
            count: 0,
            right: false,
        };
    }
    for n in 0..count {
        let high = digit(digits[2 * n]);
        let low = digit(digits[2 * n + 1]);
        if high > 15 || low > 15 {
            return Decoded {
                count: 0,
                right: false,
            };
        }
        bytes[n] = high * 16 + low;
    }
    Decoded {
        count,
        right: digits.len() == count * 2,
    }
}

// The field with this index as a decimal number of at most `most`; 0 where it is none.
pub fn read_number(line: &[u8], index: usize, most: usize) -> usize
    ensures { result ≤ most }
{
    match read_decimal(field(line, index)) {
        Some(n) if n <= most => n,
        _ => 0,
    }
}

// Decodes the field with this index into the start of `bytes`, and answers how many there are; 0 where it spells none, or more than have room.
pub fn read_bytes(line: &[u8], index: usize, bytes: &mut [u8]) -> usize
    ensures { IsPrefixLen result bytes.new }
{
    let decoded = read_hex(field(line, index), bytes);
    if decoded.right { decoded.count } else { 0 }
}
