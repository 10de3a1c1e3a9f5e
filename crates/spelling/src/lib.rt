// What the words of a command line spell: a number, bytes in hex, the descriptor for the status; and what is asked of a title's bytes and of a file's name.
#![tactic(auto)]

ghost use Rattle.std.specs.Prelude.{◌≡◌, length};
ghost use Rattle.io.specs.Counts.{IsPrefixLen};
ghost use Rattle.spelling.specs.Spelling.{number_of, hex_value, Spelt, descriptor_of, Names, has_high, LastSlash, if_within};

// The decimal number that a word spells, where one that is too large stands for the largest that a word holds; or no number.
pub fn decimal(word: &[u8]) -> Option<u64>
    ensures { result ≡ number_of word.now }
{
    if word.is_empty() {
        return None;
    }
    let mut value: u64 = 0;
    for b in word {
        match *b {
            b'0'..=b'9' => {
                let digit = u64::from(*b - b'0');
                value = value.saturating_mul(10).saturating_add(digit);
            }
            _ => return None,
        }
    }
    Some(value)
}

// The value of a hex digit; 16 for any other byte.
fn digit(b: u8) -> u8
    ensures { result ≡ hex_value b }
{
    match b {
        b'0'..=b'9' => b - b'0',
        b'A'..=b'F' => b - b'A' + 10,
        b'a'..=b'f' => b - b'a' + 10,
        _ => 16,
    }
}

// Stores the bytes that hex digits spell, two digits to a byte; answers whether they spell any that have room.
pub fn spell(digits: &[u8], bytes: &mut [u8]) -> bool
    ensures { Spelt digits.now bytes.old bytes.new result }
{
    if digits.len() % 2 != 0 {
        return false;
    }
    if digits.len() / 2 > bytes.len() {
        return false;
    }
    for i in 0..digits.len() / 2 {
        let high = digit(digits[2 * i]);
        let low = digit(digits[2 * i + 1]);
        if high > 15 || low > 15 {
            return false;
        }
        bytes[i] = high * 16 + low;
    }
    true
}

// The descriptor that a digit names; -1 for none.
fn descriptor(digit: u8) -> i32
    ensures { result ≡ descriptor_of digit }
{
    match digit {
        b'1'..=b'9' => i32::from(digit - b'0'),
        _ => -1,
    }
}

// The descriptor for the status that a word names: `--status=` and a digit; -1 for none.
pub fn status(word: &[u8]) -> i32
    ensures { Names word.now result }
{
    match word.strip_prefix(b"--status=") {
        Some([digit]) => descriptor(*digit),
        _ => -1,
    }
}

// Whether some byte is 80h or more.
pub fn has_high(bytes: &[u8]) -> bool
    ensures { result ≡ has_high bytes.now }
{
    !bytes.is_ascii()
}

// The number of a name's bytes up to its last slash.
pub fn folder_size(name: &[u8]) -> usize
    ensures prefix_len { IsPrefixLen result name.now }
    ensures last_slash { LastSlash name.now result }
{
    name.iter().rposition(|b| *b == b'/').map_or(0, |i| i + 1)
}

// n bytes at the start of a buffer; none where it has fewer.
pub fn within(n: usize, buf: &[u8]) -> usize
    ensures prefix_len { IsPrefixLen result buf.now }
    ensures value { result ≡ if_within n (length buf.now) }
{
    if n <= buf.len() { n } else { 0 }
}
