// Answers put into a buffer: each function puts its text from `at` on and answers the place after it; what does not fit is left out.
ghost use Rattle.std.specs.Prelude.{◌≡◌, ◌+◌, ◌≤◌, ◌<◌, min, ◌∷◌, [], length, set};
ghost use Rattle.casetext.specs.Text.{Ends, Puts, digit_of};

// Puts one byte.
pub fn put_byte(out: &mut [u8], at: usize, byte: u8) -> usize
    ensures ends { Ends out.new at result }
    ensures wrote { Puts out.old out.new at (byte ∷ []) result }
{
    if at < out.len() {
        out[at] = byte;
        return at + 1;
    }
    out.len()
}

// Puts some bytes.
pub fn put(out: &mut [u8], at: usize, bytes: &[u8]) -> usize
    ensures ends { Ends out.new at result }
    ensures wrote { Puts out.old out.new at bytes.now result }
{
    let mut end = at.min(out.len());
    for byte in bytes {
        end = put_byte(out, end, *byte);
    }
    end
}

// Puts a number in decimal.
pub fn put_decimal(out: &mut [u8], at: usize, n: u64) -> usize
    ensures { Ends out.new at result }
{
    let mut digits = [0u8; 20];
    let k = io::decimal(n, &mut digits);
    put(out, at, &digits[..k])
}

// Puts a space and a number in decimal.
pub fn put_spaced(out: &mut [u8], at: usize, n: u64) -> usize
    ensures { Ends out.new at result }
{
    let end = put_byte(out, at, b' ');
    put_decimal(out, end, n)
}

// Puts `mark` before each part but the first, which has index 0.
fn put_mark(out: &mut [u8], at: usize, mark: u8, index: usize) -> usize
    ensures { Ends out.new at result }
{
    if index == 0 {
        at.min(out.len())
    } else {
        put_byte(out, at, mark)
    }
}

// Puts words in decimal, with `mark` between them.
pub fn put_words(out: &mut [u8], at: usize, words: &[u64], mark: u8) -> usize
    ensures { Ends out.new at result }
{
    let mut end = at.min(out.len());
    for i in 0..words.len() {
        end = put_mark(out, end, mark, i);
        end = put_decimal(out, end, words[i]);
    }
    end
}

// Puts rows of `width` words, at least one, with `mark` between rows and `comma` between words.
pub fn put_rows(
    out: &mut [u8],
    at: usize,
    words: &[u64],
    width: usize,
    mark: u8,
    comma: u8,
) -> usize
    ensures { Ends out.new at result }
{
    let mut end = at.min(out.len());
    for (i, row) in words.chunks(width.max(1)).enumerate() {
        end = put_mark(out, end, mark, i);
        end = put_words(out, end, row, comma);
    }
    end
}

// The lower-case hex digit of a number below 16, and `?` for any other.
fn glyph(d: u8) -> u8
    ensures { d < 16 → digit_of result ≡ d }
{
    match d {
        0..=9 => b'0' + d,
        10..=15 => b'a' + (d - 10),
        _ => b'?',
    }
}

// Puts bytes in lower-case hex, or `-` where there are none.
pub fn put_hex(out: &mut [u8], at: usize, bytes: &[u8]) -> usize
    ensures { Ends out.new at result }
{
    if bytes.is_empty() {
        return put_byte(out, at, b'-');
    }
    let mut end = at.min(out.len());
    for byte in bytes {
        end = put_byte(out, end, glyph(*byte / 16));
        end = put_byte(out, end, glyph(*byte % 16));
    }
    end
}

// Puts a refusal, as `R NUMBER PLACE`.
pub fn put_refusal(out: &mut [u8], at: usize, number: u64, place: usize) -> usize
    ensures { Ends out.new at result }
{
    let mut end = put_byte(out, at, b'R');
    end = put_spaced(out, end, number);
    put_spaced(out, end, place as u64)
}

// Puts a line end, if there is room for it, and writes the line to standard output: an error says that not all of it was written.
pub fn write_line(rt: &impl Print, out: &mut [u8], at: usize) -> std::io::Result<()>
    ensures { out.new ≡ set out.old at 0x0a }
{
    if at < out.len() {
        out[at] = b'\n';
        return rt.write_all(&out[..at + 1]);
    }
    rt.write_all(out)
}
