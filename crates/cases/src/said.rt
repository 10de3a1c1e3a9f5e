// Answers as text. An answer is words: refusal number (0: none), place, values.
ghost use Rattle.std.specs.Prelude.{◌≡◌, not, eqb, get_or};

// A word of an answer, or 0 where it has none.
pub fn word(said: &[u64], i: usize) -> u64
    ensures { result ≡ get_or said.now i 0 }
{
    if i < said.len() { said[i] } else { 0 }
}

// Whether it is a refusal.
pub fn is_refusal(said: &[u64]) -> bool
    ensures { result ≡ not (eqb (get_or said.now 0 0) 0) }
{
    word(said, 0) != 0
}

// Puts `R` and the refusal, or `ok` and a space.
pub fn put_head(out: &mut [u8], said: &[u64]) -> usize {
    if is_refusal(said) {
        return casetext::put_refusal(out, 0, word(said, 0), word(said, 1) as usize);
    }
    casetext::put(out, 0, b"ok ")
}

// Puts the refusal, or the values, with spaces between them.
pub fn put_values(out: &mut [u8], said: &[u64]) -> usize {
    let end = put_head(out, said);
    if is_refusal(said) {
        return end;
    }
    if said.len() < 2 {
        return end;
    }
    casetext::put_words(out, end, &said[2..], b' ')
}

// Puts `R:`, number and place, or `ok`, as one of several answers of a line.
pub fn put_short(out: &mut [u8], at: usize, said: &[u64]) -> usize {
    if !is_refusal(said) {
        return casetext::put(out, at, b" ok");
    }
    let mut end = casetext::put(out, at, b" R:");
    end = casetext::put_decimal(out, end, word(said, 0));
    end = casetext::put_byte(out, end, b':');
    casetext::put_decimal(out, end, word(said, 1))
}

// Puts the first `count` bytes; nothing where there are fewer.
pub fn put_front(out: &mut [u8], at: usize, bytes: &[u8], count: u64) -> usize {
    let size = count as usize;
    if size > bytes.len() {
        return at;
    }
    casetext::put_hex(out, at, &bytes[0..size])
}

// Puts ` stale` unless every word from `from` on is `value`.
pub fn put_unless(out: &mut [u8], at: usize, words: &[u64], from: usize, value: u64) -> usize {
    if from <= words.len() {
        if casetext::is_all(&words[from..], value) {
            return at;
        }
    }
    casetext::put(out, at, b" stale")
}
