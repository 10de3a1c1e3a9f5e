// Lines of a text and fields of a line.
ghost use Rattle.std.specs.Prelude.{◌≡◌, ℕ, ◌+◌, ◌≤◌, ◌<◌, length, get_or};
ghost use Rattle.casetext.specs.Text.{FirstMark};

// The place of the first `mark` of `text` from `from` on, or the text's length where there is none.
pub fn find_mark(text: &[u8], from: usize, mark: u8) -> usize
    ensures { FirstMark text.now from mark result }
{
    for i in from..text.len() {
        if text[i] == mark {
            return i;
        }
    }
    text.len()
}

// The place after a mark at `end`, or the text's length where `end` is not before it.
fn after(text: &[u8], end: usize) -> usize
    ensures within { result ≤ length text.now }
    ensures next { end < length text.now → result ≡ end + 1 }
{
    if end < text.len() {
        end + 1
    } else {
        text.len()
    }
}

// Where the part with this index, from 0, of a text starts, or the text's length where there are fewer parts; single marks separate the parts.
pub fn part_start(text: &[u8], mark: u8, index: usize) -> usize
    ensures { result ≤ length text.now }
{
    let mut at = 0;
    for _ in 0..index {
        at = after(text, find_mark(text, at, mark));
    }
    at
}

// That part; no bytes where there are fewer parts.
pub fn part(text: &[u8], mark: u8, index: usize) -> &[u8]
    ensures within { length result.now ≤ length text.now }
    ensures unmarked { (k : ℕ) → k < length result.now → get_or result.now k 0 ≡ mark → ⊥ }
{
    let start = part_start(text, mark, index);
    let end = find_mark(text, start, mark);
    &text[start..end]
}

// The field with this index, from 0, of fields that single spaces separate; no bytes where there are fewer fields.
pub fn field(line: &[u8], index: usize) -> &[u8]
    ensures within { length result.now ≤ length line.now }
    ensures unmarked { (k : ℕ) → k < length result.now → get_or result.now k 0 ≡ 32 → ⊥ }
{
    part(line, b' ', index)
}
