// The two editions of a sheet: judges whether a sheet is well formed, line by line.
#![tactic(auto)]

ghost use Rattle.std.specs.Prelude.{◌≡◌, cond, ◌≤◌, ◌<◌, ◌+◌, ◌-◌, ◌^◌, length, drop, replicate};
ghost use Rattle.std.proofs.Math.Seq.{slice};
ghost use Rattle.room.specs.Room.{good, bad};
ghost use Rattle.text.specs.Text.{hex_digits};
ghost use Rattle.editions.specs.Sheets.{parted, lead, is_number, nibble, is_escape, itself, is_text, is_version, fits, word, kind, stands, after, start, judge};
ghost use Rattle.editions.specs.Reads.{number_of, fields_at, FieldIs, LetterIs, is_tail, is_labelled};
ghost use Rattle.editions.specs.Told.{NumberAt, NameAt, line_told, WordAt, LeadAt, step_told, body_told, JudgedAs};

// Nodes and items so far; no item may be of an earlier node than the least.
#[derive(Clone, Copy)]
pub struct State {
    pub nodes: u64,
    pub items: u64,
    pub least: u64,
}

// A node's line with its row, an item's line with its node.
#[derive(Clone, Copy)]
enum Line {
    Node(u64),
    Item(u64),
    Other,
}

// ---- fields

// The end of the piece that begins at `at`: the place of the next byte c, or the end.
pub fn piece_end(text: &[u8], at: usize, c: u8) -> usize
    requires { at ≤ length text.now }
    ensures { (result ≤ length text.now) × (result ≡ at + length (lead (parted c (drop at text.now)))) }
{
    let mut i = at;
    while i < text.len() {
        if text[i] == c {
            return i;
        }
        i = i + 1;
    }
    i
}

// The number of a field in 01's spelling.
fn read_number(field: &[u8]) -> Option<u64>
    ensures { result ≡ number_of field.now }
{
    if field == b"0".as_slice() {
        return Some(0);
    }
    if field.is_empty() || field[0] == b'0' {
        return None;
    }
    let mut v: u64 = 0;
    for b in field {
        let d = cursor::wide(*b);
        if d < 0x30 || 0x39 < d {
            return None;
        }
        v = v * 10 + (d - 0x30);
        if v > 0xFFFFFFF {
            return None;
        }
    }
    Some(v)
}

// The number at a place, with another field behind it, and where that one begins.
pub fn number_field(line: &[u8], at: usize) -> Option<(u64, usize)>
    requires { at ≤ length line.now }
    ensures { NumberAt line.now at result }
{
    let end = piece_end(line, at, 0x09);
    if line.len() <= end {
        return None;
    }
    let v = read_number(&line[at..end])?;
    Some((v, end + 1))
}

// Whether `count` numbers, and nothing more, stand from a place on.
fn are_numbers(line: &[u8], at: usize, count: usize) -> bool
    requires { (at ≤ length line.now) × (0 < count) }
    ensures { result ≡ fits (replicate count is_number) (fields_at line.now at) }
{
    let mut from = at;
    for i in 1..count {
        let Some((_, next)) = number_field(line, from) else {
            return false;
        };
        from = next;
    }
    let end = piece_end(line, from, 0x09);
    end == line.len() && read_number(&line[from..end]).is_some()
}

// The letter at a place, with a tab behind it; 0 where there is none.
pub fn letter(line: &[u8], at: usize) -> u8
    requires { at ≤ length line.now }
    ensures { LetterIs line.now at result }
{
    if line.len() - at < 2 {
        return 0;
    }
    if line[at + 1] != 0x09 {
        return 0;
    }
    line[at]
}

// ---- text

// What a hex digit says.
fn nibble(x: u8) -> u64
    ensures { (result ≡ nibble x) × (result < 256) }
{
    let v = cursor::wide(x);
    if v < 0x61 {
        if v < 0x30 {
            return 0;
        }
        return v - 0x30;
    }
    v - 0x57
}

// Whether a backslash, x and y are how 01 writes a byte.
fn is_escape(x: u8, y: u8, hex: &[u8; 16]) -> bool
    requires { hex.now ≡ hex_digits }
    ensures { result ≡ is_escape x y }
{
    let v = nibble(x) * 16 + nibble(y);
    if 0x100 <= v {
        return false;
    }
    if text::is_plain(v as u8) {
        return false;
    }
    if x != hex[(v / 16) as usize] {
        return false;
    }
    y == hex[(v % 16) as usize]
}

// Whether a byte stands for itself in a text.
fn is_itself(b: u8, two: bool) -> bool
    ensures { result ≡ itself two b }
{
    if text::is_plain(b) {
        return true;
    }
    if two {
        return 0x80 <= b;
    }
    false
}

// Whether a field is a text in 01's spelling; `two`: of format 2.
fn is_text(line: &[u8], from: usize, end: usize, two: bool) -> bool
    requires { (from ≤ end) × (end ≤ length line.now) }
    ensures { result ≡ is_text two (slice from end line.now) }
{
    let hex = text::hex_digits();
    let mut i = from;
    while i < end {
        let b = line[i];
        if b == 0x5c {
            if end - i < 3 {
                return false;
            }
            if !is_escape(line[i + 1], line[i + 2], &hex) {
                return false;
            }
            i = i + 3;
        } else {
            if !is_itself(b, two) {
                return false;
            }
            i = i + 1;
        }
    }
    true
}

// Behind the name at a place: where the next field begins.
fn name_field(line: &[u8], at: usize) -> Option<usize>
    requires { at ≤ length line.now }
    ensures { NameAt line.now at result }
{
    let end = piece_end(line, at, 0x09);
    if line.len() <= end {
        return None;
    }
    if end <= at {
        return None;
    }
    if !is_text(line, at, end, false) {
        return None;
    }
    Some(end + 1)
}

// ---- lines

// Whether version, format and text, and nothing more, stand from a place on.
fn is_tail(line: &[u8], at: usize) -> bool
    requires { at ≤ length line.now }
    ensures { result ≡ is_tail (fields_at line.now at) }
{
    let Some((_, second)) = number_field(line, at) else {
        return false;
    };
    let Some((format, third)) = number_field(line, second) else {
        return false;
    };
    if format % 2 != 0 {
        return false;
    }
    let end = piece_end(line, third, 0x09);
    if end < line.len() {
        return false;
    }
    is_text(line, third, end, format == 2)
}

// The same, with the label before them: `S` and a number, or `C` and a name.
fn is_labelled(line: &[u8], at: usize) -> bool
    requires { at ≤ length line.now }
    ensures { result ≡ is_labelled (fields_at line.now at) }
{
    let b = letter(line, at);
    if b == b'S' {
        return match number_field(line, at + 2) {
            None => false,
            Some((_, next)) => is_tail(line, next),
        };
    }
    if b == b'C' {
        return match name_field(line, at + 2) {
            None => false,
            Some(next) => is_tail(line, next),
        };
    }
    false
}

// What a line is.
fn read_line(line: &[u8]) -> Line
    ensures { line_told result ≡ kind line.now }
{
    let b = letter(line, 0);
    if b == b'N' {
        return match number_field(line, 2) {
            None => Line::Other,
            Some((row, next)) => {
                if are_numbers(line, next, 5) {
                    return Line::Node(row);
                }
                Line::Other
            }
        };
    }
    if b == b'M' {
        return match number_field(line, 2) {
            None => Line::Other,
            Some((row, next)) => {
                if is_labelled(line, next) {
                    return Line::Item(row);
                }
                Line::Other
            }
        };
    }
    Line::Other
}

// ---- the first line

// Whether a field is one of the three versions.
fn is_version(field: &[u8]) -> bool
    ensures { result ≡ is_version field.now }
{
    field == b"1.00".as_slice() || field == b"1.01".as_slice() || field == b"2.00".as_slice()
}

// The first word, with a field behind it: whether it is of the second edition, and where that field begins.
fn read_word(line: &[u8]) -> Option<(bool, usize)>
    ensures { WordAt line.now result }
{
    if line.starts_with(b"XMF\t") {
        return Some((false, 4));
    }
    if line.starts_with(b"XMF2\t") {
        return Some((true, 5));
    }
    None
}

// The rest of the first line, behind the edition's word: version, length, and the counts of nodes and items.
fn read_counts(line: &[u8], at: usize, second: bool) -> Option<(bool, u64, u64)>
    requires { FieldIs line.now 0 (word second) at }
    ensures { LeadAt line.now result }
{
    let end = piece_end(line, at, 0x09);
    if line.len() <= end {
        return None;
    }
    if !is_version(&line[at..end]) {
        return None;
    }
    let (_, third) = number_field(line, end + 1)?;
    let (nodes, fourth) = number_field(line, third)?;
    let last = piece_end(line, fourth, 0x09);
    if last < line.len() {
        return None;
    }
    let items = read_number(&line[fourth..last])?;
    Some((second, nodes, items))
}

// The first line: whether it is of the second edition, its counts of nodes and items.
fn read_first(line: &[u8]) -> Option<(bool, u64, u64)>
    ensures { LeadAt line.now result }
{
    let (second, at) = read_word(line)?;
    read_counts(line, at, second)
}

// ---- a well-formed sheet

// The state after a line, if the line can stand.
fn step(second: bool, t: State, line: Line) -> Option<State>
    requires { (t.nodes + 1 < 2 ^ 64) × (t.items + 1 < 2 ^ 64) }
    ensures { step_told result ≡ cond (stands second t (line_told line)) (good (after second t (line_told line))) (bad 0 0) }
{
    match line {
        Line::Other => None,
        Line::Node(k) => {
            if k != t.nodes {
                return None;
            }
            if second {
                return Some(State {
                    nodes: t.nodes + 1,
                    items: t.items,
                    least: k,
                });
            }
            if t.items != 0 {
                return None;
            }
            Some(State {
                nodes: t.nodes + 1,
                items: t.items,
                least: t.least,
            })
        }
        Line::Item(k) => {
            if k < t.least {
                return None;
            }
            if t.nodes <= k {
                return None;
            }
            Some(State {
                nodes: t.nodes,
                items: t.items + 1,
                least: k,
            })
        }
    }
}

// Judges the lines from a place on, the second one first: the state after all lines; or the number of the line that cannot stand.
fn judge_body(sheet: &[u8], from: usize, second: bool) -> Result<State, usize>
    requires { from ≤ length sheet.now }
    ensures { body_told result ≡ judge second start 2 (parted 0x0A (drop from sheet.now)) }
{
    let mut t = State {
        nodes: 0,
        items: 0,
        least: 0,
    };
    let mut at = from;
    let mut number: usize = 2;
    while at < sheet.len() {
        let end = piece_end(sheet, at, 0x0a);
        if sheet.len() <= end {
            return Err(number);
        }
        let line = read_line(&sheet[at..end]);
        t = step(second, t, line).ok_or(number)?;
        at = end + 1;
        number = number + 1;
    }
    Ok(t)
}

// Judges a sheet: whether it is of the second edition, and where its first line ends; or the number of the line that cannot stand.
pub fn judge(sheet: &[u8]) -> Result<(bool, usize), usize>
    ensures { JudgedAs sheet.now result }
{
    let stop = piece_end(sheet, 0, 0x0a);
    if sheet.len() <= stop {
        return Err(1);
    }
    let (second, nodes, items) = read_first(&sheet[0..stop]).ok_or(1usize)?;
    let t = judge_body(sheet, stop + 1, second)?;
    if t.nodes != nodes {
        return Err(1);
    }
    if items < t.items {
        return Err(1);
    }
    Ok((second, stop))
}
