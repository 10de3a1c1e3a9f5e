// Lent room: tables of words and buffers of bytes. Filled with one value from a place on, and with bytes put one after the other.
#![tactic(auto)]

ghost use Rattle.std.specs.Prelude.{◌≡◌, ◌∷◌, [], ◌++◌, ◌+◌, ◌-◌, ◌≤◌, min, length, replicate, take};
ghost use Rattle.std.proofs.lemmas.List.Edits.{sets};
ghost use Rattle.room.specs.Parts.{part};
ghost use Rattle.room.specs.Counts.{Counts, too_many};
ghost use Rattle.room.specs.Decimal.{decimal};

// Sets every element from `from` on to the value.
pub fn fill_from<T: Copy>(xs: &mut [T], from: usize, value: T)
    ensures { xs.new ≡ take from xs.old ++ replicate (length xs.old - from) value }
{
    if from < xs.len() {
        for x in &mut xs[from..] {
            *x = value;
        }
    }
}

// Stores other elements from `at` on.
pub fn store<T: Copy>(xs: &mut [T], at: usize, others: &[T])
    requires { length others.now ≤ length xs.old - at }
    ensures { xs.new ≡ sets xs.old at others.now }
{
    for i in 0..others.len() {
        xs[at + i] = others[i];
    }
}

// How many of `size` bytes stand from a place on.
pub fn room_at(size: usize, place: usize) -> usize
    ensures { result ≡ size - place }
{
    size.saturating_sub(place)
}

// A place that is counted stops here: every buffer is shorter.
pub const TOO_MANY: usize = usize::MAX;

// The place `size` bytes after `to`.
pub fn on(to: usize, size: usize) -> usize
    ensures { result ≡ min (to + size) too_many }
{
    to.saturating_add(size)
}

// Puts one byte. A writer is given the place of its first byte and answers the place after its last one, also where the buffer has no room for all of
// its bytes: so the same function measures.
pub fn put_byte(out: &mut [u8], to: usize, byte: u8) -> usize
    ensures { Counts out.old out.new to (byte ∷ []) result }
{
    if to < out.len() {
        out[to] = byte;
        return to + 1;
    }
    on(to, 1)
}

// Puts bytes. They are stored only where all of them fit, so to measure them costs nothing.
pub fn put_bytes(out: &mut [u8], to: usize, bytes: &[u8]) -> usize
    ensures { Counts out.old out.new to bytes.now result }
{
    let size = bytes.len();
    if room_at(out.len(), to) < size {
        return on(to, size);
    }
    store(out, to, bytes);
    to + size
}

// Puts a part of other bytes: `size` of them, from `from` on.
pub fn put_part(out: &mut [u8], to: usize, file: &[u8], from: usize, size: usize) -> usize
    requires { from + size ≤ length file.now }
    ensures { Counts out.old out.new to (part file.now from size) result }
{
    let end = from + size;
    put_bytes(out, to, &file[from..end])
}

// The number of decimal digits.
fn digit_count(n: u64) -> usize
    ensures { result ≡ length (decimal n) }
{
    match n.checked_ilog10() {
        Some(power) => power as usize + 1,
        None => 1,
    }
}

// Stores the decimal digits from `from` up to `end`, the last one first.
fn store_digits(out: &mut [u8], from: usize, end: usize, n: u64)
    requires { (end ≡ from + length (decimal n)) × (end ≤ length out.old) }
    ensures { out.new ≡ sets out.old from (decimal n) }
{
    let mut rest = n;
    for at in (from + 1..end).rev() {
        out[at] = 0x30 + (rest % 10) as u8;
        rest = rest / 10;
    }
    out[from] = 0x30 + rest as u8;
}

// Puts a decimal number. Most have one digit, which is put straight away.
pub fn put_decimal(out: &mut [u8], to: usize, n: u64) -> usize
    ensures { Counts out.old out.new to (decimal n) result }
{
    if n < 10 {
        return put_byte(out, to, 0x30 + n as u8);
    }
    let size = digit_count(n);
    if room_at(out.len(), to) < size {
        return on(to, size);
    }
    let end = to + size;
    store_digits(out, to, end, n);
    end
}
