// Numbers of seven bits a byte (VLQ), written: in a given count of bytes, and in the fewest.
#![tactic(auto)]

ghost use Rattle.std.specs.Prelude.{◌≡◌, ℕ, ◌^◌, ◌≤◌, ◌<◌};
ghost use Rattle.room.specs.Counts.{Counts};
ghost use Rattle.vlq.specs.Vlq.{least, in_bytes, vlq};

// 128 to the power of k.
fn power(k: usize) -> u64
    requires { k < 5 }
    ensures { result ≡ 128 ^ k }
{
    let mut r: u64 = 1;
    let mut i = 0;
    while i < k {
        r = r * 128;
        i = i + 1;
    }
    r
}

// The least count of bytes that holds a number, which may depend on that count: it is `one` where it has one byte, and so on; 4 where no less will do.
pub fn least_bytes(one: usize, two: usize, three: usize) -> usize
    ensures { (n : ℕ → ℕ) → one ≡ n 1 → two ≡ n 2 → three ≡ n 3 → result ≡ least n }
{
    if one < 128 {
        return 1;
    }
    if two < 16384 {
        return 2;
    }
    if three < 2097152 {
        return 3;
    }
    4
}

// The number of bytes of n in its shortest form; 4 where it has none.
pub fn vlq_size(n: u64) -> usize
    ensures { result ≡ least (λ _. n) }
{
    least_bytes(n as usize, n as usize, n as usize)
}

// Puts n in k bytes. They are stored only where all of them fit, so to measure them costs nothing.
pub fn put_in_bytes(out: &mut [u8], to: usize, n: u64, k: usize) -> usize
    requires { k ≤ 4 }
    ensures { Counts out.old out.new to (in_bytes k n) result }
{
    if room::room_at(out.len(), to) < k {
        return room::on(to, k);
    }
    let mut next = to;
    let mut left = k;
    while 0 < left {
        left = left - 1;
        let digit = (n / power(left) % 128) as u8;
        if 0 < left {
            next = room::put_byte(out, next, 128 + digit);
        } else {
            next = room::put_byte(out, next, digit);
        }
    }
    next
}

// Puts n in its shortest form.
#[inline]
pub fn put_number(out: &mut [u8], to: usize, n: u64) -> usize
    ensures { Counts out.old out.new to (vlq n) result }
{
    if n < 128 {
        return room::put_byte(out, to, n as u8);
    }
    put_in_bytes(out, to, n, vlq_size(n))
}
