// Buffers for a program that runs cases. Each is on the stack.
ghost use Rattle.std.specs.Prelude.{◌≡◌, length, replicate};

// What every lent word holds before a call.
pub const STALE: u64 = 7;

// 262,144 zeros, for the text of one answer, and for lines of standard input.
pub fn text_buffer() -> [u8; 262144]
    ensures { 262144 ≡ length result }
{
    [0; 262144]
}

// 4,112 stale words, at least 16 more than a case lends for nodes.
pub fn node_buffer() -> [u64; 4112]
    ensures value { 4112 ≡ length result }
    ensures value_2 { result ≡ replicate 4112 7 }
{
    [STALE; 4112]
}

// 10,256 stale words, 16 more than a case lends for items.
pub fn item_buffer() -> [u64; 10256]
    ensures value { 10256 ≡ length result }
    ensures value_2 { result ≡ replicate 10256 7 }
{
    [STALE; 10256]
}
