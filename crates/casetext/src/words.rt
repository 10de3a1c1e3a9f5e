// Words of lent tables, looked at after a call.
ghost use Rattle.std.specs.Prelude.{◌≡◌, true, ℕ, ◌*◌, ◌≤◌, ◌<◌, length, get_or};

// Whether every word is `value`.
pub fn is_all(words: &[u64], value: u64) -> bool
    ensures all { result ≡ true → (k : ℕ) → k < length words.now → get_or words.now k 0 ≡ value }
    ensures only { ((k : ℕ) → k < length words.now → get_or words.now k 0 ≡ value) → result ≡ true }
{
    words.iter().all(|word| *word == value)
}

// How many words `count` rows of `width` words have, or `lent` where they would have more.
pub fn row_words(count: usize, width: usize, lent: usize) -> usize
    ensures within { result ≤ lent }
    ensures whole { count * width ≤ lent → result ≡ count * width }
{
    count.saturating_mul(width).min(lent)
}
