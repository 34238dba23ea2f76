//! Numbers as words.
ghost use Rattle.std.specs.Prelude.{◌<◌, ◌^◌, ℕ, MatchOption};
ghost use Rattle.command_words.specs.Numerals.{Writes};

/// The most digits of a number.
const DIGITS_MOST: usize = 20;

/// The number that the word writes in 1 to 20 digits, or none.
pub fn number_of(word: &str) -> Option<u64>
    ensures { MatchOption result ((n : ℕ) → n < 2 ^ 64 → Writes word.now n → ⊥)
        (λ n. Writes word.now n) }
{
    match word.as_bytes() {
        [b'+', ..] => None,
        digits if digits.len() > DIGITS_MOST => None,
        _ => word.parse().ok(),
    }
}
