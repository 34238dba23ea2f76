//! The parts of a word.

ghost use Rattle.std.specs.Prelude.{◌≡◌, ◌∷◌, ◌==◌, [], MatchOption};
ghost use Rattle.std.specs.List.{slice_split};

/// What stands before the first byte `at`, and what stands after it.
pub fn cut(bytes: &[u8], at: u8) -> Option<(&[u8], &[u8])>
    ensures { MatchOption result (slice_split (λ b. b == at) bytes.now ≡ bytes.now ∷ [])
        (λ parts. slice_split (λ b. b == at) bytes.now ≡ parts.0.now
        ∷ slice_split (λ b. b == at) parts.1.now) }
{
    for (i, byte) in bytes.iter().enumerate() {
        if *byte == at {
            return Some((&bytes[..i], &bytes[i + 1..]));
        }
    }
    None
}
