//! The words of a line, one after the other, as parts of the line.

ghost use Rattle.std.specs.Prelude.{◌≡◌, [], ◌∷◌, not, MatchOption};
ghost use Rattle.std.specs.List.{position, position_or_len};
ghost use Rattle.std.specs.Iterator.{YieldsFirstRef, item_count};
ghost use Rattle.script_lang.specs.LineWords.{is_blank, words_of};

use memchr::memchr2;

/// A space or a tab.
fn is_space(b: u8) -> bool
    ensures { result ≡ is_blank b }
{
    b == b' ' || b == b'\t'
}

/// The words that are left.
#[derive(Clone, Copy)]
pub(crate) struct Words<'a>(&'a [u8]);

impl<'a> Words<'a> {
    pub(crate) fn of(line: &'a [u8]) -> Words<'a>
        ensures { words_of result.0.now ≡ words_of line.entry.now }
    {
        Words(line)
    }
}

// The place of the first byte that is no blank.
fn word_start(line: &[u8]) -> Option<usize>
    ensures { result ≡ position (λ b. not (is_blank b)) line.now }
{
    line.iter().position(|b| !is_space(*b))
}

// The place of the first blank, or the length.
fn word_end(line: &[u8]) -> usize
    ensures { result ≡ position_or_len is_blank line.now }
{
    memchr2(b' ', b'\t', line).unwrap_or(line.len())
}

// The first word of a line, and what follows it.
fn first_word(line: &[u8]) -> Option<(&[u8], &[u8])>
    ensures { MatchOption result (words_of line.now ≡ [])
        (λ p. words_of line.now ≡ p.0.now ∷ words_of p.1.now) }
{
    let start = word_start(line)?;
    let from = &line[start..];
    Some(from.split_at(word_end(from)))
}

impl<'a> Iterator for Words<'a> {
    type Item = &'a [u8];

    ghost next_gives = { YieldsFirstRef (λ s. words_of s.0.now) };

    ghost remaining = { item_count (λ s. words_of s.0.now) };

    fn next(&mut self) -> Option<&'a [u8]> {
        let (word, rest) = first_word(self.0)?;
        self.0 = rest;
        Some(word)
    }
}
