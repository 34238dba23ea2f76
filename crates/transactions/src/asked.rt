//! What a command asks of a version's bytes. Where a data word gives them, they are decoded once the command is admitted.
ghost use Rattle.std.specs.Prelude.{◌≡◌, IsTrue, bytes_eq};
ghost use Rattle.table_model.specs.Requests.{ByWord, given_bytes, given_count, given_of, is_given};
ghost use Rattle.table_model.specs.Words.{data_count};
ghost use Rattle.versions.specs.Edited.{change_of};
ghost use Rattle.transactions.specs.Asking.{asked_change, asked_count, asked_given};

use data_words::{cut, number_of};
use table_model::Given;
use versions::Edit;

/// A change that a command asks for, with the count of bytes that it gives.
#[derive(Clone, Copy)]
pub(crate) enum Asked<'a> {
    /// Puts bytes in before the byte at a position.
    Insert {
        pos: u64,
        given: Given<'a>,
        count: u64,
    },
    /// Puts bytes at the end.
    Append {
        given: Given<'a>,
        count: u64,
    },
    /// Puts other bytes over those from a position on.
    Replace {
        pos: u64,
        given: Given<'a>,
        count: u64,
    },
    /// Takes bytes away, from a position on.
    Delete {
        pos: u64,
        len: u64,
    },
}

impl<'a> Asked<'a> {
    /// How many bytes it names.
    pub(crate) fn count(&self) -> u64
        ensures { result ≡ asked_count self.now }
    {
        match self {
            Asked::Insert { count, .. }
            | Asked::Append { count, .. }
            | Asked::Replace { count, .. } => *count,
            Asked::Delete { len, .. } => *len,
        }
    }

    /// What gives its bytes; none, where it puts none.
    pub(crate) fn given(&self) -> Given<'a>
        ensures { given_of result ≡ asked_given self.now }
    {
        match self {
            Asked::Insert { given, .. }
            | Asked::Append { given, .. }
            | Asked::Replace { given, .. } => *given,
            Asked::Delete { .. } => Given::Bytes(&[]),
        }
    }

    /// The edit, with the bytes that are given.
    pub(crate) fn with_bytes<'b>(&self, bytes: &'b [u8]) -> Edit<'b>
        requires { bytes.now ≡ given_bytes (asked_given self.now) }
        ensures { change_of result ≡ asked_change self.now }
    {
        match self {
            Asked::Insert { pos, .. } => Edit::Insert { pos: *pos, bytes },
            Asked::Append { .. } => Edit::Append { bytes },
            Asked::Replace { pos, .. } => Edit::Replace { pos: *pos, bytes },
            Asked::Delete { pos, len } => Edit::Delete {
                pos: *pos,
                len: *len,
            },
        }
    }
}

/// Whether a part of a word is this text.
fn is_text(part: &[u8], text: &str) -> bool
    ensures { result ≡ bytes_eq part.now text.now }
{
    part == text.as_bytes()
}

/// How many bytes a data word gives. None of them is made, and digits of bytes are not read.
fn data_count(word: &[u8]) -> u64
    requires { IsTrue (is_given (ByWord word.now)) }
    ensures { result ≡ data_count word.now }
{
    let Some((key, rest)) = cut(word, b':') else {
        return 0;
    };
    if is_text(key, "hex") {
        return rest.len() as u64 / 2;
    }
    let Some((count, _)) = cut(rest, b':') else {
        return 0;
    };
    match number_of(count) {
        Some(n) => n,
        None => unreachable!(),
    }
}

/// How many bytes a command gives.
pub(crate) fn given_count(given: &Given<'_>) -> u64
    requires { IsTrue (is_given (given_of given.now)) }
    ensures { result ≡ given_count (given_of given.now) }
{
    match given {
        Given::Word(word) => data_count(word),
        Given::Bytes(bytes) => bytes.len() as u64,
    }
}
