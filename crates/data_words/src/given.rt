//! The bytes that a command gives.

ghost use Rattle.std.specs.Prelude.{◌≡◌, ◌≤◌, IfOk};
ghost use Rattle.table_model.specs.Words.{data_most};
ghost use Rattle.table_model.specs.Requests.{given_bytes, given_count, given_of};
ghost use Rattle.data_words.specs.GivenBytes.{bytes_held};

use crate::data::data_bytes;
use std::alloc::{AllocError, Global};
use table_model::{Bytes, Given};

/// The bytes that a command gives: where they stand in it, or made of its data word.
#[derive(Drop)]
pub enum GivenBytes<'a> {
    Lent(&'a [u8]),
    Made(Bytes),
}

impl<'a> GivenBytes<'a> {
    /// Memory is taken for those of a data word alone.
    pub fn of(alloc: Global, given: Given<'a>) -> Result<GivenBytes<'a>, AllocError>
        requires { given_count (given_of given) ≤ data_most }
        ensures { IfOk result (λ bytes. bytes_held bytes ≡ given_bytes (given_of given.entry)) }
    {
        match given {
            Given::Word(word) => Ok(GivenBytes::Made(data_bytes(alloc, word)?)),
            Given::Bytes(bytes) => Ok(GivenBytes::Lent(bytes)),
        }
    }

    pub fn as_slice(&self) -> &[u8]
        ensures { result.now ≡ bytes_held self.now }
    {
        match self {
            GivenBytes::Lent(bytes) => bytes,
            GivenBytes::Made(bytes) => bytes.as_slice(),
        }
    }
}
