//! How many bytes a command gives, found by making them.

ghost use Rattle.std.specs.Prelude.{◌≡◌, ◌≤◌, IfOk};
ghost use Rattle.table_model.specs.Words.{data_most};
ghost use Rattle.table_model.specs.Requests.{given_count, given_of};

use data_words::GivenBytes;
use std::alloc::{AllocError, Global};
use table_model::Given;

/// How many bytes a command gives.
pub fn given_count(alloc: Global, given: &Given) -> Result<u64, AllocError>
    requires { given_count (given_of given.now) ≤ data_most }
    ensures { IfOk result (λ count. count ≡ given_count (given_of given.now)) }
{
    let bytes = GivenBytes::of(alloc, *given)?;
    Ok(bytes.as_slice().len() as u64)
}
