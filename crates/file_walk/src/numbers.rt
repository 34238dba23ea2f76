//! The unique numbers of the records of a volume.
ghost use Rattle.std.specs.Prelude.{◌≡◌, ◌↔◌, IsTrue, IfOk};
ghost use Rattle.file_walk.specs.Numbers.{AreGoodNumbers, IsGoodRun, uniques};

use crate::Found;
use std::alloc::{AllocError, Global};

/// The unique numbers of records.
fn uniques_of(alloc: Global, records: &[Found]) -> Result<Vec<u64>, AllocError>
    ensures { IfOk result (λ numbers. numbers.items ≡ uniques records.now) }
{
    let mut numbers = Vec::with_capacity(alloc, records.len())?;
    for found in records {
        numbers.push(found.unique)?;
    }
    Ok(numbers)
}

/// Whether numbers rise strictly, from 1 at least, and stay below the next one.
fn is_good_run(numbers: &[u64], next_unique: u64) -> bool
    ensures { IsTrue result ↔ IsGoodRun next_unique 1 numbers.now }
{
    let mut least = 1;
    for number in numbers {
        if *number < least || *number >= next_unique {
            return false;
        }
        least = *number + 1;
    }
    true
}

/// Whether all unique numbers differ, are at least 1 and below the next one.
pub fn has_good_numbers(
    alloc: Global,
    records: &[Found],
    next_unique: u64,
) -> Result<bool, AllocError>
    ensures { IfOk result (λ good. IsTrue good ↔ AreGoodNumbers next_unique (uniques records.now)) }
{
    let mut numbers = uniques_of(alloc, records)?;
    numbers.sort()?;
    Ok(is_good_run(&numbers, next_unique))
}
