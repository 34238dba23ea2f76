//! What a volume decides at a line, as words: `p258.0` the place of a new record, `u3.2` the pages and segment units in use afterwards, `h1.500.500`
//! the height and the leaves of the tree of a large object that is named. Each update touches two logged pages in all.

use ex_base::{Items, PageNo, Place};
use std::alloc::{AllocError, Global};
use table_model::Pick;

/// The logged pages that a transaction has touched after any of its updates.
const TOUCHED: u32 = 2;

/// The number that decimal digits write, or the largest where it is larger.
pub(crate) fn number_of(digits: &[u8]) -> u32 {
    let mut n: u32 = 0;
    for digit in digits {
        n = n
            .saturating_mul(10)
            .saturating_add(u32::from(digit.saturating_sub(b'0')));
    }
    n
}

/// Numbers with dots between them.
fn numbers_of(alloc: Global, word: &[u8]) -> Result<Vec<u32>, AllocError> {
    let mut out = Vec::new(alloc);
    for digits in word.split(|byte| *byte == b'.') {
        out.push(number_of(digits))?;
    }
    Ok(out)
}

/// The number at the index, or 0.
fn at(numbers: &[u32], index: usize) -> u32 {
    match numbers.get(index) {
        Some(number) => *number,
        None => 0,
    }
}

/// What stands where no word says otherwise.
fn nothing(alloc: Global) -> Pick {
    Pick {
        place: Place {
            page: PageNo(0),
            slot: 0,
        },
        pages: 0,
        segs: 0,
        touched: TOUCHED,
        small: true,
        height: 0,
        leaves: Items::make(alloc),
        records: 0,
    }
}

/// The numbers behind the first as the leaves' lengths.
fn leaves_of(alloc: Global, numbers: &[u32]) -> Result<Items<u32>, AllocError> {
    let mut leaves = Items::make(alloc);
    for (index, number) in numbers.iter().enumerate() {
        if index > 0 {
            leaves.push(*number)?;
        }
    }
    Ok(leaves)
}

/// The decision with one word more taken in.
fn taken_in(alloc: Global, mut pick: Pick, word: &[u8]) -> Result<Pick, AllocError> {
    if word.len() == 0 {
        return Ok(pick);
    }
    let numbers = numbers_of(alloc, &word[1..])?;
    let first = at(numbers.as_slice(), 0);
    let second = at(numbers.as_slice(), 1);
    match word[0] {
        b'p' => {
            pick.place = Place {
                page: PageNo(first),
                slot: second.min(u32::from(u16::MAX)) as u16,
            };
        }
        b'u' => {
            pick.pages = first;
            pick.segs = second;
        }
        b'h' => {
            pick.small = false;
            pick.height = first.min(u32::from(u8::MAX)) as u8;
            pick.leaves = leaves_of(alloc, numbers.as_slice())?;
        }
        _ => {}
    }
    Ok(pick)
}

/// The decision that the words tell.
pub(crate) fn pick_of(alloc: Global, words: &[u8]) -> Result<Pick, AllocError> {
    let mut pick = nothing(alloc);
    for word in words.split(|byte| *byte == b' ') {
        pick = taken_in(alloc, pick, word)?;
    }
    Ok(pick)
}
