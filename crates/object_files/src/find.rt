// The places of entries.
ghost use Rattle.std.specs.Prelude.{◌≡◌, ◌≢◌, ℕ, ◌+◌, ◌*◌, ◌<◌, ◌≤◌, length};
ghost use Rattle.std.specs.Ordering.{nat_cmp};
ghost use Rattle.std.specs.Cmp.Lexicographic.{slice_cmp};
ghost use Rattle.std.specs.declared.cmp.Ordering.TheVariants.{Less};
ghost use Rattle.object_files.specs.Reads.{name_in, number_in, entry_at, EachReads};

use crate::reads::{name_of, number_of};
use crate::{ENTRY_LEN, HEAD_LEN};
use std::cmp::Ordering;

/// The first of n entries whose name comes later than a name, or n.
pub fn place_of(page: &[u8], n: usize, name: &[u8]) -> usize
    requires room { 32 + 48 * n ≤ length page.now }
    requires entries { EachReads page.now n }
    ensures within { result ≤ n }
    ensures before { (k : ℕ) → k < result
        → slice_cmp nat_cmp name.now (name_in page.now (entry_at k)) ≢ Less }
    ensures later { result < n → slice_cmp nat_cmp name.now (name_in page.now (entry_at result))
        ≡ Less }
{
    for i in 0..n {
        match name.cmp(&name_of(page, HEAD_LEN + ENTRY_LEN * i)) {
            Ordering::Less => return i,
            _ => {}
        }
    }
    n
}

/// The first of n entries that has a name, or n.
pub fn index_of_name(page: &[u8], n: usize, name: &[u8]) -> usize
    requires room { 32 + 48 * n ≤ length page.now }
    requires entries { EachReads page.now n }
    ensures within { result ≤ n }
    ensures before { (k : ℕ) → k < result → name_in page.now (entry_at k) ≢ name.now }
    ensures found { result < n → name_in page.now (entry_at result) ≡ name.now }
{
    for i in 0..n {
        if name_of(page, HEAD_LEN + ENTRY_LEN * i) == name {
            return i;
        }
    }
    n
}

/// The first of n entries that has a number, or n.
pub fn index_of_number(page: &[u8], n: usize, file_no: u32) -> usize
    requires { 32 + 48 * n ≤ length page.now }
    ensures within { result ≤ n }
    ensures before { (k : ℕ) → k < result → number_in page.now (entry_at k) ≢ file_no }
    ensures found { result < n → number_in page.now (entry_at result) ≡ file_no }
{
    for i in 0..n {
        if number_of(page, HEAD_LEN + ENTRY_LEN * i) == file_no {
            return i;
        }
    }
    n
}
