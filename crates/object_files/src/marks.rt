// Which of the lowest numbers the entries have: one look at each entry tells whether the numbers differ, and which is the lowest unused.
ghost use Rattle.std.specs.Prelude.{◌≡◌, ◌≢◌, ℕ, ◌↔◌, ◌+◌, ◌-◌, ◌*◌, ◌<◌, ◌≤◌, IsTrue, true, false, not, length, slice_index_or, slice_set, count_by};
ghost use Rattle.object_files.specs.Marks.{MarksNumbers, IsLarge, HasMark};
ghost use Rattle.object_files.specs.Reads.{number_in, entry_at, DiffersBehind, NumbersDiffer};

use crate::reads::number_of;
use crate::{ENTRY_LEN, HEAD_LEN};

/// One more than the most files that a catalog page has room for, so that one of the numbers up to it is always unused.
const MARKS: usize = 171;

/// Marks a number, unless it is too large for a mark.
fn mark(marks: &mut [bool], number: usize)
    requires { length marks.old ≡ 171 }
    ensures marked { 1 ≤ number → number ≤ 171 → marks.new ≡ slice_set marks.old (number - 1) true }
    ensures kept { IsLarge number → marks.new ≡ marks.old }
{
    if number > 0 && number <= MARKS {
        marks[number - 1] = true;
    }
}

/// Whether a number has a mark.
fn has_mark(marks: &[bool], number: usize) -> bool
    requires { length marks.now ≡ 171 }
    ensures { IsTrue result ↔ HasMark marks.now number }
{
    number > 0 && number <= MARKS && marks[number - 1]
}

/// Whether no later entry has the number of entry i.
fn differs_behind(page: &[u8], n: usize, i: usize) -> bool
    requires room { 32 + 48 * n ≤ length page.now }
    requires inside { i < n }
    ensures { IsTrue result ↔ DiffersBehind page.now n i }
{
    let number = number_of(page, HEAD_LEN + ENTRY_LEN * i);
    for j in i + 1..n {
        if number == number_of(page, HEAD_LEN + ENTRY_LEN * j) {
            return false;
        }
    }
    true
}

/// Whether entry i has a number that marks tell apart, or that no later entry has.
fn is_apart(page: &[u8], n: usize, i: usize, number: usize) -> bool
    requires room { 32 + 48 * n ≤ length page.now }
    requires inside { i < n }
    ensures { IsTrue result ↔ (IsLarge number → DiffersBehind page.now n i) }
{
    (number > 0 && number <= MARKS) || differs_behind(page, n, i)
}

/// Whether the file numbers differ.
pub fn numbers_differ(page: &[u8], n: usize) -> bool
    requires { 32 + 48 * n ≤ length page.now }
    ensures { IsTrue result ↔ NumbersDiffer page.now n }
{
    let mut marks = [false; MARKS];
    for i in 0..n {
        let number = number_of(page, HEAD_LEN + ENTRY_LEN * i) as usize;
        if has_mark(&marks, number) {
            return false;
        }
        if !is_apart(page, n, i, number) {
            return false;
        }
        mark(&mut marks, number);
    }
    true
}

/// The marks of the numbers that n entries have.
fn marks_of(page: &[u8], n: usize) -> [bool; MARKS]
    requires { 32 + 48 * n ≤ length page.now }
    ensures { MarksNumbers page.now n result }
{
    let mut marks = [false; MARKS];
    for i in 0..n {
        mark(
            &mut marks,
            number_of(page, HEAD_LEN + ENTRY_LEN * i) as usize,
        );
    }
    marks
}

/// Where the first mark is missing.
fn first_unmarked(marks: &[bool]) -> usize
    requires { 0 < count_by not marks.now }
    ensures inside { result < length marks.now }
    ensures missing { slice_index_or marks.now result true ≡ false }
    ensures others { (k : ℕ) → k < result → slice_index_or marks.now k true ≡ true }
{
    let mut at = 0;
    while marks[at] {
        at += 1;
    }
    at
}

/// The lowest number from 1 on that none of n entries has.
pub fn lowest_unused(page: &[u8], n: usize) -> u32
    requires room { 32 + 48 * n ≤ length page.now }
    requires size { length page.now ≤ 8192 }
    ensures some { 1 ≤ result }
    ensures unused { (i : ℕ) → i < n → number_in page.now (entry_at i) ≢ result }
    ensures lowest { (k : ℕ) → 1 ≤ k → k < result → (i : ℕ) × (i < n)
        × (number_in page.now (entry_at i) ≡ k) }
{
    first_unmarked(&marks_of(page, n)) as u32 + 1
}
