//! Lists of which memory is touched only as far as they were changed.
ghost use Rattle.std.specs.Prelude.{◌≡◌, ◌<◌, ◌≤◌, ◌+◌, ◌^◌, ℕ, All, Bool, true, length, replicate, slice_index_or, slice_set, IfOk};

use std::alloc::{AllocError, Global};
use std::marker::Model;

/// How many elements are written together where one behind all written ones is set.
const STEP: usize = 1024;

/// The end of the elements that are written so that one at a place can be set.
fn end_behind(at: usize, len: usize) -> usize
    requires { at < len }
    ensures behind { at < result }
    ensures inside { result ≤ len }
{
    if len - at > STEP { at + STEP } else { len }
}

/// A list of a fixed length, of equal elements at first. Room for all of them is taken when it is made, but it is written only up to a few behind the
/// last place that was set, so the system gives no memory for what lies further behind. Contracts see the whole list.
#[derive(Drop)]
pub struct Filled<T: Copy> {
    // the elements up to the last place that was set, and a few behind it
    written: Vec<T>,
    // what each element behind them is
    rest: T,
    len: usize,
}

impl<T: Copy> Model for Filled<T> {
    ghost use Rattle.std.specs.Prelude.{List, ◌≤◌, ◌++◌, ◌-◌, length, replicate, vec_capacity};

    ghost Value = { List T };

    ghost view = { λ f. f.written.items ++ replicate (f.len - length f.written.items) f.rest };

    ghost invariant = { λ f. (length f.written.items ≤ f.len) × (f.len ≤ vec_capacity f.written) };
}

impl<T: Copy> Filled<T> {
    /// So many times this element.
    pub fn make(alloc: Global, element: T, len: usize) -> Result<Filled<T>, AllocError>
        ensures { IfOk result (λ list. list ≡ replicate len element) }
    {
        Ok(Filled {
            written: Vec::with_capacity(alloc, len)?,
            rest: element,
            len,
        })
    }

    /// A copy, which can be changed apart.
    pub fn copy(&self, alloc: Global) -> Result<Filled<T>, AllocError>
        ensures { IfOk result (λ list. list ≡ self.now) }
    {
        let mut written = Vec::with_capacity(alloc, self.len)?;
        written.extend_from_slice(&self.written)?;
        Ok(Filled {
            written,
            rest: self.rest,
            len: self.len,
        })
    }

    /// How many elements there are.
    pub fn len(&self) -> usize
        ensures { result ≡ length self.now }
    {
        self.len
    }

    /// The element at a place.
    pub fn get(&self, at: usize) -> T
        requires { at < length self.now }
        ensures { (d : T) → result ≡ slice_index_or self.now at d }
    {
        if at < self.written.len() {
            self.written[at]
        } else {
            self.rest
        }
    }

    /// Puts an element in the place of another.
    pub fn set(&mut self, at: usize, element: T)
        requires { at < length self.old }
        ensures { self.new ≡ slice_set self.old at element }
    {
        if at < self.written.len() {
            self.written[at] = element;
        } else {
            self.set_behind(at, element);
        }
    }

    // The same also behind what was written. It stands apart, so that what `set` inlines stays small.
    #[cold]
    #[inline(never)]
    fn set_behind(&mut self, at: usize, element: T)
        requires { at < length self.old }
        ensures { self.new ≡ slice_set self.old at element }
    {
        let end = end_behind(at, self.len);
        if at >= self.written.len() && self.written.resize(end, self.rest).is_err() {
            unreachable!();
        }
        self.written[at] = element;
    }
}

/// Whether each flag is set. They are looked at together, without a branch for each.
fn are_set(flags: &[bool]) -> bool
    ensures { result ≡ true → All (λ (flag : Bool). flag ≡ true) flags.now }
{
    let mut all = true;
    for flag in flags {
        all &= *flag;
    }
    all
}

impl Filled<bool> {
    /// Whether so many elements from a place on were written, and each is true.
    pub fn is_set_from(&self, at: usize, count: usize) -> bool
        requires { at + count < 2 ^ 64 }
        ensures { result ≡ true → (k : ℕ) → at ≤ k → k < at + count
            → slice_index_or self.now k true ≡ true }
    {
        let end = at + count;
        end <= self.written.len() && are_set(&self.written[at..end])
    }
}
