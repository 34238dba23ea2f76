// The units of one area, by their place in it.
ghost use Rattle.std.specs.Prelude.{◌≡◌, ℕ, ◌+◌, ◌-◌, ◌<◌, ◌≤◌, ◌↔◌, IsTrue, true, false, length, slice_index_or, slice_set, IfOk, replicate, if◌then◌else◌, ◌&&◌};
ghost use Rattle.ex_base.specs.Ports.{with_ref, without_ref};
ghost use Rattle.page_alloc.specs.Flags.{AllUsedBelow, IsFirstFree, count_free};

use crate::filled::Filled;
use crate::search::{BLOCK, GROUP, first_free};
use std::alloc::{AllocError, Global};
use std::marker::Model;

#[derive(Drop)]
pub struct AreaUnits {
    used: Filled<bool>,
    refs: Filled<u32>,
    // of each group and of each block, whether all its units are known to be used
    full: Vec<bool>,
    crowded: Vec<bool>,
    // no free unit lies before it
    low: usize,
    // no free unit lies behind `low` and before it
    next: usize,
    free: u32,
}

impl Model for AreaUnits {
    ghost use Rattle.ex_base.specs.Ports.{with_ref, without_ref};
    ghost use Rattle.page_alloc.specs.Flags.{UnitFlags};
    ghost use Rattle.page_alloc.specs.Hints.{IsSound};

    ghost Value = { UnitFlags };

    ghost view = { λ a. record { used = a.used; refs = a.refs } };

    ghost invariant = { λ a. IsSound a.used a.refs a.full.items a.crowded.items a.low a.next a.free };
}

/// Up to where no free unit lies behind the lowest that may be free, after one is given back.
fn up_to(low: usize, next: usize, at: usize) -> usize
    ensures first { at < low → result ≡ low }
    ensures later { low ≤ at → (result ≤ next) × (result ≤ at) }
{
    if at < low { low } else { next.min(at) }
}

impl AreaUnits {
    pub fn make(alloc: Global, count: usize) -> Result<AreaUnits, AllocError>
        requires { count ≤ 4000000 }
        ensures used { IfOk result (λ a. a.used ≡ replicate count false) }
        ensures refs { IfOk result (λ a. a.refs ≡ replicate count 0) }
    {
        Ok(AreaUnits {
            used: Filled::make(alloc, false, count)?,
            refs: Filled::make(alloc, 0, count)?,
            full: vec![in alloc; false; count / GROUP + 1]?,
            crowded: vec![in alloc; false; count / BLOCK + 1]?,
            low: 0,
            next: 0,
            free: count as u32,
        })
    }

    pub fn free(&self) -> u32
        ensures { result ≡ count_free self.now.used }
    {
        self.free
    }

    pub fn is_used(&self, at: usize) -> bool
        requires { at < length self.now.used }
        ensures { result ≡ slice_index_or self.now.used at true }
    {
        self.used.get(at)
    }

    // A place that no free unit precedes, as far behind as is known.
    fn start(&self) -> usize
        requires { 0 < count_free self.now.used }
        ensures { AllUsedBelow self.now.used result }
    {
        if self.used.get(self.low) {
            self.low.max(self.next)
        } else {
            self.low
        }
    }

    /// Takes the first free unit.
    pub fn take(&mut self) -> usize
        requires { 0 < count_free self.old.used }
        ensures first { IsFirstFree self.old.used result }
        ensures used { self.new.used ≡ slice_set self.old.used result true }
        ensures refs { self.new.refs ≡ self.old.refs }
        ensures fresh { slice_index_or self.old.refs result 0 ≡ 0 }
    {
        let from = self.start();
        let at = first_free(&self.used, &mut self.full, &mut self.crowded, from);
        self.used.set(at, true);
        self.low = (at + 1).max(self.next);
        self.free -= 1;
        at
    }

    /// Makes a free unit used.
    pub fn adopt(&mut self, at: usize)
        requires inside { at < length self.old.used }
        requires unused { slice_index_or self.old.used at true ≡ false }
        ensures used { self.new.used ≡ slice_set self.old.used at true }
        ensures refs { self.new.refs ≡ self.old.refs }
        ensures fresh { slice_index_or self.old.refs at 0 ≡ 0 }
    {
        self.used.set(at, true);
        self.free -= 1;
    }

    /// Gives a used unit back.
    pub fn give(&mut self, at: usize)
        requires inside { at < length self.old.used }
        requires used { slice_index_or self.old.used at true ≡ true }
        ensures used { self.new.used ≡ slice_set self.old.used at false }
        ensures refs { self.new.refs ≡ slice_set self.old.refs at 0 }
    {
        self.used.set(at, false);
        self.refs.set(at, 0);
        self.full[at / GROUP] = false;
        self.crowded[at / BLOCK] = false;
        self.next = up_to(self.low, self.next, at);
        self.low = self.low.min(at);
        self.free += 1;
    }

    pub fn refs(&self, at: usize) -> u32
        requires { at < length self.now.used }
        ensures refs { result ≡ slice_index_or self.now.refs at 0 }
        ensures unowned { slice_index_or self.now.used at true ≡ false → result ≡ 0 }
    {
        self.refs.get(at)
    }

    /// Adds a reference to a used unit, unless it has the most that fit.
    #[inline(always)]
    pub fn add_ref(&mut self, at: usize)
        requires { at < length self.old.used }
        ensures used { self.new.used ≡ self.old.used }
        ensures refs { self.new.refs ≡ slice_set self.old.refs at
            (with_ref (slice_index_or self.old.used at true) (slice_index_or self.old.refs at 0)) }
    {
        let count = self.refs.get(at);
        // A unit with an owner is used, so most times only the count is read.
        if (count > 0 || self.used.get(at)) && count < u32::MAX {
            self.refs.set(at, count + 1);
        }
    }

    /// Takes a reference away, where there is one; true where it was the last.
    #[inline(always)]
    pub fn drop_ref(&mut self, at: usize) -> bool
        requires { at < length self.old.used }
        ensures last { IsTrue result ↔ (slice_index_or self.old.refs at 0 ≡ 1) }
        ensures used { self.new.used ≡ self.old.used }
        ensures refs { self.new.refs ≡ slice_set self.old.refs at
            (without_ref (slice_index_or self.old.refs at 0)) }
    {
        let count = self.refs.get(at);
        if count == 0 {
            return false;
        }
        self.refs.set(at, count - 1);
        count == 1
    }
}
