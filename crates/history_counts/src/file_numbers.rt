//! The versions of the file at hand, by their numbers.
ghost use Rattle.std.specs.Prelude.{◌≡◌, ◌↔◌, ◌++◌, [], ◌∷◌, Contains, OnErr, OnOk, IsTrue};
ghost use Rattle.std.specs.List.{AllByRecursion};
ghost use Rattle.ex_base.specs.Order.{Rising};
ghost use Rattle.history_counts.specs.Numbers.{no_numbers, numbered_more};

use std::alloc::{AllocError, Global};
use std::marker::Model;

/// The numbers of the versions of a file so far, and those of the versions that they are derived from. Room for them is kept from file to file.
#[derive(Drop)]
pub struct FileNumbers {
    numbers: Vec<u64>,
    olders: Vec<u64>,
}

impl Model for FileNumbers {
    ghost use Rattle.history_counts.specs.Numbers.{Numbers};

    ghost Value = { Numbers };

    ghost view = { λ v. record { numbers = v.numbers.items; olders = v.olders.items } };
}

impl FileNumbers {
    /// Those of a file of no version.
    pub fn make(alloc: Global) -> FileNumbers
        ensures { result ≡ no_numbers }
    {
        FileNumbers {
            numbers: Vec::new(alloc),
            olders: Vec::new(alloc),
        }
    }

    /// Begins a file.
    pub fn clear(&mut self)
        ensures { self.new ≡ no_numbers }
    {
        self.numbers.clear();
        self.olders.clear();
    }

    /// Notes a version, and which one it is derived from, if any. Where there is no memory, no version comes to the others.
    pub fn push(&mut self, number: u64, older: Option<u64>) -> Result<(), AllocError>
        ensures noted { OnOk result (self.new ≡ numbered_more self.old number older) }
        ensures numbers { OnErr result (self.new.numbers ≡ self.old.numbers) }
    {
        match older {
            Some(older) => self.olders.push(older)?,
            None => {}
        }
        self.numbers.push(number)?;
        Ok(())
    }

    /// Whether the numbers still rise with this one at their end.
    pub fn rise_with(&self, number: u64) -> bool
        requires { Rising self.now.numbers }
        ensures { IsTrue result ↔ Rising (self.now.numbers ++ number ∷ []) }
    {
        match self.numbers.last() {
            None => true,
            Some(last) => *last < number,
        }
    }

    /// Whether a version of this number is there.
    fn has(&self, number: u64) -> bool
        requires { Rising self.now.numbers }
        ensures { IsTrue result ↔ Contains self.now.numbers number }
    {
        self.numbers.binary_search(&number).is_ok()
    }

    /// Whether each version that one is derived from is there.
    pub fn are_olders_there(&self) -> bool
        requires { Rising self.now.numbers }
        ensures { IsTrue result ↔ AllByRecursion (Contains self.now.numbers) self.now.olders }
    {
        for i in 0..self.olders.len() {
            let older = self.olders[i];
            if !self.has(older) {
                return false;
            }
        }
        true
    }
}
