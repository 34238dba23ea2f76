//! What was moved, and where to.
ghost use Rattle.std.specs.Prelude.{◌≡◌, ◌≢◌, ℕ, None, Some, OnOk};
ghost use Rattle.compact.specs.Moved.{KeepsCopies};
ghost use Rattle.compact.specs.Moves.{copies_of};

use ex_base::PageNo;
use std::alloc::{AllocError, Global};
use std::collections::HashMap;

/// The copies of high leaves, and of nodes. A node that leads to no high leaf is its own copy. It is seen as a finite map from units to their copies.
#[derive(Drop)]
pub struct Moves {
    copies: HashMap<u32, PageNo>,
}

impl Moves {
    /// Nothing was moved.
    pub fn make(alloc: Global) -> Moves
        ensures { (page : ℕ) → copies_of result page ≡ None }
    {
        Moves {
            copies: HashMap::new(alloc),
        }
    }

    /// The copy of a unit.
    pub(crate) fn get(&self, page: PageNo) -> Option<PageNo>
        ensures { result ≡ copies_of self.now page.0 }
    {
        self.copies.get(&page.0).copied()
    }

    /// A unit gets a copy. One that it has stays.
    pub(crate) fn add(&mut self, page: PageNo, copy: PageNo) -> Result<(), AllocError>
        ensures keeps { KeepsCopies (copies_of self.old) (copies_of self.new) }
        ensures here { OnOk result (copies_of self.old page.0 ≡ None
            → copies_of self.new page.0 ≡ Some copy) }
        ensures others { OnOk result ((q : ℕ) → q ≢ page.0
            → copies_of self.new q ≡ copies_of self.old q) }
    {
        if self.copies.contains_key(&page.0) {
            return Ok(());
        }
        match self.copies.insert(page.0, copy) {
            Ok(_) => Ok(()),
            Err(_) => Err(AllocError),
        }
    }
}
