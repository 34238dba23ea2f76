// The units that were given back so far. Only proofs see them.
ghost use Rattle.std.specs.Prelude.{◌≡◌, ℕ, List, [], ◌∷◌};
ghost use Rattle.std.specs.Borrow.{ftrue};

use ex_base::PageNo;
use std::marker::Model;

/// The numbers of the units that were given back, the last one first. It takes no memory.
#[derive(Drop)]
pub struct History {
    pub ghost given: { List ℕ },
}

impl Model for History {
    ghost also_owns = { λ _. ftrue };
}

impl History {
    pub fn new() -> History
        ensures { result.given ≡ [] }
    {
        History {}
    }

    /// The history after one more unit was given back.
    pub fn with(before: &History, page: &PageNo) -> History
        ensures { result.given ≡ page.now.0 ∷ before.now.given }
    {
        History {}
    }
}
