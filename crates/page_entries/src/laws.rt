// Laws of what is said.
ghost use Rattle.std.specs.Prelude.{◌≡◌, ◌≤◌, ℕ, List, ◌++◌, length, Option, Some, IfSome};
ghost use Rattle.slotted_pages.specs.FilePage.{Slot};
ghost use Rattle.slotted_pages.specs.Edits.{trimmed};
ghost use Rattle.page_entries.specs.Applying.{slots_after};
ghost use Rattle.page_entries.specs.Changed.{slots_changed};
ghost use Rattle.page_entries.specs.After.{Applies, said_after};
ghost use Rattle.page_entries.specs.Rule.{ByRule};
ghost use Rattle.page_entries.specs.Said.{Said, said_bytes, said_on, form_of, IsSaid};

/// What is said is read where it is spelled.
pub fn said_is_read()
    ensures { (size : ℕ) (said : Said) → IsSaid size said → said_on (form_of said) (said_bytes said)
        ≡ said }
{}

/// No spelling in a form begins another one in it: what is said, and where it ends, is told by the bytes.
pub fn said_is_one()
    ensures { (size : ℕ) (a b : Said) (x y : List ℕ) → IsSaid size a → IsSaid size b
        → form_of a ≡ form_of b → said_bytes a ++ x ≡ said_bytes b ++ y → (a ≡ b) × (x ≡ y) }
{}

/// The slots that differ, put into the old ones, give the new ones, but for vacant ones at the end.
pub fn changed_slots_give_the_new_ones()
    ensures { (old new : List Slot) → trimmed (slots_after (slots_changed old new) old)
        ≡ trimmed new }
{}

/// What a commit says of a page applies to the page so far, and gives the new one.
pub fn a_rule_entry_gives_the_page()
    ensures { (page : ℕ) (old : Option (List ℕ)) (new : List ℕ) (said : Said)
        → IfSome old (λ before. length before ≡ length new) → ByRule page old new said
        → Applies page said old × (said_after said old ≡ Some new) }
{}

/// A commit says one thing of a page, in no more bytes than the page has.
pub fn one_rule_entry()
    ensures one { (page : ℕ) (old : Option (List ℕ)) (new : List ℕ) (a b : Said)
        → ByRule page old new a → ByRule page old new b → a ≡ b }
    ensures short { (page : ℕ) (old : Option (List ℕ)) (new : List ℕ) (said : Said)
        → ByRule page old new said → length (said_bytes said) ≤ length new }
{}
