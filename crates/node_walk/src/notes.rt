// What a walk notes of the units of a tree.
ghost use Rattle.std.specs.Prelude.{◌≡◌, ◌↔◌, ℕ, true, false, None, Some, OnOk, IsTrue, nat_eq};
ghost use Rattle.node_walk.specs.Notes.{is_marked, leaf_note, marks_of, notes_in};

use crate::nodes::{LEAF, Met};
use ex_base::PageNo;
use std::alloc::{AllocError, Global};
use std::collections::HashMap;

/// How many pages beside each other have their marks in one word.
const MARKS: u32 = 64;

/// What is noted of the units of one tree, by the pages that name them. A leaf takes one bit, since a large tree has hundreds of leaves for each node, and
/// the word of bits that was used last is at hand, since leaves mostly lie beside each other.
#[derive(Drop)]
pub(crate) struct TreeNotes {
    pub nodes: HashMap<u32, Met>,
    /// The words of marks, by the group of pages that share one, but for the one at hand.
    pub leaves: HashMap<u32, u64>,
    /// The group whose word is at hand.
    pub group: u32,
    pub marks: u64,
}

// Whether this is the note of a leaf.
fn is_leaf(met: Met) -> bool
    ensures { IsTrue result ↔ (met ≡ leaf_note) }
{
    met.level == 0 && met.total == 0 && met.pairs == 0
}

impl TreeNotes {
    /// No unit has a note.
    pub fn new(alloc: Global) -> TreeNotes
        ensures { (page : ℕ) → notes_in result page ≡ None }
    {
        TreeNotes {
            nodes: HashMap::new(alloc),
            leaves: HashMap::new(alloc),
            group: 0,
            marks: 0,
        }
    }

    // The word of marks of a group.
    fn marks_of(&self, group: u32) -> u64
        ensures { result ≡ marks_of self.now group }
    {
        if group == self.group {
            return self.marks;
        }
        self.leaves.get(&group).copied().unwrap_or(0)
    }

    // Whether a page has its mark.
    fn is_marked(&self, page: PageNo) -> bool
        ensures { result ≡ is_marked self.now page.0 }
    {
        (self.marks_of(page.0 / MARKS) >> (page.0 % MARKS)) & 1 == 1
    }

    // Takes the word of a group to hand.
    fn turn_to(&mut self, group: u32) -> Result<(), AllocError>
        ensures at { OnOk result (self.new.group ≡ group) }
        ensures marks { OnOk result ((g : ℕ) → marks_of self.new g ≡ marks_of self.old g) }
        ensures nodes { self.new.nodes ≡ self.old.nodes }
    {
        if group == self.group {
            return Ok(());
        }
        let marks = self.marks_of(group);
        if self.leaves.insert(self.group, self.marks).is_err() {
            return Err(AllocError);
        }
        self.group = group;
        self.marks = marks;
        Ok(())
    }

    // Sets the mark of a page.
    fn mark(&mut self, page: PageNo) -> Result<(), AllocError>
        ensures here { OnOk result (is_marked self.new page.0 ≡ true) }
        ensures others { OnOk result ((q : ℕ) → nat_eq page.0 q ≡ false
            → is_marked self.new q ≡ is_marked self.old q) }
        ensures nodes { self.new.nodes ≡ self.old.nodes }
    {
        self.turn_to(page.0 / MARKS)?;
        self.marks = self.marks | 1 << (page.0 % MARKS);
        Ok(())
    }

    /// The note of the unit that a page names.
    pub fn get(&self, page: PageNo) -> Option<Met>
        ensures { result ≡ notes_in self.now page.0 }
    {
        if self.is_marked(page) {
            return Some(LEAF);
        }
        self.nodes.get(&page.0).copied()
    }

    /// Notes a unit that has no note yet.
    pub fn insert(&mut self, page: PageNo, met: Met) -> Result<(), AllocError>
        requires { notes_in self.old page.0 ≡ None }
        ensures here { OnOk result (notes_in self.new page.0 ≡ Some met) }
        ensures others { OnOk result ((q : ℕ) → nat_eq page.0 q ≡ false
            → notes_in self.new q ≡ notes_in self.old q) }
    {
        if is_leaf(met) {
            return self.mark(page);
        }
        match self.nodes.insert(page.0, met) {
            Ok(_) => Ok(()),
            Err(_) => Err(AllocError),
        }
    }
}
