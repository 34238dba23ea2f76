//! The name of the last file.
ghost use Rattle.std.specs.Prelude.{◌≡◌, ◌↔◌, ◌≤◌, [], length, IsTrue};
ghost use Rattle.std.specs.Ordering.{nat_cmp};
ghost use Rattle.std.specs.Cmp.Lexicographic.{slice_cmp};
ghost use Rattle.std.specs.declared.cmp.Ordering.TheVariants.{Less};

use std::cmp::Ordering;
use std::marker::Model;

/// The most bytes of a name.
const NAME_MOST: usize = 32;

/// The name of the last file, empty before there is one.
#[derive(Drop)]
pub struct LastName {
    room: [u8; NAME_MOST],
    len: usize,
}

impl Model for LastName {
    ghost use Rattle.std.specs.Prelude.{ℕ, ◌≤◌, List, take};

    ghost Value = { List ℕ };

    ghost view = { λ v. take v.len v.room };

    ghost invariant = { λ v. v.len ≤ 32 };
}

impl LastName {
    /// There is no file yet.
    pub fn none() -> LastName
        ensures { result ≡ [] }
    {
        LastName {
            room: [0; NAME_MOST],
            len: 0,
        }
    }

    /// Notes a name.
    pub fn set(&mut self, name: &[u8])
        requires { length name.now ≤ 32 }
        ensures { self.new ≡ name.now }
    {
        self.room[..name.len()].copy_from_slice(name);
        self.len = name.len();
    }

    /// Whether the last name comes before this one in byte order.
    pub fn is_before(&self, name: &[u8]) -> bool
        ensures { IsTrue result ↔ (slice_cmp nat_cmp self.now name.now ≡ Less) }
    {
        match self.room[..self.len].cmp(name) {
            Ordering::Less => true,
            _ => false,
        }
    }
}
