//! Room for the bytes of a page.
ghost use Rattle.std.specs.Prelude.{◌≡◌, [], OnOk, OnErr};

use std::alloc::{AllocError, Global};
use std::marker::Model;

/// Room for a copy of a page's bytes. No port fills it: a page is lent where it stands. Contracts see the bytes.
#[derive(Drop)]
pub struct PageRoom {
    bytes: Vec<u8>,
}

impl Model for PageRoom {
    ghost use Rattle.std.specs.Prelude.{ℕ, List};

    ghost Value = { List ℕ };

    ghost view = { λ r. r.bytes.items };
}

impl PageRoom {
    /// Room without bytes yet.
    pub fn new(alloc: Global) -> PageRoom
        ensures { result ≡ [] }
    {
        PageRoom {
            bytes: Vec::new(alloc),
        }
    }

    /// The bytes of a page come in the place of those that were there. Where memory is wanted, none are there.
    pub fn fill(&mut self, page: &[u8]) -> Result<(), AllocError>
        ensures filled { OnOk result (self.new ≡ page.now) }
        ensures emptied { OnErr result (self.new ≡ []) }
    {
        self.bytes.clear();
        self.bytes.extend_from_slice(page)
    }

    /// The bytes that are there.
    pub fn bytes(&self) -> &[u8]
        ensures { result.now ≡ self.now }
    {
        &self.bytes
    }
}
