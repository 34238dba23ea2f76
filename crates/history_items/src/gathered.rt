//! What came of an item that isn't whole yet.
ghost use Rattle.std.specs.Prelude.{◌≡◌, ◌+◌, ◌-◌, ◌<◌, ◌≤◌, min, [], ◌++◌, length, take, IfOk};
ghost use Rattle.history_items.specs.Gathering.{Gathering, item_most};

use crate::leaves::LEAF_HEAD;
use ex_base::Geometry;
use std::alloc::{AllocError, Global};
use std::marker::Model;

/// The bytes that came of an item, with room for the longest one, which is taken once.
#[derive(Drop)]
pub struct Gathered {
    room: Vec<u8>,
    len: usize,
}

impl Model for Gathered {
    ghost Value = { Gathering };

    ghost view = { λ v. record { held = take v.len v.room.items; room = length v.room.items } };

    ghost invariant = { λ v. v.len ≤ length v.room.items };
}

impl Gathered {
    /// None yet, with room for each item of a stream for volumes of these sizes.
    pub fn make(alloc: Global, geometry: &Geometry) -> Result<Gathered, AllocError>
        ensures none { IfOk result (λ made. made.held ≡ []) }
        ensures room { IfOk result (λ made. made.room ≡ item_most geometry.now) }
    {
        let room = LEAF_HEAD + geometry.leaf_bytes() as usize;
        Ok(Gathered {
            room: vec![in alloc; 0u8; room]?,
            len: 0,
        })
    }

    /// The bytes that came.
    pub fn as_slice(&self) -> &[u8]
        ensures { result.now ≡ self.now.held }
    {
        &self.room[..self.len]
    }

    /// Takes of a piece as many bytes as are missing to a length, and answers how many.
    pub fn fill(&mut self, piece: &[u8], need: usize) -> usize
        requires missing { length self.old.held < need }
        requires room { need ≤ self.old.room }
        ensures taken { result ≡ min (need - length self.old.held) (length piece.now) }
        ensures held { self.new.held ≡ self.old.held ++ take result piece.now }
        ensures room { self.new.room ≡ self.old.room }
    {
        let taken = (need - self.len).min(piece.len());
        let end = self.len + taken;
        self.room[self.len..end].copy_from_slice(&piece[..taken]);
        self.len = end;
        taken
    }

    /// Forgets what came.
    pub fn clear(&mut self)
        ensures held { self.new.held ≡ [] }
        ensures room { self.new.room ≡ self.old.room }
    {
        self.len = 0;
    }
}
