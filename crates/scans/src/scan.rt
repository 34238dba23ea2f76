//! One open scan.
ghost use Rattle.std.specs.Prelude.{◌≡◌, ◌≤◌, ◌<◌, ◌+◌, ◌-◌, ℕ, List, [], length, min, Option, Some, None, IfOk, IfErr, OnOk, IsOk, IfSome, MatchResult};
ghost use Rattle.std.specs.Borrow.{sem};
ghost use Rattle.ex_base.specs.declared.names.Root.{Root};
ghost use Rattle.ex_base.specs.Area.{NamesLeaf};
ghost use Rattle.ex_base.specs.Bytes.{bytes_at};
ghost use Rattle.ex_base.specs.Ports.{Keeps, HasCause, IsDamage};
ghost use Rattle.trees.specs.Damage.{IsRootReadFault, IsWhole, IsSoundRoot};
ghost use Rattle.trees.specs.Trees.{RootSpells};
ghost use Rattle.trees.specs.Roots.{IsRootFor};

use ex_base::{PortFault, ReadBlocks, Root};
use std::alloc::{AllocError, Global};
use std::marker::Model;
use tree_insert::read;

/// An open scan: the bytes of an object as it was opened, from a position on. It holds the bytes of a small object, and of a large one the root of its
/// tree and a block for one piece.
#[derive(Drop)]
pub struct Scan {
    root: Option<Root>,
    small: Vec<u8>,
    pos: u64,
    block: Vec<u8>,
}

impl Model for Scan {
    ghost use Rattle.std.specs.Prelude.{◌≤◌};
    ghost use Rattle.scans.specs.Scans.{Position, size_of};

    ghost Value = { Position };

    ghost view = { λ s. record { root = s.root; small = s.small.items; pos = s.pos } };

    ghost invariant = { λ s. s.pos ≤ size_of s.root s.small.items };
}

/// Makes the block as long as a piece. Pieces of one length share it, and a block of another length is given back first.
fn fit(block: &mut Vec<u8>, alloc: Global, len: usize) -> Result<(), AllocError>
    ensures { OnOk result (length block.new.items ≡ len) }
{
    if block.len() == len {
        return Ok(());
    }
    *block = Vec::new(alloc);
    *block = vec![in alloc; 0u8; len]?;
    Ok(())
}

/// Reads so many bytes that a root spells, from a position on, into the block.
fn read_piece<B: ReadBlocks>(
    block: &mut Vec<u8>,
    blocks: &mut B,
    alloc: Global,
    root: &Root,
    pos: u64,
    len: usize,
) -> Result<(), PortFault>
    requires ready { B.ready blocks.old }
    requires root { IsRootFor (B.geometry blocks.old) root.now }
    requires range { pos + len ≤ root.now.size }
    ensures len { OnOk result (length block.new.items ≡ len) }
    ensures bytes { OnOk result (B.tells blocks.old → (bytes : List ℕ)
        → RootSpells (B.geometry blocks.old) (B.unit blocks.old) root.now bytes
        → block.new.items ≡ bytes_at bytes pos len) }
    ensures way { OnOk result (B.tells blocks.old → (byte : ℕ) → pos ≤ byte → byte < pos + len
        → IsSoundRoot (B.geometry blocks.old) (B.unit blocks.old)
        (NamesLeaf (B.geometry blocks.old)) root.now byte byte) }
    ensures fault { IfErr result (λ fault. B.tells blocks.old
        → IsRootReadFault (B.geometry blocks.old) (B.unit blocks.old) root.now pos len fault) }
    ensures sound { IfErr result (λ fault. B.tells blocks.old
        → IsWhole (B.geometry blocks.old) (B.unit blocks.old) root.now → IsDamage fault → ⊥) }
    ensures kept { Keeps B.Ground blocks.old blocks.new }
    ensures cause { HasCause (B.faults blocks.old) (B.faults blocks.new) result }
{
    fit(block, alloc, len)?;
    read(blocks, alloc, root, pos, block)
}

impl Scan {
    ghost use Rattle.scans.specs.Scans.{Opened, scan_size, next_len, moved_by};
    ghost use Rattle.scans.specs.Lending.{ScanRests};

    /// A scan of a large object, from its first byte on.
    pub fn of_large(alloc: Global, root: Root) -> Scan
        ensures { result ≡ record { root = Some root; small = []; pos = 0 } }
    {
        Scan {
            root: Some(root),
            small: Vec::new(alloc),
            pos: 0,
            block: Vec::new(alloc),
        }
    }

    /// A scan of a small object with these bytes, from the first one on.
    pub fn of_small(alloc: Global, bytes: &[u8]) -> Result<Scan, AllocError>
        ensures { IfOk result (λ scan. scan ≡ record { root = None; small = bytes.now; pos = 0 }) }
    {
        Ok(Scan {
            root: None,
            small: bytes.to_vec(alloc)?,
            pos: 0,
            block: Vec::new(alloc),
        })
    }

    /// The root of the tree that the scan reads. None where it holds its bytes.
    pub fn root(&self) -> Option<Root>
        ensures { result ≡ self.now.root }
    {
        self.root
    }

    /// How many bytes are still to be given.
    pub fn rest(&self) -> u64
        ensures { result ≡ scan_size self.now - self.now.pos }
    {
        let size = match self.root {
            Some(root) => root.size,
            None => self.small.len() as u64,
        };
        size - self.pos
    }

    /// Lends the next `n` bytes, or all that are left where they are fewer, as one slice, and moves on behind them. After a fault the position stays. A
    /// small object is lent without a call of the blocks, and never fails.
    pub fn next<B: ReadBlocks>(
        &mut self,
        blocks: &mut B,
        alloc: Global,
        n: u32,
    ) -> Result<&[u8], PortFault>
        requires ready { B.ready blocks.old }
        requires root { IfSome self.old.root (IsRootFor (B.geometry blocks.old)) }
        ensures* after { sem 𝓛 (ScanRests self.entry (λ new. MatchResult result
            (λ _. new ≡ moved_by (next_len n self.old) self.old) (λ _. new ≡ self.old))) }
        ensures bytes { IfOk result (λ given. B.tells blocks.old → (opened : List ℕ)
            → Opened (B.geometry blocks.old) (B.unit blocks.old) self.old opened
            → given.now ≡ bytes_at opened self.old.pos (next_len n self.old)) }
        ensures len { IfOk result (λ given. length given.now ≡ next_len n self.old) }
        ensures way { OnOk result (B.tells blocks.old → IfSome self.old.root (λ root. (byte : ℕ)
            → self.old.pos ≤ byte → byte < self.old.pos + next_len n self.old
            → IsSoundRoot (B.geometry blocks.old) (B.unit blocks.old)
            (NamesLeaf (B.geometry blocks.old)) root byte byte)) }
        ensures fault { IfErr result (λ fault. B.tells blocks.old → IfSome self.old.root (λ root.
            IsRootReadFault (B.geometry blocks.old) (B.unit blocks.old) root
            self.old.pos (next_len n self.old) fault)) }
        ensures sound { IfErr result (λ fault. IsDamage fault → B.tells blocks.old → (root : Root)
            → self.old.root ≡ Some root
            → IsWhole (B.geometry blocks.old) (B.unit blocks.old) root → ⊥) }
        ensures held { self.old.root ≡ None → IsOk result × (blocks.new ≡ blocks.old) }
        ensures kept { Keeps B.Ground blocks.old blocks.new }
        ensures cause { HasCause (B.faults blocks.old) (B.faults blocks.new) result }
    {
        let len = u64::from(n).min(self.rest()) as usize;
        let at = self.pos;
        match self.root {
            None => {
                self.pos += len as u64;
                Ok(&self.small[at as usize..at as usize + len])
            }
            Some(root) => {
                read_piece(&mut self.block, blocks, alloc, &root, at, len)?;
                self.pos += len as u64;
                Ok(&self.block)
            }
        }
    }
}
