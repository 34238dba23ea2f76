//! The open scans of a session, in the order in which they were opened.
ghost use Rattle.std.specs.Prelude.{◌≡◌, ◌≤◌, ◌<◌, ◌++◌, [], ◌∷◌, length, List, ℕ, Some, None, IfOk, IfErr, IfSome, OnOk, OnErr, IsOk, position, slice_set, remove};
ghost use Rattle.std.specs.List.{list_any};
ghost use Rattle.ex_base.specs.Bytes.{bytes_at};
ghost use Rattle.ex_base.specs.Ports.{Keeps, HasCause, IsDamage};
ghost use Rattle.ex_base.specs.declared.faults.PortFault.TheVariants.{Memory};
ghost use Rattle.ex_base.specs.declared.names.Root.{Root};
ghost use Rattle.open_scans.specs.OpenScans.{HasSoundRest, IsNextFault, is_named};
ghost use Rattle.scans.specs.Scans.{Opened, next_len, moved_by};
ghost use Rattle.table_model.specs.Machines.{scans_most};
ghost use Rattle.trees.specs.Damage.{IsWhole};
ghost use Rattle.trees.specs.Roots.{IsRootFor};

use ex_base::{PortFault, ReadBlocks, Root};
use scans::Scan;
use std::alloc::{AllocError, Global};
use std::marker::Model;
use table_model::Name;

/// An open scan: its name, what it gives, and the index of the group of frames that it reads through.
#[derive(Drop)]
pub struct OpenScan {
    name: Name,
    scan: Scan,
    group: u32,
}

impl Model for OpenScan {
    ghost use Rattle.open_scans.specs.OpenScans.{OpenRow, at_position};

    ghost Value = { OpenRow };

    ghost view = { λ s. at_position s.name s.group s.scan };
}

impl OpenScan {
    ghost use Rattle.open_scans.specs.OpenScans.{at_position, position_of, given_len, row_after};

    /// A scan of a large object, from its first byte on.
    pub fn of_large(alloc: Global, name: Name, root: Root, group: u32) -> OpenScan
        ensures { result ≡ at_position name group (record { root = Some root; small = []; pos = 0 }) }
    {
        OpenScan {
            name,
            scan: Scan::of_large(alloc, root),
            group,
        }
    }

    /// A scan of a small object with these bytes, from the first one on.
    pub fn of_small(
        alloc: Global,
        name: Name,
        bytes: &[u8],
        group: u32,
    ) -> Result<OpenScan, AllocError>
        ensures { IfOk result (λ scan. scan ≡ at_position name group
            (record { root = None; small = bytes.now; pos = 0 })) }
    {
        Ok(OpenScan {
            name,
            scan: Scan::of_small(alloc, bytes)?,
            group,
        })
    }

    /// Gives the next `n` bytes, or all that are left where they are fewer, and moves on behind them. The memory for them is taken before the scan is read, so
    /// the scan stays as it was after any fault.
    fn next<B: ReadBlocks>(
        &mut self,
        blocks: &mut B,
        alloc: Global,
        n: u32,
    ) -> Result<Vec<u8>, PortFault>
        requires ready { B.ready blocks.old }
        requires root { IfSome self.old.scan.root (IsRootFor (B.geometry blocks.old)) }
        ensures moved { OnOk result (self.new ≡ row_after n self.old) }
        ensures stays { OnErr result (self.new ≡ self.old) }
        ensures bytes { IfOk result (λ given. B.tells blocks.old → (opened : List ℕ)
            → Opened (B.geometry blocks.old) (B.unit blocks.old) (position_of self.old.scan) opened
            → given.items ≡ bytes_at opened self.old.scan.pos (given_len n self.old)) }
        ensures len { IfOk result (λ given. length given.items ≡ given_len n self.old) }
        ensures way { OnOk result (B.tells blocks.old
            → HasSoundRest (B.geometry blocks.old) (B.unit blocks.old) n
            (position_of self.old.scan)) }
        ensures fault { IfErr result (λ fault. B.tells blocks.old
            → IsNextFault (B.geometry blocks.old) (B.unit blocks.old) n
            (position_of self.old.scan) fault) }
        ensures sound { IfErr result (λ fault. IsDamage fault → B.tells blocks.old
            → (root : Root) → self.old.scan.root ≡ Some root
            → IsWhole (B.geometry blocks.old) (B.unit blocks.old) root → ⊥) }
        ensures held { self.old.scan.root ≡ None
            → (blocks.new ≡ blocks.old) × IfErr result (λ fault. fault ≡ Memory) }
        ensures kept { Keeps B.Ground blocks.old blocks.new }
        ensures cause { HasCause (B.faults blocks.old) (B.faults blocks.new) result }
    {
        let len = u64::from(n).min(self.scan.rest()) as usize;
        let mut given = vec![in alloc; 0u8; len]?;
        match copy_next(&mut self.scan, blocks, alloc, n, &mut given) {
            Ok(()) => Ok(given),
            Err(fault) => Err(fault),
        }
    }
}

/// Copies the next `n` bytes of a scan into `out`, which has room for them exactly, and moves the scan on.
fn copy_next<B: ReadBlocks>(
    scan: &mut Scan,
    blocks: &mut B,
    alloc: Global,
    n: u32,
    out: &mut [u8],
) -> Result<(), PortFault>
    requires ready { B.ready blocks.old }
    requires root { IfSome scan.old.root (IsRootFor (B.geometry blocks.old)) }
    requires room { length out.old ≡ next_len n scan.old }
    ensures moved { OnOk result (scan.new ≡ moved_by (next_len n scan.old) scan.old) }
    ensures stays { OnErr result (scan.new ≡ scan.old) }
    ensures bytes { OnOk result (B.tells blocks.old → (opened : List ℕ)
        → Opened (B.geometry blocks.old) (B.unit blocks.old) scan.old opened
        → out.new ≡ bytes_at opened scan.old.pos (next_len n scan.old)) }
    ensures way { OnOk result (B.tells blocks.old
        → HasSoundRest (B.geometry blocks.old) (B.unit blocks.old) n scan.old) }
    ensures fault { IfErr result (λ fault. B.tells blocks.old
        → IsNextFault (B.geometry blocks.old) (B.unit blocks.old) n scan.old fault) }
    ensures sound { IfErr result (λ fault. IsDamage fault → B.tells blocks.old → (root : Root)
        → scan.old.root ≡ Some root
        → IsWhole (B.geometry blocks.old) (B.unit blocks.old) root → ⊥) }
    ensures held { scan.old.root ≡ None → IsOk result × (blocks.new ≡ blocks.old) }
    ensures kept { Keeps B.Ground blocks.old blocks.new }
    ensures cause { HasCause (B.faults blocks.old) (B.faults blocks.new) result }
{
    match scan.next(blocks, alloc, n) {
        Ok(piece) => {
            out.copy_from_slice(piece);
            Ok(())
        }
        Err(fault) => Err(fault),
    }
}

/// The index of the first scan that has the name.
fn place_of(items: &[OpenScan], name: &[u8]) -> Option<usize>
    ensures value { result ≡ position (is_named name.now) items.now }
    ensures inside { IfSome result (λ index. index < length items.now) }
{
    items.iter().position(|open| open.name.as_slice() == name)
}

/// The open scans of a session, in the order in which they were opened: 64 at most.
#[derive(Drop)]
pub struct OpenScans {
    items: Vec<OpenScan>,
}

impl Model for OpenScans {
    ghost use Rattle.std.specs.Prelude.{List, length, ◌≤◌};
    ghost use Rattle.open_scans.specs.OpenScans.{OpenRow};
    ghost use Rattle.table_model.specs.Machines.{scans_most};

    ghost Value = { List OpenRow };

    ghost view = { λ s. s.items.items };

    ghost invariant = { λ s. length s.items.items ≤ scans_most };
}

impl OpenScans {
    ghost use Rattle.open_scans.specs.OpenScans.{scan_index, position_of, given_len, row_after, AtRow};

    /// No scan is open.
    pub fn new(alloc: Global) -> OpenScans
        ensures { result ≡ [] }
    {
        OpenScans {
            items: Vec::new(alloc),
        }
    }

    /// How many scans are open.
    pub fn len(&self) -> u32
        ensures value { result ≡ length self.now }
        ensures few { length self.now ≤ scans_most }
    {
        self.items.len() as u32
    }

    /// The index of the scan that has the name.
    pub fn index_of(&self, name: &[u8]) -> Option<u32>
        ensures value { result ≡ scan_index self.now name.now }
        ensures inside { IfSome result (λ index. index < length self.now) }
    {
        match place_of(&self.items, name) {
            Some(index) => Some(index as u32),
            None => None,
        }
    }

    /// Whether an open scan has the name.
    pub fn has(&self, name: &[u8]) -> bool
        ensures { result ≡ list_any (is_named name.now) self.now }
    {
        self.items.iter().any(|open| open.name.as_slice() == name)
    }

    /// Puts a scan last. Where there is no memory, nothing changes.
    pub fn push(&mut self, scan: OpenScan) -> Result<(), AllocError>
        requires { length self.old < scans_most }
        ensures ok { OnOk result (self.new ≡ self.old ++ scan ∷ []) }
        ensures err { OnErr result (self.new ≡ self.old) }
    {
        self.items.push(scan)?;
        Ok(())
    }

    /// The index of the group of frames that the scan at an index reads through.
    pub fn group_at(&self, index: u32) -> u32
        requires { index < length self.now }
        ensures { AtRow self.now index (λ row. result ≡ row.group) }
    {
        let open = &self.items[index as usize];
        open.group
    }

    /// The root of the tree that the scan at an index reads. None where it holds its bytes.
    pub fn root_at(&self, index: u32) -> Option<Root>
        requires { index < length self.now }
        ensures { AtRow self.now index (λ row. result ≡ row.scan.root) }
    {
        let open = &self.items[index as usize];
        open.scan.root()
    }

    /// Takes out the scan at an index. The others stay in their order.
    pub fn remove(&mut self, index: u32)
        requires { index < length self.old }
        ensures { self.new ≡ remove self.old index }
    {
        self.items.remove(index as usize);
    }

    /// Gives the next `n` bytes of the scan at an index, or all that are left where they are fewer, and moves it on behind them. After a fault all scans stay
    /// as they were. A scan of a small object makes no call of the blocks, and fails for want of memory alone.
    pub fn next<B: ReadBlocks>(
        &mut self,
        index: u32,
        blocks: &mut B,
        alloc: Global,
        n: u32,
    ) -> Result<Vec<u8>, PortFault>
        requires there { index < length self.old }
        requires ready { B.ready blocks.old }
        requires root { AtRow self.old index
            (λ row. IfSome row.scan.root (IsRootFor (B.geometry blocks.old))) }
        ensures moved { OnOk result (AtRow self.old index
            (λ row. self.new ≡ slice_set self.old index (row_after n row))) }
        ensures stays { OnErr result (self.new ≡ self.old) }
        ensures bytes { IfOk result (λ given. B.tells blocks.old → AtRow self.old index
            (λ row. (opened : List ℕ)
            → Opened (B.geometry blocks.old) (B.unit blocks.old) (position_of row.scan) opened
            → given.items ≡ bytes_at opened row.scan.pos (given_len n row))) }
        ensures len { IfOk result
            (λ given. AtRow self.old index (λ row. length given.items ≡ given_len n row)) }
        ensures way { OnOk result (B.tells blocks.old
            → AtRow self.old index (λ row. HasSoundRest (B.geometry blocks.old)
            (B.unit blocks.old) n (position_of row.scan))) }
        ensures fault { IfErr result (λ fault. B.tells blocks.old
            → AtRow self.old index (λ row. IsNextFault (B.geometry blocks.old)
            (B.unit blocks.old) n (position_of row.scan) fault)) }
        ensures sound { IfErr result (λ fault. IsDamage fault → B.tells blocks.old
            → AtRow self.old index (λ row. (root : Root) → row.scan.root ≡ Some root
            → IsWhole (B.geometry blocks.old) (B.unit blocks.old) root → ⊥)) }
        ensures held { AtRow self.old index (λ row. row.scan.root ≡ None
            → (blocks.new ≡ blocks.old) × IfErr result (λ fault. fault ≡ Memory)) }
        ensures kept { Keeps B.Ground blocks.old blocks.new }
        ensures cause { HasCause (B.faults blocks.old) (B.faults blocks.new) result }
    {
        let open = &mut self.items[index as usize];
        open.next(blocks, alloc, n)
    }
}
