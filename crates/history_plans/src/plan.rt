//! A plan: the head of a stream, its leaves and its nodes in order, and each one's number.
ghost use Rattle.std.specs.Prelude.{◌≡◌, ◌<◌, ◌^◌, ℕ, suc, List, length, slice_get, Some, IfOk, IfErr, IfSome};
ghost use Rattle.std.specs.Option.{option_map};
ghost use Rattle.ex_base.specs.Ports.{Keeps, HasCause, IsDamage};
ghost use Rattle.op_log.specs.declared.record.LogRecord.{LogRecord};
ghost use Rattle.volume_model.specs.Volume.{Volume};
ghost use Rattle.volume_edits.specs.Ported.{ShowsVolume, units_in};
ghost use Rattle.history_items.specs.Heads.{stream_head};
ghost use Rattle.history_volumes.specs.Transcribed.{number_in};
ghost use Rattle.history_plans.specs.Plans.{IsPlanned, PlansOf, pages_at};

use crate::PlannedLeaf;
use crate::catalog::{Contents, read_contents};
use crate::faults::NO_CATALOG;
use crate::files::plan_files;
use crate::pieces::Pieces;
use ex_base::{Geometry, PageNo, PortFault, ReadVolume};
use history_items::Head;
use std::alloc::Global;
use std::marker::Model;

/// What is to be written of a volume as a stream. Contracts see it as the head, the leaves with their lengths, and the nodes.
#[derive(Drop)]
pub struct Plan {
    head: Head,
    pieces: Pieces,
}

impl Model for Plan {
    ghost use Rattle.std.specs.Prelude.{◌≡◌, length};
    ghost use Rattle.history_items.specs.Heads.{stream_head};
    ghost use Rattle.history_plans.specs.Plans.{StreamPlan};

    ghost Value = { StreamPlan };

    ghost view = { λ p. record {
      head = stream_head p.head;
      leaves = p.pieces.leaves;
      nodes = p.pieces.nodes;
    } };

    ghost invariant = { λ p. (p.head.leaves ≡ length p.pieces.leaves)
        × (p.head.nodes ≡ length p.pieces.nodes) };
}

/// The number of an item of so many, counted from 1.
fn numbered(len: u32, index: Option<usize>) -> Option<u32>
    requires { IfSome index (λ index. index < len) }
    ensures { result ≡ option_map suc index }
{
    match index {
        Some(index) => Some(index as u32 + 1),
        None => None,
    }
}

/// A number of items that a stream's head says.
fn count(len: usize) -> Result<u32, PortFault>
    ensures same { IfOk result (λ count. count ≡ len) }
    ensures sound { IfErr result (λ fault. len < 2 ^ 32 → ⊥) }
    ensures cause { (before now : ℕ) → HasCause before now result }
{
    match u32::try_from(len) {
        Ok(count) => Ok(count),
        Err(_) => Err(NO_CATALOG),
    }
}

impl Plan {
    /// The plan of these pieces.
    fn make(
        geometry: &Geometry,
        contents: &Contents,
        pages: u32,
        pieces: Pieces,
    ) -> Result<Plan, PortFault>
        ensures made { IfOk result (λ plan. PlansOf geometry.now contents.now pages pieces plan) }
        ensures sound { IfErr result (λ fault. length contents.now.files.items < 2 ^ 32
            → length pieces.leaves < 2 ^ 32 → length pieces.nodes < 2 ^ 32 → ⊥) }
        ensures cause { (before now : ℕ) → HasCause before now result }
    {
        let files = match count(contents.files.len()) {
            Ok(count) => count,
            Err(fault) => return Err(fault),
        };
        let leaves = match count(pieces.leaves()) {
            Ok(count) => count,
            Err(fault) => return Err(fault),
        };
        let nodes = match count(pieces.nodes()) {
            Ok(count) => count,
            Err(fault) => return Err(fault),
        };
        Ok(Plan {
            head: Head {
                page_size: geometry.page_size,
                seg_len: geometry.seg_len,
                fan: geometry.fan,
                next_unique: contents.next_unique,
                last: contents.last,
                files,
                leaves,
                nodes,
                pages,
            },
            pieces,
        })
    }

    /// The plan of the volume that a port shows. Each node is read once. Damage is told only where the port shows no volume.
    pub fn of<V: ReadVolume>(volume: &mut V, alloc: Global) -> Result<Plan, PortFault>
        requires { V.ready volume.old }
        ensures plans { IfOk result (λ plan. V.tells volume.old → (records : List LogRecord)
            (v : Volume) → ShowsVolume V.Ground volume.old records v
            → IsPlanned (V.geometry volume.old) (units_in V.Ground volume.old) v plan) }
        ensures sound { IfErr result (λ fault. IsDamage fault → V.tells volume.old
            → (records : List LogRecord) (v : Volume)
            → ShowsVolume V.Ground volume.old records v → ⊥) }
        ensures kept { Keeps V.Ground volume.old volume.new }
        ensures cause { HasCause (V.faults volume.old) (V.faults volume.new) result }
    {
        let contents = match read_contents(volume, alloc) {
            Ok(contents) => contents,
            Err(fault) => return Err(fault),
        };
        let mut pieces = Pieces::new(alloc);
        let pages = match plan_files(volume, alloc, &mut pieces, &contents.files) {
            Ok(pages) => pages,
            Err(fault) => return Err(fault),
        };
        Plan::make(&volume.geometry(), &contents, pages, pieces)
    }

    /// The head of the stream.
    pub fn head(&self) -> Head
        ensures { stream_head result ≡ self.now.head }
    {
        self.head
    }

    /// How many leaves there are.
    pub fn leaves(&self) -> u32
        ensures { result ≡ length self.now.leaves }
    {
        self.head.leaves
    }

    /// How many nodes there are.
    pub fn nodes(&self) -> u32
        ensures { result ≡ length self.now.nodes }
    {
        self.head.nodes
    }

    /// The leaf at an index, counted from 0.
    pub fn leaf(&self, index: u32) -> PlannedLeaf
        requires { index < length self.now.leaves }
        ensures { slice_get self.now.leaves index ≡ Some (result.unit.0, result.len) }
    {
        self.pieces.leaf(index as usize)
    }

    /// The page of the node at an index, counted from 0.
    pub fn node(&self, index: u32) -> PageNo
        requires { index < length self.now.nodes }
        ensures { slice_get self.now.nodes index ≡ Some result.0 }
    {
        self.pieces.node(index as usize)
    }

    /// The number, from 1, of the leaf that is this unit, where the level is 0, and above that of the node on this page. None where the plan hasn't it.
    pub fn number_of(&self, level: u8, page: PageNo) -> Option<u32>
        ensures { result ≡ number_in (pages_at level self.now) page.0 }
    {
        if level == 0 {
            return numbered(self.head.leaves, self.pieces.index_of_leaf(page));
        }
        numbered(self.head.nodes, self.pieces.index_of_node(page))
    }
}
