//! The items of a stream, one by one, as they are read of a volume.
ghost use Rattle.std.specs.Prelude.{◌≡◌, ◌≤◌, ◌<◌, ◌++◌, length, take, IfOk, IfErr};
ghost use Rattle.ex_base.specs.Ports.{Keeps, HasCause, IsDamage};
ghost use Rattle.history_items.specs.Gathering.{item_most};
ghost use Rattle.history_model.specs.History.{History};
ghost use Rattle.history_dump.specs.Items.{ShowsStream};
ghost use Rattle.history_dump.specs.Positions.{IsAt, IsBelow, IsThere, file_or_end, leaf_or_node, node_or_file, position_after, settled, stream_from};

use crate::file::put_file;
use crate::leaf::put_leaf;
use crate::node::put_node;
use crate::position::Position;
use crate::version::put_version;
use ex_base::{PortFault, ReadVolume};
use history_items::HEAD_LEN;
use history_plans::Plan;
use record_lists::Listed;
use std::alloc::Global;
use trees::Pair;

/// The items of a stream, as they are read of a volume.
#[derive(Drop)]
pub(crate) struct Items {
    pub(crate) plan: Plan,
    /// Room for the pairs of a node.
    pairs: Vec<Pair>,
    /// The records of the file whose versions come, in order of their numbers.
    pub(crate) records: Vec<Listed>,
}

impl Items {
    /// The items of a plan, of which none is read yet.
    pub(crate) fn of(alloc: Global, plan: Plan) -> Items
        ensures plan { result.plan ≡ plan }
    {
        Items {
            plan,
            pairs: Vec::new(alloc),
            records: Vec::new(alloc),
        }
    }

    /// A file, where there is one at the index, and else the end.
    fn file_or_end(&self, at: u32) -> Position
        ensures is { result ≡ file_or_end self.now.plan at }
        ensures below { IsBelow result }
    {
        if at < self.plan.head().files {
            Position::File(at)
        } else {
            Position::End
        }
    }

    /// A node, where there is one at the index, and else what follows.
    fn node_or_file(&self, at: u32) -> Position
        ensures is { result ≡ node_or_file self.now.plan at }
        ensures below { IsBelow result }
    {
        if at < self.plan.nodes() {
            Position::Node(at)
        } else {
            self.file_or_end(0)
        }
    }

    /// A leaf, where there is one at the index, and else what follows.
    fn leaf_or_node(&self, at: u32) -> Position
        ensures is { result ≡ leaf_or_node self.now.plan at }
        ensures below { IsBelow result }
    {
        if at < self.plan.leaves() {
            Position::Leaf(at)
        } else {
            self.node_or_file(0)
        }
    }

    /// The position of the same item, which there is.
    pub(crate) fn settled(&self, position: Position) -> Position
        ensures is { result ≡ settled self.now.plan (length self.now.records.items) position }
        ensures below { IsBelow result }
    {
        match position {
            Position::Head => Position::Head,
            Position::Leaf(at) => self.leaf_or_node(at),
            Position::Node(at) => self.node_or_file(at),
            Position::File(at) => self.file_or_end(at),
            Position::Version { next, at } => {
                if at < self.records.len() {
                    Position::Version { next, at }
                } else {
                    self.file_or_end(next)
                }
            }
            Position::End => Position::End,
        }
    }

    /// Makes the item at a position over the first bytes, and answers how many they are.
    pub(crate) fn put<V: ReadVolume>(
        &mut self,
        alloc: Global,
        volume: &mut V,
        position: Position,
        out: &mut [u8],
    ) -> Result<usize, PortFault>
        requires ready { V.ready volume.old }
        requires there { IsThere self.old.plan (length self.old.records.items) position }
        requires room { item_most (V.geometry volume.old) ≤ length out.old }
        ensures item { IfOk result (λ n. V.tells volume.old → (h : History)
            → ShowsStream V.Ground volume.old self.old.plan h
            → IsAt (V.image volume.old) h position self.old.records.items
            → (stream_from (V.geometry volume.old) h position
            ≡ take n out.new ++ stream_from (V.geometry volume.old) h (position_after position))
            × IsAt (V.image volume.old) h (position_after position) self.new.records.items) }
        ensures plan { self.new.plan ≡ self.old.plan }
        ensures some { IfOk result (λ n. 0 < n) }
        ensures inside { IfOk result (λ n. n ≤ length out.old) }
        ensures sound { IfErr result (λ fault. IsDamage fault → V.tells volume.old → (h : History)
            → ShowsStream V.Ground volume.old self.old.plan h
            → IsAt (V.image volume.old) h position self.old.records.items → ⊥) }
        ensures kept { Keeps V.Ground volume.old volume.new }
        ensures cause { HasCause (V.faults volume.old) (V.faults volume.new) result }
    {
        match position {
            Position::Head => {
                self.plan.head().write(out);
                Ok(HEAD_LEN)
            }
            Position::Leaf(at) => put_leaf(volume, alloc, self.plan.leaf(at), out),
            Position::Node(at) => {
                let page = self.plan.node(at);
                put_node(volume, alloc, &self.plan, page, &mut self.pairs, out)
            }
            Position::File(at) => put_file(volume, alloc, at, &mut self.records, out),
            Position::Version { at, .. } => {
                put_version(volume, alloc, &self.plan, &self.records[at], out)
            }
            Position::End => unreachable!(),
        }
    }
}
