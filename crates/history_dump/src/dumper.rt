//! The stream of a volume, piece by piece.
ghost use Rattle.std.specs.Prelude.{◌≡◌, ◌≤◌, ◌<◌, ◌+◌, ◌-◌, ◌^◌, ℕ, List, [], min, true, false, length, take, drop, Ok, IfOk, IfErr, OnOk, vec_len};
ghost use Rattle.ex_base.specs.Bytes.{part};
ghost use Rattle.ex_base.specs.Ports.{Keeps, HasCause, IsDamage};
ghost use Rattle.history_items.specs.Gathering.{item_most};
ghost use Rattle.history_model.specs.History.{History};
ghost use Rattle.history_model.specs.Stream.{stream_of};
ghost use Rattle.op_log.specs.declared.record.LogRecord.{LogRecord};
ghost use Rattle.volume_edits.specs.Ported.{ShowsVolume};
ghost use Rattle.volume_model.specs.Volume.{Volume};

use crate::items::Items;
use crate::position::Position;
use ex_base::{PortFault, ReadVolume};
use history_items::LEAF_HEAD;
use history_plans::Plan;
use std::alloc::Global;

/// Gives the stream of a volume, piece by piece.
#[derive(Drop)]
pub struct Dumper {
    items: Items,
    /// Which item is made next.
    position: Position,
    /// The item that was made last, in room for the longest one.
    room: Vec<u8>,
    /// How many of its bytes were given, of how many.
    given: usize,
    end: usize,
    ghost ordered: { given ≤ end },
    ghost inside: { end ≤ vec_len room },
}

impl Dumper {
    ghost use Rattle.history_dump.specs.Positions.{is_end};
    ghost use Rattle.history_dump.specs.Writing.{IsWriting, item_left};

    /// Plans the stream of a volume, for which it reads each node.
    pub fn make<V: ReadVolume>(alloc: Global, volume: &mut V) -> Result<Dumper, PortFault>
        requires { V.ready volume.old }
        ensures plans { IfOk result (λ d. V.tells volume.old → (records : List LogRecord)
            (v : Volume) → ShowsVolume V.Ground volume.old records v
            → (h : History) × IsWriting V.Ground volume.old v h d 0) }
        ensures room { IfOk result (λ d. item_most (V.geometry volume.old) ≤ vec_len d.room) }
        ensures sound { IfErr result (λ fault. IsDamage fault → V.tells volume.old
            → (records : List LogRecord) (v : Volume)
            → ShowsVolume V.Ground volume.old records v → ⊥) }
        ensures kept { Keeps V.Ground volume.old volume.new }
        ensures cause { HasCause (V.faults volume.old) (V.faults volume.new) result }
    {
        let plan = Plan::of(volume, alloc)?;
        let len = LEAF_HEAD + volume.geometry().leaf_bytes() as usize;
        let Ok(room) = vec![in alloc; 0u8; len] else {
            return Err(PortFault::Memory);
        };
        Ok(Dumper {
            items: Items::of(alloc, plan),
            position: Position::Head,
            room,
            given: 0,
            end: 0,
        })
    }

    /// Moves the next bytes of the item that was made last to the front of others, and answers how many.
    fn give(&mut self, out: &mut [u8]) -> usize
        ensures n { result ≡ min (length (item_left self.old)) (length out.old) }
        ensures given { take result out.new ≡ take result (item_left self.old) }
        ensures left { item_left self.new ≡ drop result (item_left self.old) }
        ensures rest { (self.new.items ≡ self.old.items) × (self.new.position ≡ self.old.position)
            × (self.new.room.items ≡ self.old.room.items) }
        ensures room { vec_len self.new.room ≡ vec_len self.old.room }
    {
        let n = (self.end - self.given).min(out.len());
        let end = self.given + n;
        out[..n].copy_from_slice(&self.room[self.given..end]);
        self.given = end;
        n
    }

    /// Holds an item of so many bytes of the room, of which nothing was given, in front of a position.
    fn hold(&mut self, position: Position, end: usize)
        requires { end ≤ vec_len self.old.room }
        ensures items { self.new.items ≡ self.old.items }
        ensures bytes { self.new.room.items ≡ self.old.room.items }
        ensures position { self.new.position ≡ position }
        ensures given { self.new.given ≡ 0 }
        ensures end { self.new.end ≡ end }
        ensures room { vec_len self.new.room ≡ vec_len self.old.room }
    {
        self.position = position;
        self.given = 0;
        self.end = end;
    }

    /// Makes the next item where all of the last one was given, and says whether some is left: false exactly at the end.
    fn advance<V: ReadVolume>(&mut self, alloc: Global, volume: &mut V) -> Result<bool, PortFault>
        requires ready { V.ready volume.old }
        requires room { item_most (V.geometry volume.old) ≤ vec_len self.old.room }
        ensures made { OnOk result (V.tells volume.old → (v : Volume) (h : History) (at : ℕ)
            → IsWriting V.Ground volume.old v h self.old at
            → IsWriting V.Ground volume.old v h self.new at) }
        ensures some { IfOk result (λ more. more ≡ true → 0 < length (item_left self.new)) }
        ensures none { IfOk result (λ more. more ≡ false → (item_left self.new ≡ [])
            × (is_end self.new.position ≡ true)) }
        ensures at_end { V.tells volume.old → (v : Volume) (h : History)
            → IsWriting V.Ground volume.old v h self.old
            (length (stream_of (V.geometry volume.old) h)) → result ≡ Ok false }
        ensures uncalled { V.tells volume.old → (v : Volume) (h : History)
            → IsWriting V.Ground volume.old v h self.old
            (length (stream_of (V.geometry volume.old) h)) → volume.new ≡ volume.old }
        ensures room { vec_len self.new.room ≡ vec_len self.old.room }
        ensures sound { IfErr result (λ fault. IsDamage fault → V.tells volume.old → (v : Volume)
            (h : History) (at : ℕ) → IsWriting V.Ground volume.old v h self.old at → ⊥) }
        ensures kept { Keeps V.Ground volume.old volume.new }
        ensures cause { HasCause (V.faults volume.old) (V.faults volume.new) result }
    {
        if self.given < self.end {
            return Ok(true);
        }
        let position = self.items.settled(self.position);
        if position.is_end() {
            self.position = position;
            return Ok(false);
        }
        let end = match self.items.put(alloc, volume, position, &mut self.room) {
            Ok(end) => end,
            Err(fault) => return Err(fault),
        };
        self.hold(position.after(), end);
        Ok(true)
    }

    /// Gives the next bytes of the stream, as many as `out` has room for while there are some, and answers how many: 0 exactly at the end, or where `out` is
    /// empty. The volume is as it was at `make`. After a fault no more is to be asked. At the end the volume isn't called.
    pub fn next<V: ReadVolume>(
        &mut self,
        alloc: Global,
        volume: &mut V,
        out: &mut [u8],
    ) -> Result<u32, PortFault>
        requires ready { V.ready volume.old }
        requires room { item_most (V.geometry volume.old) ≤ vec_len self.old.room }
        requires few { length out.old < 2 ^ 32 }
        ensures given { IfOk result (λ n. V.tells volume.old → (v : Volume) (h : History) (at : ℕ)
            → IsWriting V.Ground volume.old v h self.old at
            → (take n out.new ≡ part (stream_of (V.geometry volume.old) h) at n)
            × IsWriting V.Ground volume.old v h self.new (at + n)
            × (n ≡ min (length out.old) (length (stream_of (V.geometry volume.old) h) - at))) }
        ensures few { IfOk result (λ n. n ≤ length out.old) }
        ensures at_end { V.tells volume.old → (v : Volume) (h : History)
            → IsWriting V.Ground volume.old v h self.old
            (length (stream_of (V.geometry volume.old) h)) → result ≡ Ok 0 }
        ensures uncalled { V.tells volume.old → (v : Volume) (h : History)
            → IsWriting V.Ground volume.old v h self.old
            (length (stream_of (V.geometry volume.old) h)) → volume.new ≡ volume.old }
        ensures room { vec_len self.new.room ≡ vec_len self.old.room }
        ensures sound { IfErr result (λ fault. IsDamage fault → V.tells volume.old → (v : Volume)
            (h : History) (at : ℕ) → IsWriting V.Ground volume.old v h self.old at → ⊥) }
        ensures kept { Keeps V.Ground volume.old volume.new }
        ensures cause { HasCause (V.faults volume.old) (V.faults volume.new) result }
    {
        let mut len = 0;
        'given: while len < out.len() {
            let more = match self.advance(alloc, volume) {
                Ok(more) => more,
                Err(fault) => return Err(fault),
            };
            if !more {
                return Ok(len as u32);
            }
            len += self.give(&mut out[len..]);
        }
        Ok(len as u32)
    }
}
