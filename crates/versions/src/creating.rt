//! A new object.
ghost use Rattle.std.specs.Prelude.{◌≡◌, ◌≤◌, ◌+◌, ℕ, true, List, IfOk, IfErr, OnOk, OnErr};
ghost use Rattle.ex_base.specs.Ports.{HasCause, IsDamage};
ghost use Rattle.ex_base.specs.declared.names.Area.TheVariants.{Page, Segment};
ghost use Rattle.object_records.specs.Record.{BodyOf};
ghost use Rattle.ex_base.specs.declared.names.Index.{Index};
ghost use Rattle.file_index.specs.Taking.{OnlyTakes};
ghost use Rattle.file_index.specs.Touches.{TouchesAtMost};
ghost use Rattle.file_bodies.specs.Touches.{body_touches, body_pages};
ghost use Rattle.file_bodies.specs.Files.{HasFile};
ghost use Rattle.file_bodies.specs.Places.{IsRoom};
ghost use Rattle.file_bodies.specs.Placing.{start_of};
ghost use Rattle.file_bodies.specs.Damage.{IsListedFault, IsPlacingFault};
ghost use Rattle.versions.specs.Versions.{CreatesVersion, PutsVersion};

use crate::recorded::oid_at;
use ex_base::{Oid, PortFault, Volume};
use file_bodies::{Room, place_body};
use object_records::{Head, LARGE_LEN, State, write_small};
use std::alloc::Global;

/// Puts the record of a new object into the file of `room`: a small version without bytes, under a number that no version has had. It takes at most
/// `body_pages` pages, and none where its page was there before. Its place is the lowest with room where `room` is true of the file, and else some place that
/// the file hadn't.
pub fn create<V: Volume>(
    volume: &mut V,
    alloc: Global,
    room: &mut Room,
    unique: u64,
) -> Result<Oid, PortFault>
    requires ready { V.ready volume.old }
    requires free { body_pages ≤ V.free volume.old Page }
    ensures created { IfOk result (λ oid. V.tells volume.old → (index : Index)
        → HasFile V.Ground volume.old index → index.file_no ≡ room.old.file_no
        → IsRoom V.Ground volume.old index room.old
        → CreatesVersion V.Ground volume.old volume.new index oid) }
    ensures anywhere { IfOk result (λ oid. V.tells volume.old → (index : Index)
        → HasFile V.Ground volume.old index → index.file_no ≡ room.old.file_no
        → PutsVersion V.Ground volume.old volume.new index oid) }
    ensures number { IfOk result (λ oid. oid.unique ≡ unique) }
    ensures room { IfOk result (λ oid. room.new
        ≡ record { file_no = room.old.file_no; from = oid.page; len = 36 }) }
    ensures unplaced { OnErr result (room.new ≡ room.old) }
    ensures pages { OnOk result (V.free volume.old Page ≤ V.free volume.new Page + body_pages) }
    ensures grows { IfOk result (λ oid. V.held volume.old oid.page.0 ≡ true
        → V.free volume.new ≡ V.free volume.old) }
    ensures takes { OnOk result (OnlyTakes V.Ground volume.old volume.new) }
    ensures sound { IfErr result (λ fault. IsDamage fault → V.tells volume.old → (index : Index)
        → HasFile V.Ground volume.old index → index.file_no ≡ room.old.file_no → ⊥) }
    ensures fault { IfErr result (λ fault. V.tells volume.old
        → IsListedFault (V.image volume.old) room.old.file_no
        (λ index. IsPlacingFault (V.geometry volume.old) (V.held volume.old)
        (V.image volume.old) index (start_of room.old 36) fault) fault) }
    ensures leaves { OnOk result (V.free volume.new Segment ≡ V.free volume.old Segment) }
    ensures touches { OnOk result (TouchesAtMost V.Ground volume.old volume.new body_touches) }
    ensures leads { V.leads volume.old volume.new }
    ensures cause { HasCause (V.faults volume.old) (V.faults volume.new) result }
{
    let head = Head {
        state: State::Current,
        unique,
        older: None,
        newer: None,
    };
    let mut body = [0u8; LARGE_LEN];
    write_small(&head, &[], &mut body);
    match place_body(volume, alloc, room, &body) {
        Ok(place) => Ok(oid_at(place, unique)),
        Err(fault) => Err(fault),
    }
}
