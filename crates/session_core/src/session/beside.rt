//! The room beside a version, on the page of its record.
ghost use Rattle.std.specs.Prelude.{◌≡◌, ◌≤◌, ℕ, IfOk, IfErr, OnOk};
ghost use Rattle.ex_base.specs.Area.{InPageArea};
ghost use Rattle.ex_base.specs.Ports.{Keeps, HasCause, Cause, IsDamage};
ghost use Rattle.ex_base.specs.Seen.{nothing_seen, record_seen};
ghost use Rattle.ex_base.specs.Sizes.{volume_bytes};
ghost use Rattle.ex_base.specs.declared.faults.PortFault.TheVariants.{Damaged};
ghost use Rattle.slotted_pages.specs.FilePage.{room_of};
ghost use Rattle.slotted_pages.specs.Edits.{slots_of};
ghost use Rattle.slotted_pages.specs.Reads.{IsPage};
ghost use Rattle.session_core.specs.Finding.{IfLive, IfShown};
ghost use Rattle.session_core.specs.Needs.{room_beside};

use super::Session;
use super::objects::or_stop;
use disk_model::Disk;
use ex_base::{Oid, PageNo, PortFault, ReadPages, Seen};
use session_views::Stop;
use slotted_pages::SlottedView;
use std::alloc::Global;
use volume_port::{MAIN, ReadingPort};

/// The fault of a slot of a page where no record stands.
fn no_record(page: PageNo, slot: u16) -> PortFault
    ensures damage { IsDamage result }
    ensures is { result ≡ Damaged page (record_seen slot) nothing_seen }
    ensures cause { (before now : ℕ) → Cause before now result }
{
    PortFault::Damaged {
        page,
        want: Seen::record(slot),
        got: Seen::NOTHING,
    }
}

/// The bytes that more bodies may take on a page of a file, beside the record in a slot. Where the page is none of a file, no record stands there.
fn room_at<P: ReadPages>(
    pages: &mut P,
    alloc: Global,
    page: PageNo,
    slot: u16,
) -> Result<u32, PortFault>
    requires { P.ready pages.old }
    ensures room { IfOk result (λ room. P.tells pages.old
        → room ≡ room_of (P.geometry pages.old).page_size (slots_of (P.image pages.old page.0))) }
    ensures area { OnOk result (InPageArea (P.geometry pages.old) page.0) }
    ensures fault { IfErr result (λ fault. IsDamage fault
        → fault ≡ Damaged page (record_seen slot) nothing_seen) }
    ensures sound { IfErr result (λ fault. IsDamage fault → P.tells pages.old
        → InPageArea (P.geometry pages.old) page.0 → IsPage (P.image pages.old page.0) → ⊥) }
    ensures kept { Keeps P.Ground pages.old pages.new }
    ensures cause { HasCause (P.faults pages.old) (P.faults pages.new) result }
{
    if !pages.in_area(page) {
        return Err(no_record(page, slot));
    }
    match SlottedView::of(pages.get(alloc, page)?) {
        Some(view) => Ok(view.room()),
        None => Err(no_record(page, slot)),
    }
}

impl Session {
    ghost use Rattle.session_core.specs.Damage.{TellsFor, version_for};
    ghost use Rattle.volume_edits.specs.Purposes.{ToMeasure};
    ghost use Rattle.session_core.specs.Finding.{IsOutside, LineStops};
    ghost use Rattle.session_core.specs.Sessions.{IsSession};
    ghost use Rattle.session_core.specs.Steps.{OnlyFrames};

    /// The bytes that more bodies may take on the page of a version. It stops where the disk fails, where memory is wanted, and at the place of the version's
    /// record where its page isn't one of a file.
    pub fn room_beside<D: Disk>(
        &mut self,
        alloc: Global,
        disk: &mut D,
        oid: &Oid,
    ) -> Result<u32, Stop>
        requires room { volume_bytes self.old.geometry ≤ (D.outside disk.old).size }
        ensures session { IsSession self.old }
        ensures only { OnlyFrames (D.outside disk.old) (D.outside disk.new) self.old self.new }
        ensures room { IfOk result (λ room. IfShown (D.outside disk.old) self.old (λ before. room
            ≡ room_beside before oid.now)) }
        ensures stops { IfErr result (LineStops (D.outside disk.old) (D.outside disk.new)) }
        ensures damage { IfErr result (TellsFor (D.outside disk.old) (D.outside disk.new)
            self.old (version_for oid.now ToMeasure)) }
        ensures sound { IfErr result (λ why. IfShown (D.outside disk.old) self.old
            (λ before. IfLive before oid.now (λ bytes. IsOutside why))) }
    {
        let mut port = ReadingPort {
            disk,
            groups: &mut self.volume.groups,
            room: &mut self.room,
            index: MAIN,
            keeps_leaves: false,
            geometry: self.volume.geometry,
            meta: &self.volume.meta,
            pages: &self.volume.pages,
        };
        or_stop(room_at(&mut port, alloc, oid.page, oid.slot))
    }
}
