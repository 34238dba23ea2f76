//! A record as it is read at the place that an OID names.
ghost use Rattle.std.specs.Prelude.{◌≡◌, ℕ, IfErr, OnOk, IsTrue, None, false};
ghost use Rattle.ex_base.specs.Ports.{Cause, HasCause, IsDamage};
ghost use Rattle.ex_base.specs.Seen.{nothing_seen};
ghost use Rattle.object_records.specs.Record.{Record, BodyOf};
ghost use Rattle.versions.specs.Listed.{oid_at};
ghost use Rattle.versions.specs.Versions.{root_of};
ghost use Rattle.versions.specs.Damage.{record_fault, root_fault};

use ex_base::{Oid, PageNo, Place, PortFault, Root, Seen};
use object_records::{Payload, RecordView};

/// Where an OID leads.
pub fn place_of(oid: &Oid) -> Place
    ensures { result ≡ record { page = oid.now.page; slot = oid.now.slot } }
{
    Place {
        page: oid.page,
        slot: oid.slot,
    }
}

/// The OID of the version at a place that has a unique number.
pub fn oid_at(place: Place, unique: u64) -> Oid
    ensures { result ≡ oid_at place unique }
{
    let Place { page, slot } = place;
    Oid { page, slot, unique }
}

/// The root of the version whose record is in a body: none of a small one, nor where no record is.
pub fn root_in(body: &[u8]) -> Option<Root>
    ensures root { (is : Record) → BodyOf body.now is → result ≡ root_of is.content }
    ensures none { ((is : Record) → BodyOf body.now is → ⊥) → result ≡ None }
{
    let Some(view) = RecordView::of(body) else {
        return None;
    };
    match view.payload() {
        Payload::Small(_) => None,
        Payload::Large(root) => Some(root),
    }
}

/// The fault of a place whose record isn't what a call asks of it.
pub fn no_record(place: Place) -> PortFault
    ensures is { result ≡ record_fault place }
    ensures damage { IsDamage result }
    ensures cause { (before now : ℕ) → Cause before now result }
{
    PortFault::Damaged {
        page: place.page,
        want: Seen::record(place.slot),
        got: Seen::NOTHING,
    }
}

/// Nothing where what a call asks of the record at a place holds, else the fault of the place.
pub fn check(holds: bool, place: Place) -> Result<(), PortFault>
    ensures holds { OnOk result (IsTrue holds) }
    ensures fault { IfErr result (λ fault. (holds ≡ false) × (fault ≡ record_fault place)) }
    ensures cause { (before now : ℕ) → HasCause before now result }
{
    if holds {
        return Ok(());
    }
    Err(no_record(place))
}

/// The fault of a large version whose root breaks a limit.
pub(crate) fn no_root(page: PageNo, root: &Root) -> PortFault
    ensures is { result ≡ root_fault page root.now }
    ensures damage { IsDamage result }
    ensures cause { (before now : ℕ) → Cause before now result }
{
    PortFault::Damaged {
        page,
        want: Seen::header(root.height, root.size),
        got: Seen::NOTHING,
    }
}
