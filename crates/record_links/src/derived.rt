//! What is derived from each record.
ghost use Rattle.std.specs.Prelude.{ℕ, ◌≡◌, ◌<◌, ◌↔◌, List, length, replicate, IsTrue, IfSome, IfOk};
ghost use Rattle.record_links.specs.Links.{InPlaceOrder, NewerIs};
ghost use Rattle.record_links.specs.Found.{AreOlders, AreDerived, HasNewer, with_one, told, counted};
ghost use Rattle.record_links.specs.declared.Linked.{Linked as LinkedRecord};

use crate::Linked;
use crate::places::is_same;
use ex_base::Place;
use object_records::{Head, State};
use std::alloc::{AllocError, Global};

/// What is derived from a record: nothing, only the record at a place, or several.
#[derive(Clone, Copy)]
pub(crate) enum Derived {
    Nothing,
    One(Place),
    Several,
}

/// What is derived with one more.
fn with_one(derived: Derived, place: Place) -> Derived
    ensures { result ≡ with_one derived place }
{
    match derived {
        Derived::Nothing => Derived::One(place),
        Derived::One(_) => Derived::Several,
        Derived::Several => Derived::Several,
    }
}

/// Counts the record at a place as derived from its older one.
fn count(older: Option<usize>, place: Place, derived: &mut Vec<Derived>)
    requires { IfSome older (λ at. at < length derived.old.items) }
    ensures { derived.new.items ≡ counted older place derived.old.items }
{
    if let Some(at) = older {
        derived[at] = with_one(derived[at], place);
    }
}

/// Nothing derived yet, of so many records.
fn nothing_yet(alloc: Global, len: usize) -> Result<Vec<Derived>, AllocError>
    ensures { IfOk result (λ derived. derived.items ≡ replicate len Derived.Nothing) }
{
    let mut derived = Vec::with_capacity(alloc, len)?;
    'walk: for _at in 0..len {
        derived.push(Derived::Nothing)?;
    }
    Ok(derived)
}

/// What is derived from each record.
fn derived_from_each(
    alloc: Global,
    records: &[Linked],
    olders: &[Option<usize>],
) -> Result<Vec<Derived>, AllocError>
    requires ordered { InPlaceOrder records.now }
    requires olders { AreOlders records.now olders.now }
    ensures { IfOk result (λ derived. AreDerived records.now (length records.now) derived.items) }
{
    let mut derived = nothing_yet(alloc, records.len())?;
    'walk: for at in 0..records.len() {
        count(olders[at], records[at].place, &mut derived);
    }
    Ok(derived)
}

/// Whether the newer place of a frozen record is that of the only one that is derived from it, and none where there are more.
fn is_only(derived: Derived, newer: Option<Place>) -> bool
    ensures { (from : List LinkedRecord) → derived ≡ told from
        → IsTrue result ↔ NewerIs State.Frozen from newer }
{
    match (derived, newer) {
        (Derived::One(place), Some(newer)) => is_same(newer, place),
        (Derived::Several, None) => true,
        _ => false,
    }
}

/// Whether a record's newer place is what is derived from it.
fn is_newer(head: &Head, derived: Derived) -> bool
    ensures { (from : List LinkedRecord) → derived ≡ told from
        → IsTrue result ↔ NewerIs head.now.state from head.now.newer }
{
    match head.state {
        State::Current => head.newer.is_none(),
        State::Frozen => is_only(derived, head.newer),
    }
}

/// Whether each newer place is what is derived from that record.
fn are_newer(records: &[Linked], derived: &[Derived]) -> bool
    requires { AreDerived records.now (length records.now) derived.now }
    ensures { IsTrue result ↔ ((k : ℕ) → k < length records.now → HasNewer records.now k) }
{
    'walk: for at in 0..records.len() {
        if !is_newer(&records[at].head, derived[at]) {
            return false;
        }
    }
    true
}

/// Whether each newer place is that of the only record that is derived from one, and none where there are none or more.
pub(crate) fn has_newer_places(
    alloc: Global,
    records: &[Linked],
    olders: &[Option<usize>],
) -> Result<bool, AllocError>
    requires ordered { InPlaceOrder records.now }
    requires olders { AreOlders records.now olders.now }
    ensures { IfOk result (λ good. IsTrue good
        ↔ ((k : ℕ) → k < length records.now → HasNewer records.now k)) }
{
    let derived = derived_from_each(alloc, records, olders)?;
    Ok(are_newer(records, &derived))
}
