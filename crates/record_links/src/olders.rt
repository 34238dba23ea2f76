//! The records that others are derived from.
ghost use Rattle.std.specs.Prelude.{◌≡◌, ◌<◌, ◌^◌, ◌↔◌, length, IsTrue, IfSome, IfNone, IfOk};
ghost use Rattle.record_links.specs.Links.{InPlaceOrder, IsOlder, AreLinked};
ghost use Rattle.record_links.specs.Found.{MayBeFrom, OlderIs, AreOlders};

use crate::Linked;
use crate::places::find_place;
use ex_base::Place;
use object_records::State;
use std::alloc::{AllocError, Global};

/// Whether a record may be derived from another.
fn may_be_from(linked: &Linked, older: &Linked) -> bool
    ensures may { IsTrue result ↔ MayBeFrom linked.now older.now }
    ensures small { older.now.head.unique < 2 ^ 64 }
{
    let unique = older.head.unique;
    older.head.state == State::Frozen
        && (linked.head.state == State::Current || unique < linked.head.unique)
}

/// The index of the record at the older place of one. Nothing where no record that may be is at that place.
fn named_older(records: &[Linked], linked: &Linked, place: Place) -> Option<Option<usize>>
    requires ordered { InPlaceOrder records.now }
    requires named { linked.now.head.older ≡ Some place }
    ensures found { IfSome result (OlderIs records.now linked.now) }
    ensures none { IfNone result
        (IfSome linked.now.head.older (IsOlder records.now linked.now) → ⊥) }
{
    match find_place(records, place) {
        None => None,
        Some(at) => {
            if may_be_from(linked, &records[at]) {
                Some(Some(at))
            } else {
                None
            }
        }
    }
}

/// The index of a record's older one, none of a record without an older place. Nothing where no record that may be is at that place.
fn older_of(records: &[Linked], linked: &Linked) -> Option<Option<usize>>
    requires ordered { InPlaceOrder records.now }
    ensures found { IfSome result (OlderIs records.now linked.now) }
    ensures none { IfNone result
        (IfSome linked.now.head.older (IsOlder records.now linked.now) → ⊥) }
{
    match linked.head.older {
        None => Some(None),
        Some(place) => named_older(records, linked, place),
    }
}

/// The index of each record's older one. Nothing where a record names a place with none that it may be derived from.
pub(crate) fn olders_of(
    alloc: Global,
    records: &[Linked],
) -> Result<Option<Vec<Option<usize>>>, AllocError>
    requires ordered { InPlaceOrder records.now }
    ensures found { IfOk result
        (λ found. IfSome found (λ olders. AreOlders records.now olders.items)) }
    ensures none { IfOk result (λ found. IfNone found (AreLinked records.now → ⊥)) }
{
    let mut olders = Vec::with_capacity(alloc, records.len())?;
    'walk: for linked in records {
        match older_of(records, linked) {
            None => return Ok(None),
            Some(older) => olders.push(older)?,
        }
    }
    Ok(Some(olders))
}
