//! What is derived from each version.
ghost use Rattle.std.specs.Prelude.{ℕ, List, ◌≡◌, ◌<◌, length, replicate, IfSome, IfOk};
ghost use Rattle.history_links.specs.Found.{AreDerived, AreOlders, counted, told, with_one};
ghost use Rattle.history_links.specs.Linked.{NumbersRise, only_place};
ghost use Rattle.history_links.specs.declared.PlacedVersion.{PlacedVersion as Placed};

use crate::PlacedVersion;
use ex_base::Place;
use std::alloc::{AllocError, Global};

/// What is derived from a version: nothing, only the version at a place, or several.
#[derive(Clone, Copy)]
pub(crate) enum Derived {
    Nothing,
    One(Place),
    Several,
}

/// What is derived with one more.
fn with_one(derived: Derived, place: Place) -> Derived
    ensures { result ≡ with_one derived place }
{
    match derived {
        Derived::Nothing => Derived::One(place),
        Derived::One(_) => Derived::Several,
        Derived::Several => Derived::Several,
    }
}

/// The place of the only version that is derived.
pub(crate) fn only_of(derived: Derived) -> Option<Place>
    ensures { (from : List Placed) → derived ≡ told from → result ≡ only_place from }
{
    match derived {
        Derived::One(place) => Some(place),
        Derived::Nothing => None,
        Derived::Several => None,
    }
}

/// Counts the version at a place as derived from its older one.
fn count(older: Option<usize>, place: Place, derived: &mut Vec<Derived>)
    requires { IfSome older (λ at. at < length derived.old.items) }
    ensures { derived.new.items ≡ counted older place derived.old.items }
{
    if let Some(at) = older {
        derived[at] = with_one(derived[at], place);
    }
}

/// Nothing derived yet, of so many versions.
fn nothing_yet(alloc: Global, len: usize) -> Result<Vec<Derived>, AllocError>
    ensures { IfOk result (λ derived. derived.items ≡ replicate len Derived.Nothing) }
{
    let mut derived = Vec::with_capacity(alloc, len)?;
    'walk: for _at in 0..len {
        derived.push(Derived::Nothing)?;
    }
    Ok(derived)
}

/// What is derived from each version, where these are the older ones.
pub(crate) fn derived_from_each(
    alloc: Global,
    versions: &[PlacedVersion],
    olders: &[Option<usize>],
) -> Result<Vec<Derived>, AllocError>
    requires rising { NumbersRise versions.now }
    requires olders { AreOlders versions.now (length versions.now) olders.now }
    ensures { IfOk result
        (λ derived. AreDerived versions.now (length versions.now) derived.items) }
{
    let mut derived = nothing_yet(alloc, versions.len())?;
    'walk: for at in 0..versions.len() {
        count(olders[at], versions[at].place, &mut derived);
    }
    Ok(derived)
}
