//! The links of each version.
ghost use Rattle.std.specs.Prelude.{◌≡◌, ◌<◌, length, map, IfSome, IfOk};
ghost use Rattle.history_links.specs.Found.{AreDerived, AreOlders, OlderIs, version_at};
ghost use Rattle.history_links.specs.Linked.{NumbersRise, links_of, newer_in, place_if};
ghost use Rattle.history_links.specs.declared.PlacedVersion.{PlacedVersion as Placed};

use crate::derived::{Derived, derived_from_each, only_of};
use crate::olders::olders_of;
use crate::{Links, PlacedVersion};
use ex_base::Place;
use std::alloc::{AllocError, Global};

/// The place of the version at an index, if there is one.
fn place_at(versions: &[PlacedVersion], older: Option<usize>) -> Option<Place>
    requires rising { NumbersRise versions.now }
    requires within { IfSome older (λ at. at < length versions.now) }
    ensures { (v : Placed) → OlderIs versions.now v older
        → result ≡ place_if versions.now v.older }
{
    match older {
        None => None,
        Some(at) => Some(versions[at].place),
    }
}

/// The newer place of the version at an index.
fn newer_at(versions: &[PlacedVersion], derived: &[Derived], at: usize) -> Option<Place>
    requires derived { AreDerived versions.now (length versions.now) derived.now }
    requires within { at < length versions.now }
    ensures { result ≡ newer_in versions.now (version_at versions.now at) }
{
    if versions[at].frozen {
        only_of(derived[at])
    } else {
        None
    }
}

/// The links of each version of a file, all of which have places, in order of their numbers: the place of the version that it is derived from, and, of a frozen one, that
/// of the only version that is derived from it. It answers an error only where memory is refused.
pub fn link_versions(alloc: Global, versions: &[PlacedVersion]) -> Result<Vec<Links>, AllocError>
    requires { NumbersRise versions.now }
    ensures { IfOk result
        (λ links. links.items ≡ map (links_of versions.now) versions.now) }
{
    let olders = olders_of(alloc, versions)?;
    let derived = derived_from_each(alloc, versions, &olders)?;
    let mut links = Vec::with_capacity(alloc, versions.len())?;
    'walk: for at in 0..versions.len() {
        links.push(Links {
            older: place_at(versions, olders[at]),
            newer: newer_at(versions, &derived, at),
        })?;
    }
    Ok(links)
}
