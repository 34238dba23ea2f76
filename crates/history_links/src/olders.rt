//! The versions that others are derived from.
ghost use Rattle.std.specs.Prelude.{length, IfOk};
ghost use Rattle.history_links.specs.Found.{AreOlders, OlderIs};
ghost use Rattle.history_links.specs.Linked.{NumbersRise};

use crate::PlacedVersion;
use crate::numbers::find_number;
use std::alloc::{AllocError, Global};

/// The index of a version's older one, if it has one that is there.
fn older_of(versions: &[PlacedVersion], version: &PlacedVersion) -> Option<usize>
    requires { NumbersRise versions.now }
    ensures { OlderIs versions.now version.now result }
{
    match version.older {
        None => None,
        Some(number) => find_number(versions, number),
    }
}

/// The index of each version's older one.
pub(crate) fn olders_of(
    alloc: Global,
    versions: &[PlacedVersion],
) -> Result<Vec<Option<usize>>, AllocError>
    requires { NumbersRise versions.now }
    ensures { IfOk result (λ olders. AreOlders versions.now (length versions.now) olders.items) }
{
    let mut olders = Vec::with_capacity(alloc, versions.len())?;
    'walk: for at in 0..versions.len() {
        olders.push(older_of(versions, &versions[at]))?;
    }
    Ok(olders)
}
