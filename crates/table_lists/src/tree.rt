//! Which versions are derived from which, and how those of an object are listed.

ghost use Rattle.std.specs.Prelude.{◌≡◌, ◌++◌, length, option_copied, IfOk};
ghost use Rattle.version_lists.specs.Versions.{is_derived_from, derived_from, numbered_in, first_number, listed_from, listed};
ghost use Rattle.table_model.specs.Tables.{versions_of};
ghost use Rattle.table_model.specs.Refusals.{has_one};

use crate::form::all_versions;
use std::alloc::{AllocError, Global};
use table_model::{Table, Version};

/// Whether the version is derived from the one with the number.
pub(crate) fn is_derived_from(version: &Version, number: u64) -> bool
    ensures { result ≡ is_derived_from number version.now }
{
    match version.older {
        Some(older) => older == number,
        None => false,
    }
}

/// The versions that are derived from the one with the number.
fn derived_from(
    alloc: Global,
    versions: &[Version],
    number: u64,
) -> Result<Vec<Version>, AllocError>
    ensures { IfOk result (λ derived. derived.items ≡ derived_from number versions.now) }
{
    let mut out = Vec::new(alloc);
    for version in versions {
        if is_derived_from(version, number) {
            out.push(version.clone()?)?;
        }
    }
    Ok(out)
}

/// How many versions of the table are derived from the one with the number.
pub fn count_derived(alloc: Global, table: &Table, number: u64) -> Result<u64, AllocError>
    ensures { IfOk result (λ count. count ≡ length (derived_from number (versions_of table.now))) }
{
    let versions = all_versions(alloc, table)?;
    let derived = derived_from(alloc, &versions, number)?;
    Ok(derived.len() as u64)
}

/// Whether at most one version of the table is derived from the one with the number, if there is a number.
pub fn has_one(alloc: Global, table: &Table, number: Option<u64>) -> Result<bool, AllocError>
    ensures { IfOk result (λ holds. holds ≡ has_one (versions_of table.now) number) }
{
    match number {
        Some(number) => Ok(count_derived(alloc, table, number)? <= 1),
        None => Ok(false),
    }
}

/// The version with the number.
fn numbered_in(versions: &[Version], number: Option<u64>) -> Option<&Version>
    ensures { option_copied result ≡ numbered_in versions.now number }
{
    let wanted = number?;
    for version in versions {
        if version.oid.unique == wanted {
            return Some(version);
        }
    }
    None
}

/// The number of the version that is reached by at most so many steps from a version to the one that it is derived from.
pub(crate) fn first_number(steps: usize, versions: &[Version], version: &Version) -> u64
    ensures { result ≡ first_number steps versions.now version.now }
{
    if steps == 0 {
        return version.oid.unique;
    }
    match numbered_in(versions, version.older) {
        Some(older) => first_number(steps - 1, versions, older),
        None => version.oid.unique,
    }
}

/// Puts a version behind others, and then those that are derived from it, each with all that is derived from it in turn, so many levels deep.
fn list_from(
    alloc: Global,
    levels: usize,
    versions: &[Version],
    version: &Version,
    out: &mut Vec<Version>,
) -> Result<(), AllocError>
    ensures { IfOk result (λ _. out.new.items ≡ out.old.items
        ++ listed_from levels versions.now version.now) }
{
    out.push(version.clone()?)?;
    if levels == 0 {
        return Ok(());
    }
    let derived = derived_from(alloc, versions, version.oid.unique)?;
    for next in &derived {
        list_from(alloc, levels - 1, versions, next, out)?;
    }
    Ok(())
}

/// The versions of an object, each one before those that are derived from it.
pub(crate) fn listed(alloc: Global, versions: &[Version]) -> Result<Vec<Version>, AllocError>
    ensures { IfOk result (λ found. found.items ≡ listed versions.now) }
{
    let mut out = Vec::new(alloc);
    for version in versions {
        if version.older.is_none() {
            list_from(alloc, versions.len(), versions, version, &mut out)?;
        }
    }
    Ok(out)
}
