//! The names of a session, and lists of names and identifiers that replies give.

ghost use Rattle.std.specs.Prelude.{◌≡◌, ◌++◌, map, find, bytes_eq, true, option_copied, option_map, IfOk};
ghost use Rattle.std.specs.List.{list_any};
ghost use Rattle.table_model.specs.Machines.{bound_if, unmarked, kept};
ghost use Rattle.version_lists.specs.Versions.{listed};
ghost use Rattle.table_model.specs.Tables.{current_in};
ghost use Rattle.table_model.specs.Steps.{oids};

use crate::find::same_bytes;
use crate::form::current_in;
use crate::tree::listed;
use ex_base::{Items, Oid};
use std::alloc::{AllocError, Global};
use table_model::{BoundName, BoundNames, GroupRow, Name, Object, TableFile, Version};

/// What the name is bound to: the first row that has it.
pub fn bound_named<'a>(names: &'a [BoundName], name: &[u8]) -> Option<&'a BoundName>
    ensures { option_copied result ≡ find (λ b. bytes_eq b.name name.now) names.now }
{
    for bound in names {
        if same_bytes(bound.name.as_slice(), name) {
            return Some(bound);
        }
    }
    None
}

/// Whether the name is bound.
pub fn is_bound(names: &[BoundName], name: &[u8]) -> bool
    ensures { result ≡ list_any (λ b. bytes_eq b.name name.now) names.now }
{
    for bound in names {
        if same_bytes(bound.name.as_slice(), name) {
            return true;
        }
    }
    false
}

/// Whether a group has the name.
pub fn is_group(groups: &[GroupRow], name: &[u8]) -> bool
    ensures { result ≡ list_any (λ g. bytes_eq g.name name.now) groups.now }
{
    for group in groups {
        if same_bytes(group.name.as_slice(), name) {
            return true;
        }
    }
    false
}

/// A copy of the name, with a mark or without.
fn with_marks(alloc: Global, bound: &BoundName, marked: bool) -> Result<BoundName, AllocError>
    ensures { IfOk result (λ copy. copy ≡ record bound.now { marked = marked }) }
{
    Ok(BoundName {
        name: Items::of_bytes(alloc, bound.name.as_slice())?,
        oid: bound.oid,
        marked,
    })
}

/// The names with all marks taken off.
pub fn unmarked(alloc: Global, names: &[BoundName]) -> Result<BoundNames, AllocError>
    ensures { IfOk result (λ changed. changed ≡ unmarked names.now) }
{
    let mut out = Vec::new(alloc);
    for bound in names {
        out.push(with_marks(alloc, bound, false)?)?;
    }
    Ok(Items::of(out))
}

/// The names that carry no mark.
pub fn kept(alloc: Global, names: &[BoundName]) -> Result<BoundNames, AllocError>
    ensures { IfOk result (λ changed. changed ≡ kept names.now) }
{
    let mut out = Vec::new(alloc);
    for bound in names {
        if !bound.marked {
            out.push(with_marks(alloc, bound, bound.marked)?)?;
        }
    }
    Ok(Items::of(out))
}

/// The names, and behind them the one, where there is one, that is bound in the open transaction.
pub fn with_bound(
    alloc: Global,
    names: &[BoundName],
    bind: Option<&[u8]>,
    oid: Oid,
) -> Result<BoundNames, AllocError>
    ensures { IfOk result (λ changed. changed
        ≡ names.now ++ bound_if (option_map (λ name. name.now) bind.entry) oid) }
{
    let mut out = Vec::new(alloc);
    for bound in names {
        out.push(with_marks(alloc, bound, bound.marked)?)?;
    }
    if let Some(name) = bind {
        out.push(BoundName {
            name: Items::of_bytes(alloc, name)?,
            oid,
            marked: true,
        })?;
    }
    Ok(Items::of(out))
}

/// The names of the files, in their order.
pub fn file_names(alloc: Global, files: &[TableFile]) -> Result<Vec<Name>, AllocError>
    ensures { IfOk result (λ names. names.items ≡ map (λ f. f.name) files.now) }
{
    let mut out = Vec::new(alloc);
    for file in files {
        out.push(Items::of_bytes(alloc, file.name.as_slice())?)?;
    }
    Ok(out)
}

/// The identifiers of the versions, in their order.
fn oids(alloc: Global, versions: &[Version]) -> Result<Vec<Oid>, AllocError>
    ensures { IfOk result (λ found. found.items ≡ oids versions.now) }
{
    let mut out = Vec::new(alloc);
    for version in versions {
        out.push(version.oid)?;
    }
    Ok(out)
}

/// The identifiers of the file's current versions, in order of their numbers.
pub fn current_oids(alloc: Global, file: &TableFile) -> Result<Vec<Oid>, AllocError>
    ensures { IfOk result (λ found. found.items ≡ oids (current_in file.now)) }
{
    let versions = current_in(alloc, file)?;
    oids(alloc, &versions)
}

/// The identifiers of the object's versions, each before those that are derived from it.
pub fn listed_oids(alloc: Global, object: &Object) -> Result<Vec<Oid>, AllocError>
    ensures { IfOk result (λ found. found.items ≡ oids (listed object.now.versions)) }
{
    let versions = listed(alloc, object.versions.as_slice())?;
    oids(alloc, &versions)
}
