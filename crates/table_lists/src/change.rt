//! What an update makes of the versions of a file. It builds the changed list anew.

ghost use Rattle.std.specs.Prelude.{◌≡◌, map, filter, not, IfOk};
ghost use Rattle.version_lists.specs.Versions.{has_oid};
ghost use Rattle.version_lists.specs.Changes.{created_in, edited_in, moved_onto, frozen_in, derived_in, older_instead, without_in};
ghost use Rattle.table_lists.specs.Keys.{oid_of_key};
ghost use Rattle.table_lists.specs.Edited.{edit_of};
ghost use Rattle.table_lists.specs.Changed.{versions_after};

use crate::edit::{Edit, edited};
use crate::find::{Key, in_versions, is_at, key_at};
use crate::form::copies;
use crate::tree::is_derived_from;
use ex_base::{Items, Oid};
use std::alloc::{AllocError, Global};
use table_model::Version;

/// A change of the versions of a file.
#[derive(Clone, Copy)]
pub(crate) enum VersionChange<'a> {
    /// A new object's version comes, without bytes.
    Create(Oid),
    /// The bytes of the version are edited.
    Edit(Key, Edit<'a>),
    /// A frozen copy of the version, under another identifier, comes between it and its older one.
    Freeze(Key, Oid),
    /// A current copy of the version, under another identifier, is derived from it.
    Derive(Key, Oid),
    /// The version is taken out. What is derived from it is derived from its older one instead.
    Without(Key),
}

fn versions_created(
    alloc: Global,
    versions: &[Version],
    oid: &Oid,
) -> Result<Vec<Version>, AllocError>
    ensures { IfOk result (λ changed. changed.items ≡ created_in oid.now versions.now) }
{
    let mut out = copies(alloc, versions)?;
    out.push(Version {
        oid: *oid,
        frozen: false,
        older: None,
        bytes: Items::make(alloc),
    })?;
    Ok(out)
}

fn versions_edited(
    alloc: Global,
    versions: &[Version],
    key: &Key,
    edit: &Edit,
) -> Result<Vec<Version>, AllocError>
    ensures { IfOk result (λ changed. changed.items
        ≡ edited_in (oid_of_key key.now) (edit_of edit.now) versions.now) }
{
    let mut out = Vec::new(alloc);
    for version in versions {
        if is_at(version, key) {
            out.push(Version {
                oid: version.oid,
                frozen: version.frozen,
                older: version.older,
                bytes: edited(alloc, version.bytes.as_slice(), edit)?,
            })?;
        } else {
            out.push(version.clone()?)?;
        }
    }
    Ok(out)
}

/// The versions, with the one of the key derived from the version with a number instead.
fn versions_moved(
    alloc: Global,
    versions: &[Version],
    key: &Key,
    number: u64,
) -> Result<Vec<Version>, AllocError>
    ensures { IfOk result (λ changed. changed.items
        ≡ map (moved_onto (oid_of_key key.now) number) versions.now) }
{
    let mut out = Vec::new(alloc);
    for version in versions {
        if is_at(version, key) {
            out.push(Version {
                oid: version.oid,
                frozen: version.frozen,
                older: Some(number),
                bytes: Items::of_bytes(alloc, version.bytes.as_slice())?,
            })?;
        } else {
            out.push(version.clone()?)?;
        }
    }
    Ok(out)
}

fn versions_frozen(
    alloc: Global,
    versions: &[Version],
    key: &Key,
    copy: &Oid,
) -> Result<Vec<Version>, AllocError>
    ensures { IfOk result (λ changed. changed.items
        ≡ frozen_in (oid_of_key key.now) copy.now versions.now) }
{
    let mut out = versions_moved(alloc, versions, key, copy.unique)?;
    for version in versions {
        if is_at(version, key) {
            out.push(Version {
                oid: *copy,
                frozen: true,
                older: version.older,
                bytes: Items::of_bytes(alloc, version.bytes.as_slice())?,
            })?;
        }
    }
    Ok(out)
}

fn versions_derived(
    alloc: Global,
    versions: &[Version],
    key: &Key,
    copy: &Oid,
) -> Result<Vec<Version>, AllocError>
    ensures { IfOk result (λ changed. changed.items
        ≡ derived_in (oid_of_key key.now) copy.now versions.now) }
{
    let mut out = copies(alloc, versions)?;
    for version in versions {
        if is_at(version, key) {
            out.push(Version {
                oid: *copy,
                frozen: false,
                older: Some(version.oid.unique),
                bytes: Items::of_bytes(alloc, version.bytes.as_slice())?,
            })?;
        }
    }
    Ok(out)
}

/// The version, derived from the older one of a version that goes, if it was derived from that.
fn older_instead(alloc: Global, version: &Version, gone: &Version) -> Result<Version, AllocError>
    ensures { IfOk result (λ changed. changed ≡ older_instead gone.now version.now) }
{
    let older = if is_derived_from(version, gone.oid.unique) {
        gone.older
    } else {
        version.older
    };
    Ok(Version {
        oid: version.oid,
        frozen: version.frozen,
        older,
        bytes: Items::of_bytes(alloc, version.bytes.as_slice())?,
    })
}

/// The versions that are left when this one goes.
fn versions_left(
    alloc: Global,
    versions: &[Version],
    gone: &Version,
) -> Result<Vec<Version>, AllocError>
    ensures { IfOk result (λ changed. changed.items ≡ map (older_instead gone.now) (filter
        (λ v. not (has_oid gone.now.oid v)) versions.now)) }
{
    let key = key_at(&gone.oid);
    let mut out = Vec::new(alloc);
    for version in versions {
        if !is_at(version, &key) {
            out.push(older_instead(alloc, version, gone)?)?;
        }
    }
    Ok(out)
}

fn versions_without(
    alloc: Global,
    versions: &[Version],
    key: &Key,
) -> Result<Vec<Version>, AllocError>
    ensures { IfOk result (λ changed. changed.items
        ≡ without_in (oid_of_key key.now) versions.now) }
{
    match in_versions(versions, key) {
        Some(gone) => versions_left(alloc, versions, gone),
        None => copies(alloc, versions),
    }
}

/// The versions with the change made.
pub(crate) fn versions_changed(
    alloc: Global,
    versions: &[Version],
    change: &VersionChange,
) -> Result<Vec<Version>, AllocError>
    ensures { IfOk result (λ changed. changed.items ≡ versions_after change.now versions.now) }
{
    match change {
        VersionChange::Create(oid) => versions_created(alloc, versions, oid),
        VersionChange::Edit(key, edit) => versions_edited(alloc, versions, key, edit),
        VersionChange::Freeze(key, copy) => versions_frozen(alloc, versions, key, copy),
        VersionChange::Derive(key, copy) => versions_derived(alloc, versions, key, copy),
        VersionChange::Without(key) => versions_without(alloc, versions, key),
    }
}
