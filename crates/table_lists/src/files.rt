//! What the updates make of a table. Each builds the changed lists anew.

ghost use Rattle.std.specs.Prelude.{◌≡◌, ◌≤◌, ◌<◌, ◌+◌, ◌^◌, map, filter, not, insert, length, IfOk};
ghost use Rattle.table_model.specs.Tables.{has_name, with_versions, in_each_file, object_added, with_object, with_file, file_inserted, numbered, with_bytes, with_frozen, with_derived, without_file, without_version};
ghost use Rattle.table_model.specs.declared.table.TableFile.{TableFile};
ghost use Rattle.table_lists.specs.Keys.{oid_of_key};
ghost use Rattle.table_lists.specs.Edited.{edit_of};
ghost use Rattle.table_lists.specs.Changed.{versions_after};

use crate::change::{VersionChange, versions_changed};
use crate::edit::Edit;
use crate::find::{Key, same_bytes};
use crate::form::{all_in, objects_formed};
use ex_base::{Items, Oid};
use std::alloc::{AllocError, Global};
use std::cmp::Ordering;
use table_model::{Table, TableFile};

/// The file with its versions changed, and its objects formed of what is left.
fn file_changed(
    alloc: Global,
    file: &TableFile,
    change: &VersionChange,
) -> Result<TableFile, AllocError>
    ensures { IfOk result (λ changed. changed
        ≡ with_versions (versions_after change.now) file.now) }
{
    let versions = all_in(alloc, file)?;
    let changed = versions_changed(alloc, &versions, change)?;
    let objects = objects_formed(alloc, &changed)?;
    Ok(TableFile {
        name: Items::of_bytes(alloc, file.name.as_slice())?,
        objects: Items::of(objects),
    })
}

fn files_changed(
    alloc: Global,
    files: &[TableFile],
    change: &VersionChange,
) -> Result<Vec<TableFile>, AllocError>
    ensures { IfOk result (λ changed. changed.items
        ≡ map (with_versions (versions_after change.now)) files.now) }
{
    let mut out = Vec::new(alloc);
    for file in files {
        out.push(file_changed(alloc, file, change)?)?;
    }
    Ok(out)
}

/// The table with the versions of each file changed.
fn in_each_file(alloc: Global, table: &Table, change: &VersionChange) -> Result<Table, AllocError>
    ensures { IfOk result (λ changed. changed
        ≡ in_each_file (versions_after change.now) table.now) }
{
    let files = files_changed(alloc, table.files.as_slice(), change)?;
    Ok(Table {
        next_unique: table.next_unique,
        last: table.last,
        files: Items::of(files),
    })
}

/// The table with one version's bytes edited.
pub fn with_bytes(alloc: Global, table: &Table, key: &Key, edit: &Edit) -> Result<Table, AllocError>
    ensures { IfOk result (λ changed. changed
        ≡ with_bytes (oid_of_key key.now) (edit_of edit.now) table.now) }
{
    in_each_file(alloc, table, &VersionChange::Edit(*key, *edit))
}

/// The table with a frozen copy of the version between it and its older one. The copy's number is used up.
pub fn with_frozen(alloc: Global, table: &Table, key: &Key, copy: &Oid) -> Result<Table, AllocError>
    requires { table.now.next_unique + 1 < 2 ^ 64 }
    ensures { IfOk result (λ changed. changed
        ≡ numbered (with_frozen (oid_of_key key.now) copy.now table.now)) }
{
    let mut changed = in_each_file(alloc, table, &VersionChange::Freeze(*key, *copy))?;
    changed.next_unique = table.next_unique + 1;
    Ok(changed)
}

/// The table with a current copy derived from the version. The copy's number is used up.
pub fn with_derived(
    alloc: Global,
    table: &Table,
    key: &Key,
    copy: &Oid,
) -> Result<Table, AllocError>
    requires { table.now.next_unique + 1 < 2 ^ 64 }
    ensures { IfOk result (λ changed. changed
        ≡ numbered (with_derived (oid_of_key key.now) copy.now table.now)) }
{
    let mut changed = in_each_file(alloc, table, &VersionChange::Derive(*key, *copy))?;
    changed.next_unique = table.next_unique + 1;
    Ok(changed)
}

/// The table without the version. What was derived from it is derived from its older one instead.
pub fn without_version(alloc: Global, table: &Table, key: &Key) -> Result<Table, AllocError>
    ensures { IfOk result (λ changed. changed ≡ without_version (oid_of_key key.now) table.now) }
{
    in_each_file(alloc, table, &VersionChange::Without(*key))
}

/// The file with a new object, where it has the name.
fn object_added(
    alloc: Global,
    file: &TableFile,
    oid: &Oid,
    name: &[u8],
) -> Result<TableFile, AllocError>
    ensures { IfOk result (λ changed. changed ≡ object_added oid.now name.now file.now) }
{
    if same_bytes(file.name.as_slice(), name) {
        file_changed(alloc, file, &VersionChange::Create(*oid))
    } else {
        file.clone()
    }
}

fn files_with_object(
    alloc: Global,
    files: &[TableFile],
    oid: &Oid,
    name: &[u8],
) -> Result<Vec<TableFile>, AllocError>
    ensures { IfOk result (λ changed. changed.items
        ≡ map (object_added oid.now name.now) files.now) }
{
    let mut out = Vec::new(alloc);
    for file in files {
        out.push(object_added(alloc, file, oid, name)?)?;
    }
    Ok(out)
}

/// The table with a new object in the file of the name. Its number is used up.
pub fn with_object(
    alloc: Global,
    table: &Table,
    oid: &Oid,
    name: &[u8],
) -> Result<Table, AllocError>
    requires { table.now.next_unique + 1 < 2 ^ 64 }
    ensures { IfOk result (λ changed. changed ≡ numbered (with_object oid.now name.now table.now)) }
{
    let files = files_with_object(alloc, table.files.as_slice(), oid, name)?;
    Ok(Table {
        next_unique: table.next_unique + 1,
        last: table.last,
        files: Items::of(files),
    })
}

/// How many files have names up to this one, before the first that comes later.
fn place_of(files: &[TableFile], name: &[u8]) -> usize
    ensures inside { result ≤ length files.now }
    ensures place { (f : TableFile) → f.name ≡ name.now
        → file_inserted f files.now ≡ insert files.now result f }
{
    for (i, file) in files.iter().enumerate() {
        if name.cmp(file.name.as_slice()) == Ordering::Less {
            return i;
        }
    }
    files.len()
}

/// The table with an empty file of the name.
pub fn with_file(alloc: Global, table: &Table, name: &[u8]) -> Result<Table, AllocError>
    ensures { IfOk result (λ changed. changed ≡ with_file name.now table.now) }
{
    let mut files = table.files.clone()?.into_vec();
    let at = place_of(table.files.as_slice(), name);
    files.insert(
        at,
        TableFile {
            name: Items::of_bytes(alloc, name)?,
            objects: Items::make(alloc),
        },
    )?;
    Ok(Table {
        next_unique: table.next_unique,
        last: table.last,
        files: Items::of(files),
    })
}

fn files_without(
    alloc: Global,
    files: &[TableFile],
    name: &[u8],
) -> Result<Vec<TableFile>, AllocError>
    ensures { IfOk result (λ changed. changed.items
        ≡ filter (λ f. not (has_name name.now f)) files.now) }
{
    let mut out = Vec::new(alloc);
    for file in files {
        if !same_bytes(file.name.as_slice(), name) {
            out.push(file.clone()?)?;
        }
    }
    Ok(out)
}

/// The table without the file of the name.
pub fn without_file(alloc: Global, table: &Table, name: &[u8]) -> Result<Table, AllocError>
    ensures { IfOk result (λ changed. changed ≡ without_file name.now table.now) }
{
    let files = files_without(alloc, table.files.as_slice(), name)?;
    Ok(Table {
        next_unique: table.next_unique,
        last: table.last,
        files: Items::of(files),
    })
}
