//! Looking things up in a table, by going over its items from the first on.

ghost use Rattle.std.specs.Prelude.{◌≡◌, bytes_eq, option_copied, find, flat_map};
ghost use Rattle.std.specs.List.{list_any};
ghost use Rattle.table_model.specs.Tables.{has_name, versions_in, version_at, object_at, file_at};
ghost use Rattle.version_lists.specs.Versions.{has_oid};
ghost use Rattle.table_lists.specs.Keys.{oid_of_key};

use ex_base::Oid;
use table_model::{Object, Table, TableFile, Version};

/// The numbers of an identifier as a line gives them: each may be too large for its field, and then no version has them.
#[derive(Clone, Copy, Debug, PartialEq, Eq)]
pub struct Key {
    pub page: u64,
    pub slot: u64,
    pub unique: u64,
}

/// The numbers of an identifier.
pub fn key_at(oid: &Oid) -> Key
    ensures { oid_of_key result ≡ oid.now }
{
    Key {
        page: u64::from(oid.page.0),
        slot: u64::from(oid.slot),
        unique: oid.unique,
    }
}

/// Whether two texts are the same bytes.
pub fn same_bytes(a: &[u8], b: &[u8]) -> bool
    ensures { result ≡ bytes_eq a.now b.now }
{
    a == b
}

/// Whether the version has the identifier.
pub fn is_at(version: &Version, key: &Key) -> bool
    ensures { result ≡ has_oid (oid_of_key key.now) version.now }
{
    u64::from(version.oid.page.0) == key.page
        && u64::from(version.oid.slot) == key.slot
        && version.oid.unique == key.unique
}

/// The version that has the identifier.
pub(crate) fn in_versions<'a>(versions: &'a [Version], key: &Key) -> Option<&'a Version>
    ensures { option_copied result ≡ find (has_oid (oid_of_key key.now)) versions.now }
{
    for version in versions {
        if is_at(version, key) {
            return Some(version);
        }
    }
    None
}

fn in_objects<'a>(objects: &'a [Object], key: &Key) -> Option<&'a Version>
    ensures { option_copied result ≡ find (has_oid (oid_of_key key.now)) (flat_map
        (λ o. o.versions) objects.now) }
{
    for object in objects {
        match in_versions(object.versions.as_slice(), key) {
            Some(version) => return Some(version),
            None => {}
        }
    }
    None
}

fn in_files<'a>(files: &'a [TableFile], key: &Key) -> Option<&'a Version>
    ensures { option_copied result ≡ find (has_oid (oid_of_key key.now))
        (flat_map versions_in files.now) }
{
    for file in files {
        match in_objects(file.objects.as_slice(), key) {
            Some(version) => return Some(version),
            None => {}
        }
    }
    None
}

/// The live version that has the identifier.
pub fn find_version<'a>(table: &'a Table, key: &Key) -> Option<&'a Version>
    ensures { option_copied result ≡ version_at table.now (oid_of_key key.now) }
{
    in_files(table.files.as_slice(), key)
}

fn has_version(object: &Object, key: &Key) -> bool
    ensures { result ≡ list_any (has_oid (oid_of_key key.now)) object.now.versions }
{
    for version in object.versions.as_slice() {
        if is_at(version, key) {
            return true;
        }
    }
    false
}

fn object_with<'a>(objects: &'a [Object], key: &Key) -> Option<&'a Object>
    ensures { option_copied result ≡ find
        (λ o. list_any (has_oid (oid_of_key key.now)) o.versions) objects.now }
{
    for object in objects {
        if has_version(object, key) {
            return Some(object);
        }
    }
    None
}

fn object_in_files<'a>(files: &'a [TableFile], key: &Key) -> Option<&'a Object>
    ensures { option_copied result ≡ find (λ o. list_any (has_oid (oid_of_key key.now)) o.versions)
        (flat_map (λ f. f.objects) files.now) }
{
    for file in files {
        match object_with(file.objects.as_slice(), key) {
            Some(object) => return Some(object),
            None => {}
        }
    }
    None
}

/// The object that has the version.
pub fn find_object<'a>(table: &'a Table, key: &Key) -> Option<&'a Object>
    ensures { option_copied result ≡ object_at table.now (oid_of_key key.now) }
{
    object_in_files(table.files.as_slice(), key)
}

fn file_among<'a>(files: &'a [TableFile], name: &[u8]) -> Option<&'a TableFile>
    ensures { option_copied result ≡ find (has_name name.now) files.now }
{
    for file in files {
        if same_bytes(file.name.as_slice(), name) {
            return Some(file);
        }
    }
    None
}

/// The file of the name.
pub fn find_file<'a>(table: &'a Table, name: &[u8]) -> Option<&'a TableFile>
    ensures { option_copied result ≡ file_at table.now name.now }
{
    file_among(table.files.as_slice(), name)
}
