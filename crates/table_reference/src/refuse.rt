//! Why a command is refused: each refusal as a test of its own.

ghost use Rattle.std.specs.Prelude.{◌≡◌, ◌+◌, ◌-◌, ◌≤◌, ◌∷◌, [], length, option_copied, option_map, IfOk};
ghost use Rattle.table_model.specs.Requests.{reference_of};
ghost use Rattle.table_model.specs.Machines.{shown, oid_of, the_oid, version_of, size_of, has_group, updates_most};
ghost use Rattle.table_model.specs.Needs.{free};
ghost use Rattle.table_model.specs.Refusals.{when, no_txn, txn_open, no_name, name_taken, name_taken_if, no_file, file_exists, files_full, no_object, frozen, current, not_empty, has_versions, branches, no_scan, no_group, range, too_large, too_many_scans, too_many_groups, ids_spent, long_txn, full_in, full, first};
ghost use Rattle.table_lists.specs.Keys.{oid_of_key};

use ex_base::{Area, OBJECT_MOST, Oid, TOUCHED_MOST, UPDATES_MOST};
use std::alloc::{AllocError, Global};
use table_lists::{
    Key, bound_named, count_derived, find_file, find_version, has_one, is_bound, is_group, is_scan,
    key_at, same_bytes, scan_named,
};
use table_model::{GROUPS_MOST, Machine, Refusal, SCANS_MOST, Subject, Table, Version};

/// The group of every scan that names none.
const MAIN_GROUP: &[u8] = b"main";

/// The table that commands show.
pub fn shown(machine: &Machine) -> &Table
    ensures { result.now ≡ shown machine.now }
{
    match &machine.working {
        Some(table) => table,
        None => &machine.committed,
    }
}

/// The identifier that the words stand for.
fn key_of(machine: &Machine, x: &Subject) -> Option<Key>
    ensures { option_map oid_of_key result ≡ oid_of machine.now (reference_of x.now) }
{
    match x {
        Subject::Name(name) => match bound_named(machine.names.as_slice(), name) {
            Some(bound) => Some(key_at(&bound.oid)),
            None => None,
        },
        Subject::Number { page, slot, unique } => Some(Key {
            page: *page,
            slot: *slot,
            unique: *unique,
        }),
    }
}

/// The version that the words stand for, where it is live.
pub(crate) fn version_named<'a>(machine: &'a Machine, x: &Subject) -> Option<&'a Version>
    ensures { option_copied result ≡ version_of machine.now (reference_of x.now) }
{
    match key_of(machine, x) {
        Some(key) => find_version(shown(machine), &key),
        None => None,
    }
}

/// Its bytes; 0 where there is none.
pub(crate) fn size_named(machine: &Machine, x: &Subject) -> u64
    ensures { result ≡ size_of machine.now (reference_of x.now) }
{
    match version_named(machine, x) {
        Some(version) => version.bytes.len() as u64,
        None => 0,
    }
}

/// The refusal where the test holds.
pub(crate) fn when(holds: bool, why: Refusal) -> Option<Refusal>
    ensures { result ≡ when holds why }
{
    if holds { Some(why) } else { None }
}

pub(crate) fn no_txn(machine: &Machine) -> Option<Refusal>
    ensures { result ≡ no_txn machine.now }
{
    when(machine.working.is_none(), Refusal::NoTxn)
}

pub(crate) fn txn_open(machine: &Machine) -> Option<Refusal>
    ensures { result ≡ txn_open machine.now }
{
    when(machine.working.is_some(), Refusal::TxnOpen)
}

pub(crate) fn no_name(machine: &Machine, x: &Subject) -> Option<Refusal>
    ensures { result ≡ no_name machine.now (reference_of x.now) }
{
    when(key_of(machine, x).is_none(), Refusal::NoName)
}

pub(crate) fn no_object(machine: &Machine, x: &Subject) -> Option<Refusal>
    ensures { result ≡ no_object machine.now (reference_of x.now) }
{
    when(version_named(machine, x).is_none(), Refusal::NoObject)
}

pub(crate) fn no_file(machine: &Machine, name: &[u8]) -> Option<Refusal>
    ensures { result ≡ no_file machine.now name.now }
{
    when(find_file(shown(machine), name).is_none(), Refusal::NoFile)
}

pub(crate) fn file_exists(machine: &Machine, name: &[u8]) -> Option<Refusal>
    ensures { result ≡ file_exists machine.now name.now }
{
    when(
        find_file(shown(machine), name).is_some(),
        Refusal::FileExists,
    )
}

pub(crate) fn files_full(machine: &Machine) -> Option<Refusal>
    ensures { result ≡ files_full machine.now }
{
    let most = machine.geometry.files_most();
    when(
        shown(machine).files.len() >= most as usize,
        Refusal::FilesFull,
    )
}

pub(crate) fn ids_spent(number: u64) -> Option<Refusal>
    ensures { result ≡ ids_spent number }
{
    when(number == u64::MAX, Refusal::IdsSpent)
}

/// The identifier of the version that is named.
pub(crate) fn the_oid(machine: &Machine, x: &Subject) -> Oid
    ensures { result ≡ the_oid machine.now (reference_of x.now) }
{
    match version_named(machine, x) {
        Some(version) => version.oid,
        None => Oid::NONE,
    }
}

/// The numbers of that identifier.
pub(crate) fn the_key(machine: &Machine, x: &Subject) -> Key
    ensures { oid_of_key result ≡ the_oid machine.now (reference_of x.now) }
{
    key_at(&the_oid(machine, x))
}

pub(crate) fn frozen(machine: &Machine, x: &Subject) -> Option<Refusal>
    ensures { result ≡ frozen machine.now (reference_of x.now) }
{
    let is_frozen = match version_named(machine, x) {
        Some(version) => version.frozen,
        None => false,
    };
    when(is_frozen, Refusal::Frozen)
}

pub(crate) fn current(machine: &Machine, x: &Subject) -> Option<Refusal>
    ensures { result ≡ current machine.now (reference_of x.now) }
{
    let is_current = match version_named(machine, x) {
        Some(version) => !version.frozen,
        None => false,
    };
    when(is_current, Refusal::Current)
}

pub(crate) fn not_empty(machine: &Machine, name: &[u8]) -> Option<Refusal>
    ensures { result ≡ not_empty machine.now name.now }
{
    let has_objects = match find_file(shown(machine), name) {
        Some(file) => file.objects.len() > 0,
        None => false,
    };
    when(has_objects, Refusal::NotEmpty)
}

pub(crate) fn has_versions(
    alloc: Global,
    machine: &Machine,
    x: &Subject,
) -> Result<Option<Refusal>, AllocError>
    ensures { IfOk result (λ found. found ≡ has_versions machine.now (reference_of x.now)) }
{
    let holds = match version_named(machine, x) {
        Some(version) => has_one(alloc, shown(machine), version.older)?,
        None => false,
    };
    Ok(when(holds, Refusal::HasVersions))
}

/// Two or more versions are derived from the one that is named.
pub(crate) fn branches(
    alloc: Global,
    machine: &Machine,
    x: &Subject,
) -> Result<Option<Refusal>, AllocError>
    ensures { IfOk result (λ found. found ≡ branches machine.now (reference_of x.now)) }
{
    let derived = match version_named(machine, x) {
        Some(version) => count_derived(alloc, shown(machine), version.oid.unique)?,
        None => 0,
    };
    Ok(when(derived >= 2, Refusal::Branches { derived }))
}

/// The command names bytes up to the position `end`.
pub(crate) fn range(machine: &Machine, x: &Subject, end: u128) -> Option<Refusal>
    ensures { result ≡ range machine.now (reference_of x.now) end }
{
    when(u128::from(size_named(machine, x)) < end, Refusal::Range)
}

/// The object would have `more` bytes more.
pub(crate) fn too_large(machine: &Machine, x: &Subject, more: u64) -> Option<Refusal>
    ensures { result ≡ too_large machine.now (reference_of x.now) more }
{
    let size = u128::from(size_named(machine, x)) + u128::from(more);
    when(size > u128::from(OBJECT_MOST), Refusal::TooLarge)
}

fn has_group(machine: &Machine, name: &[u8]) -> bool
    ensures { result ≡ has_group machine.now name.now }
{
    let main = same_bytes(MAIN_GROUP, name);
    let among = is_group(machine.groups.as_slice(), name);
    main || among
}

pub(crate) fn name_taken(machine: &Machine, name: &[u8]) -> Option<Refusal>
    ensures { result ≡ name_taken machine.now name.now }
{
    let bound = is_bound(machine.names.as_slice(), name);
    let scan = is_scan(machine.scans.as_slice(), name);
    let group = has_group(machine, name);
    when(bound || scan || group, Refusal::NameTaken)
}

/// The same of a name that may be missing.
pub(crate) fn name_taken_if(machine: &Machine, bind: Option<&[u8]>) -> Option<Refusal>
    ensures { result ≡ name_taken_if machine.now (option_map (λ name. name.now) bind.entry) }
{
    match bind {
        Some(name) => name_taken(machine, name),
        None => None,
    }
}

/// The update may touch `more` pages more.
pub(crate) fn long_txn(machine: &Machine, more: u32) -> Option<Refusal>
    requires { length machine.now.notes ≤ updates_most }
    ensures { result ≡ long_txn machine.now more }
{
    let updates = machine.notes.len();
    let touched = u64::from(machine.touched) + u64::from(more);
    when(
        updates >= UPDATES_MOST || touched > u64::from(TOUCHED_MOST),
        Refusal::LongTxn {
            updates: updates as u32,
            touched: machine.touched,
        },
    )
}

fn free(machine: &Machine, area: Area) -> u32
    ensures { result ≡ free machine.now area }
{
    match area {
        Area::Page => machine.geometry.pages.saturating_sub(machine.pages_used),
        Area::Segment => machine.geometry.segs.saturating_sub(machine.segs_used),
    }
}

fn full_in(machine: &Machine, need: u64, area: Area) -> Option<Refusal>
    ensures { result ≡ full_in machine.now need area }
{
    Refusal::of_units(area, need, u64::from(free(machine, area)))
}

/// The update may take so many pages and segment units.
pub(crate) fn full(machine: &Machine, pages: u64, segs: u64) -> Option<Refusal>
    ensures { result ≡ full machine.now pages segs }
{
    full_in(machine, pages, Area::Page).or(full_in(machine, segs, Area::Segment).or(None))
}

pub(crate) fn no_scan(machine: &Machine, name: &[u8]) -> Option<Refusal>
    ensures { result ≡ no_scan machine.now name.now }
{
    when(
        scan_named(machine.scans.as_slice(), name).is_none(),
        Refusal::NoScan,
    )
}

pub(crate) fn no_group(machine: &Machine, group: &Option<&[u8]>) -> Option<Refusal>
    ensures { result ≡ no_group machine.now (option_map (λ g. g.now) group.now) }
{
    let lacks = match group {
        Some(name) => !has_group(machine, name),
        None => false,
    };
    when(lacks, Refusal::NoGroup)
}

pub(crate) fn too_many_scans(machine: &Machine) -> Option<Refusal>
    ensures { result ≡ too_many_scans machine.now }
{
    when(
        machine.scans.len() >= SCANS_MOST,
        Refusal::TooMany { scans: true },
    )
}

pub(crate) fn too_many_groups(machine: &Machine) -> Option<Refusal>
    ensures { result ≡ too_many_groups machine.now }
{
    when(
        machine.groups.len() >= GROUPS_MOST,
        Refusal::TooMany { scans: false },
    )
}

/// Room for an update that may touch so many logged pages, and take so many pages and segment units.
pub(crate) fn limits(machine: &Machine, charge: u32, pages: u64, segs: u64) -> Option<Refusal>
    requires { length machine.now.notes ≤ updates_most }
    ensures { result ≡ first (long_txn machine.now charge ∷ full machine.now pages segs ∷ []) }
{
    long_txn(machine, charge).or(full(machine, pages, segs).or(None))
}
