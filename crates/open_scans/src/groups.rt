//! The groups that a session made, by their names.
ghost use Rattle.std.specs.Prelude.{◌≡◌, ◌≤◌, ◌<◌, ◌+◌, ◌-◌, ◌^◌, ◌++◌, [], ◌∷◌, length, bytes_eq, position, IfOk, IfSome, OnOk, OnErr};
ghost use Rattle.open_scans.specs.GroupRows.{empty_group, group_index, is_row_named};
ghost use Rattle.table_model.specs.Machines.{main};
ghost use Rattle.table_model.specs.Requests.{frames_most};

use buffer_groups::{Group, Groups, Policy};
use ex_base::Items;
use std::alloc::{AllocError, Global};
use std::mem;
use table_model::{GroupRow, GroupRows};

/// The name of the group that every session has.
pub const MAIN_NAME: &[u8] = b"main";

/// Whether the name is that of the group that every session has.
fn is_main(name: &[u8]) -> bool
    ensures { result ≡ bytes_eq main name.now }
{
    MAIN_NAME == name
}

/// The index of the first row that has the name.
fn place_of(rows: &[GroupRow], name: &[u8]) -> Option<usize>
    ensures value { result ≡ position (is_row_named name.now) rows.now }
    ensures inside { IfSome result (λ index. index < length rows.now) }
{
    rows.iter().position(|row| row.name.as_slice() == name)
}

/// The index of the group with a name among the groups of a session: `main` is the first, and those that were made stand behind it in their order.
pub fn group_index(rows: &[GroupRow], name: &[u8]) -> Option<u32>
    requires { length rows.now < 2 ^ 32 - 1 }
    ensures { result ≡ group_index rows.now name.now }
{
    if is_main(name) {
        return Some(0);
    }
    match place_of(rows, name) {
        Some(index) => Some(index as u32 + 1),
        None => None,
    }
}

/// A group with no page in it, of the frames and the policy of a row, for pages of `page_size` bytes.
pub fn group_of(alloc: Global, row: &GroupRow, page_size: u32) -> Result<Group, AllocError>
    requires some { 1 ≤ row.now.frames }
    requires few { row.now.frames ≤ frames_most }
    ensures { IfOk result (λ group. group ≡ empty_group row.now page_size) }
{
    let policy = if row.mru { Policy::Mru } else { Policy::Lru };
    Group::make(alloc, row.frames, page_size, policy)
}

// Puts a row and its group last. Where there is no memory, nothing changes.
fn put_both(
    rows: &mut Vec<GroupRow>,
    groups: &mut Groups,
    row: GroupRow,
    group: Group,
) -> Result<(), AllocError>
    requires { length groups.old + 1 < 2 ^ 32 }
    ensures rows_ok { OnOk result (rows.new.items ≡ rows.old.items ++ row ∷ []) }
    ensures groups_ok { OnOk result (groups.new ≡ groups.old ++ group ∷ []) }
    ensures rows_err { OnErr result (rows.new.items ≡ rows.old.items) }
    ensures groups_err { OnErr result (groups.new ≡ groups.old) }
{
    rows.push(row)?;
    match groups.add(group) {
        Ok(()) => Ok(()),
        Err(want) => {
            rows.pop();
            Err(want)
        }
    }
}

/// Puts a row last, and a group of it, with no page in it, behind the others, for pages of `page_size` bytes. Where there is no memory, nothing changes.
pub fn add_group(
    alloc: Global,
    rows: &mut GroupRows,
    groups: &mut Groups,
    row: GroupRow,
    page_size: u32,
) -> Result<(), AllocError>
    requires room { length groups.old + 1 < 2 ^ 32 }
    requires some { 1 ≤ row.frames }
    requires few { row.frames ≤ frames_most }
    ensures rows_ok { OnOk result (rows.new ≡ rows.old ++ row ∷ []) }
    ensures groups_ok { OnOk result (groups.new ≡ groups.old ++ empty_group row page_size ∷ []) }
    ensures rows_err { OnErr result (rows.new ≡ rows.old) }
    ensures groups_err { OnErr result (groups.new ≡ groups.old) }
{
    let group = group_of(alloc, &row, page_size)?;
    let mut items = mem::replace(rows, Items::make(alloc)).into_vec();
    let added = put_both(&mut items, groups, row, group);
    *rows = Items::of(items);
    added
}
