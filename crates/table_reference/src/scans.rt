//! The steps of `group`, `scan`, `next` and `close`.

ghost use Rattle.std.specs.Prelude.{◌≡◌, IfOk, OnErr, option_map};
ghost use Rattle.table_model.specs.Requests.{reference_of};
ghost use Rattle.table_model.specs.Requests as request;
ghost use Rattle.table_model.specs.Steps.{Step, Allows};

use crate::contents::bytes_named;
use crate::refuse::{
    name_taken, no_group, no_name, no_object, no_scan, too_many_groups, too_many_scans,
};
use ex_base::Items;
use std::alloc::{AllocError, Global};
use table_lists::{next_bytes, scans_moved, scans_without};
use table_model::{GroupRow, Machine, Pick, Reply, ScanRow, Subject};

pub(crate) fn step_group(
    alloc: Global,
    machine: &mut Machine,
    name: &[u8],
    frames: u32,
    mru: bool,
    pick: &Pick,
) -> Result<Reply, AllocError>
    ensures step { IfOk result
        (λ told. Step machine.old (request.Group name.now frames mru) pick.now told machine.new) }
    ensures kept { OnErr result (machine.new ≡ machine.old) }
{
    if let Some(why) = name_taken(machine, name).or(too_many_groups(machine).or(None)) {
        return Ok(Reply::No(why));
    }
    let told = Items::of_bytes(alloc, name)?;
    machine.groups.push(GroupRow {
        name: Items::of_bytes(alloc, name)?,
        frames,
        mru,
    })?;
    Ok(Reply::Group { name: told })
}

pub(crate) fn step_scan(
    alloc: Global,
    machine: &mut Machine,
    x: &Subject,
    name: &[u8],
    group: &Option<&[u8]>,
    pick: &Pick,
) -> Result<Reply, AllocError>
    ensures step { IfOk result
        (λ told. Step machine.old (request.Scan (reference_of x.now) name.now (option_map
        (λ g. g.now) group.now)) pick.now told machine.new) }
    ensures kept { OnErr result (machine.new ≡ machine.old) }
{
    let own = no_object(machine, x).or(no_group(machine, group).or(too_many_scans(machine).or(
        None,
    )));
    if let Some(why) = no_name(machine, x).or(name_taken(machine, name).or(own)) {
        return Ok(Reply::No(why));
    }
    let bytes = bytes_named(alloc, machine, x)?;
    let size = bytes.len() as u64;
    let told = Items::of_bytes(alloc, name)?;
    machine.scans.push(ScanRow {
        name: Items::of_bytes(alloc, name)?,
        bytes,
        pos: 0,
    })?;
    Ok(Reply::Scan { name: told, size })
}

pub(crate) fn step_next(
    alloc: Global,
    machine: &mut Machine,
    name: &[u8],
    len: u32,
    pick: &Pick,
) -> Result<Reply, AllocError>
    ensures step { IfOk result
        (λ told. Step machine.old (request.Next name.now len) pick.now told machine.new) }
    ensures kept { OnErr result (machine.new ≡ machine.old) }
{
    if let Some(why) = no_scan(machine, name).or(None) {
        return Ok(Reply::No(why));
    }
    let bytes = next_bytes(alloc, machine.scans.as_slice(), name, len)?;
    let scans = scans_moved(alloc, machine.scans.as_slice(), name, len)?;
    machine.scans = Items::of(scans);
    Ok(Reply::Next { bytes })
}

pub(crate) fn step_close(
    alloc: Global,
    machine: &mut Machine,
    name: &[u8],
    pick: &Pick,
) -> Result<Reply, AllocError>
    requires { Allows machine.old (request.Close name.now) pick.now }
    ensures step { IfOk result
        (λ told. Step machine.old (request.Close name.now) pick.now told machine.new) }
    ensures kept { OnErr result (machine.new ≡ machine.old) }
{
    if let Some(why) = no_scan(machine, name).or(None) {
        return Ok(Reply::No(why));
    }
    let scans = scans_without(alloc, machine.scans.as_slice(), name)?;
    let told = Items::of_bytes(alloc, name)?;
    machine.scans = Items::of(scans);
    machine.pages_used = pick.pages;
    machine.segs_used = pick.segs;
    Ok(Reply::Close { name: told })
}
