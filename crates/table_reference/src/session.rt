//! The steps of `begin`, `commit`, `abort`, `checkpoint`, `log` and `space`.

ghost use Rattle.std.specs.Prelude.{◌≡◌, ◌<◌, ◌+◌, ◌-◌, ◌^◌, [], Some, IfOk, OnErr};
ghost use Rattle.table_model.specs.Requests as request;
ghost use Rattle.table_model.specs.Machines.{IsMachine, shown};
ghost use Rattle.table_model.specs.Steps.{Step, Allows, reply_to, machine_after};

use crate::refuse::{ids_spent, no_txn, shown, txn_open};
use ex_base::Items;
use std::alloc::{AllocError, Global};
use table_lists::{kept, unmarked};
use table_model::{Machine, Pick, Reply};

fn begin(alloc: Global, machine: &mut Machine) -> Result<Reply, AllocError>
    requires { machine.old.committed.last < 2 ^ 64 - 1 }
    ensures reply { IfOk result (λ told. told ≡ Reply.Begin (machine.old.committed.last + 1)) }
    ensures machine { IfOk result (λ _. machine.new
        ≡ record machine.old { working = Some machine.old.committed; notes = []; touched = 1 }) }
    ensures kept { OnErr result (machine.new ≡ machine.old) }
{
    let number = machine.committed.last + 1;
    machine.working = Some(machine.committed.clone()?);
    machine.notes = Items::make(alloc);
    machine.touched = 1;
    Ok(Reply::Begin { number })
}

pub(crate) fn step_begin(
    alloc: Global,
    machine: &mut Machine,
    pick: &Pick,
) -> Result<Reply, AllocError>
    requires machine { IsMachine machine.old }
    requires allowed { Allows machine.old request.Begin pick.now }
    ensures step { IfOk result (λ told. Step machine.old request.Begin pick.now told machine.new) }
    ensures kept { OnErr result (machine.new ≡ machine.old) }
{
    match txn_open(machine).or(ids_spent(machine.committed.last).or(None)) {
        Some(why) => Ok(Reply::No(why)),
        None => begin(alloc, machine),
    }
}

fn commit(alloc: Global, machine: &mut Machine, pick: &Pick) -> Result<Reply, AllocError>
    requires { (shown machine.old).last < 2 ^ 64 - 1 }
    ensures reply { IfOk result (λ told. told ≡ reply_to machine.old request.Commit pick.now) }
    ensures machine { IfOk result (λ _. machine.new
        ≡ machine_after machine.old request.Commit pick.now) }
    ensures kept { OnErr result (machine.new ≡ machine.old) }
{
    let mut table = shown(machine).clone()?;
    let number = table.last + 1;
    table.last = number;
    let names = unmarked(alloc, machine.names.as_slice())?;
    machine.committed = table;
    machine.working = None;
    machine.notes = Items::make(alloc);
    machine.touched = 0;
    machine.names = names;
    machine.pages_used = pick.pages;
    machine.segs_used = pick.segs;
    Ok(Reply::Commit { number })
}

pub(crate) fn step_commit(
    alloc: Global,
    machine: &mut Machine,
    pick: &Pick,
) -> Result<Reply, AllocError>
    requires machine { IsMachine machine.old }
    requires allowed { Allows machine.old request.Commit pick.now }
    ensures step { IfOk result (λ told. Step machine.old request.Commit pick.now told machine.new) }
    ensures kept { OnErr result (machine.new ≡ machine.old) }
{
    match no_txn(machine).or(None) {
        Some(why) => Ok(Reply::No(why)),
        None => commit(alloc, machine, pick),
    }
}

fn abort(alloc: Global, machine: &mut Machine, pick: &Pick) -> Result<Reply, AllocError>
    ensures reply { IfOk result (λ told. told ≡ reply_to machine.old request.Abort pick.now) }
    ensures machine { IfOk result (λ _. machine.new
        ≡ machine_after machine.old request.Abort pick.now) }
    ensures kept { OnErr result (machine.new ≡ machine.old) }
{
    let names = kept(alloc, machine.names.as_slice())?;
    machine.working = None;
    machine.notes = Items::make(alloc);
    machine.touched = 0;
    machine.names = names;
    machine.pages_used = pick.pages;
    machine.segs_used = pick.segs;
    Ok(Reply::Abort)
}

pub(crate) fn step_abort(
    alloc: Global,
    machine: &mut Machine,
    pick: &Pick,
) -> Result<Reply, AllocError>
    requires allowed { Allows machine.old request.Abort pick.now }
    ensures step { IfOk result (λ told. Step machine.old request.Abort pick.now told machine.new) }
    ensures kept { OnErr result (machine.new ≡ machine.old) }
{
    match no_txn(machine).or(None) {
        Some(why) => Ok(Reply::No(why)),
        None => abort(alloc, machine, pick),
    }
}

pub(crate) fn step_checkpoint(machine: &mut Machine, pick: &Pick) -> Reply
    ensures { Step machine.old request.Checkpoint pick.now result machine.new }
{
    match txn_open(machine).or(None) {
        Some(why) => Reply::No(why),
        None => Reply::Checkpoint,
    }
}

pub(crate) fn step_log(machine: &mut Machine, pick: &Pick) -> Reply
    ensures { Step machine.old request.Log pick.now result machine.new }
{
    Reply::Log {
        records: pick.records,
    }
}

pub(crate) fn step_space(machine: &mut Machine, pick: &Pick) -> Reply
    ensures { Step machine.old request.Space pick.now result machine.new }
{
    Reply::Space {
        pages: machine.pages_used,
        of_pages: machine.geometry.pages,
        segs: machine.segs_used,
        of_segs: machine.geometry.segs,
    }
}
