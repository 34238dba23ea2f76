//! The steps of `file`, `unfile`, `files` and `list`.

ghost use Rattle.std.specs.Prelude.{◌≡◌, ◌≤◌, length, IfOk, OnErr};
ghost use Rattle.table_model.specs.Requests as request;
ghost use Rattle.table_model.specs.Machines.{IsMachine, shown, updates_most};
ghost use Rattle.table_model.specs.Refusals.{refusal_of};
ghost use Rattle.table_model.specs.Steps.{Step, Allows, reply_to, machine_after};

use crate::need::{FILE_CHARGE, FILE_PAGES};
use crate::refuse::{file_exists, files_full, limits, no_file, no_txn, not_empty, shown};
use crate::update::{note, update};
use ex_base::{Items, NoteKind, Oid};
use std::alloc::{AllocError, Global};
use table_lists::{current_oids, file_names, find_file, with_file, without_file};
use table_model::{Machine, Pick, Refusal, Reply};

fn refuse_file(machine: &Machine, name: &[u8], pick: &Pick) -> Option<Refusal>
    requires { length machine.now.notes ≤ updates_most }
    ensures { result ≡ refusal_of machine.now (request.File name.now) pick.now }
{
    let room = limits(machine, FILE_CHARGE, FILE_PAGES, 0);
    no_txn(machine).or(file_exists(machine, name).or(files_full(machine).or(room)))
}

fn file(alloc: Global, machine: &mut Machine, name: &[u8], pick: &Pick) -> Result<Reply, AllocError>
    ensures reply { IfOk result (λ told. told
        ≡ reply_to machine.old (request.File name.now) pick.now) }
    ensures machine { IfOk result (λ _. machine.new
        ≡ machine_after machine.old (request.File name.now) pick.now) }
    ensures kept { OnErr result (machine.new ≡ machine.old) }
{
    let table = with_file(alloc, shown(machine), name)?;
    let name = Items::of_bytes(alloc, name)?;
    update(
        machine,
        table,
        note(NoteKind::FileMade, Oid::NONE, 0, 0),
        pick,
    )?;
    Ok(Reply::File { name })
}

pub(crate) fn step_file(
    alloc: Global,
    machine: &mut Machine,
    name: &[u8],
    pick: &Pick,
) -> Result<Reply, AllocError>
    requires machine { IsMachine machine.old }
    requires allowed { Allows machine.old (request.File name.now) pick.now }
    ensures step { IfOk result
        (λ told. Step machine.old (request.File name.now) pick.now told machine.new) }
    ensures kept { OnErr result (machine.new ≡ machine.old) }
{
    match refuse_file(machine, name, pick) {
        Some(why) => Ok(Reply::No(why)),
        None => file(alloc, machine, name, pick),
    }
}

pub(crate) fn step_unfile(
    alloc: Global,
    machine: &mut Machine,
    name: &[u8],
    pick: &Pick,
) -> Result<Reply, AllocError>
    requires machine { IsMachine machine.old }
    requires allowed { Allows machine.old (request.Unfile name.now) pick.now }
    ensures step { IfOk result
        (λ told. Step machine.old (request.Unfile name.now) pick.now told machine.new) }
    ensures kept { OnErr result (machine.new ≡ machine.old) }
{
    let room = limits(machine, FILE_CHARGE, 0, 0);
    let own = no_file(machine, name).or(not_empty(machine, name).or(room));
    if let Some(why) = no_txn(machine).or(own) {
        return Ok(Reply::No(why));
    }
    let table = without_file(alloc, shown(machine), name)?;
    let name = Items::of_bytes(alloc, name)?;
    update(
        machine,
        table,
        note(NoteKind::FileRemoved, Oid::NONE, 0, 0),
        pick,
    )?;
    Ok(Reply::Unfile { name })
}

pub(crate) fn step_files(
    alloc: Global,
    machine: &mut Machine,
    pick: &Pick,
) -> Result<Reply, AllocError>
    ensures step { IfOk result (λ told. Step machine.old request.Files pick.now told machine.new) }
    ensures kept { OnErr result (machine.new ≡ machine.old) }
{
    let names = file_names(alloc, shown(machine).files.as_slice())?;
    Ok(Reply::Files {
        names: Items::of(names),
    })
}

pub(crate) fn step_list(
    alloc: Global,
    machine: &mut Machine,
    name: &[u8],
    pick: &Pick,
) -> Result<Reply, AllocError>
    ensures step { IfOk result
        (λ told. Step machine.old (request.ListFile name.now) pick.now told machine.new) }
    ensures kept { OnErr result (machine.new ≡ machine.old) }
{
    if let Some(why) = no_file(machine, name).or(None) {
        return Ok(Reply::No(why));
    }
    let found = match find_file(shown(machine), name) {
        Some(file) => current_oids(alloc, file)?,
        None => Vec::new(alloc),
    };
    Ok(Reply::List {
        oids: Items::of(found),
    })
}
