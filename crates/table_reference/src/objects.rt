//! The steps of `create`, `destroy`, `freeze`, `derive` and `drop`.

ghost use Rattle.std.specs.Prelude.{◌≡◌, ◌≤◌, ◌<◌, ◌-◌, ◌^◌, length, option_map, IfOk, OnErr};
ghost use Rattle.std.specs.Option.{option_or};
ghost use Rattle.table_model.specs.Requests.{reference_of};
ghost use Rattle.table_model.specs.Requests as request;
ghost use Rattle.table_model.specs.Machines.{IsMachine, shown, updates_most};
ghost use Rattle.table_model.specs.Refusals.{refusal_of, no_txn, no_name, name_taken_if, no_object};
ghost use Rattle.table_model.specs.Steps.{Step, Allows, reply_to, machine_after, new_oid};

use crate::need::{RECORD_CHARGE, RECORD_PAGES};
use crate::refuse::{
    branches, current, frozen, full, has_versions, ids_spent, limits, long_txn, name_taken_if,
    no_file, no_name, no_object, no_txn, shown, the_key, the_oid,
};
use crate::update::{note, update};
use ex_base::{NoteKind, Oid};
use std::alloc::{AllocError, Global};
use table_lists::{with_bound, with_derived, with_frozen, with_object, without_version};
use table_model::{Machine, Pick, Refusal, Reply, Subject};

/// The identifier of the version that the update makes.
fn new_oid(machine: &Machine, pick: &Pick) -> Oid
    ensures { result ≡ new_oid machine.now pick.now }
{
    Oid {
        page: pick.place.page,
        slot: pick.place.slot,
        unique: shown(machine).next_unique,
    }
}

fn refuse_create(
    machine: &Machine,
    file: &[u8],
    bind: Option<&[u8]>,
    pick: &Pick,
) -> Option<Refusal>
    requires { length machine.now.notes ≤ updates_most }
    ensures { result ≡ refusal_of machine.now (request.Create file.now
        (option_map (λ name. name.now) bind.entry)) pick.now }
{
    let room = limits(machine, RECORD_CHARGE, RECORD_PAGES, 0);
    let spent = ids_spent(shown(machine).next_unique).or(room);
    no_txn(machine).or(name_taken_if(machine, bind).or(no_file(machine, file).or(spent)))
}

fn create(
    alloc: Global,
    machine: &mut Machine,
    file: &[u8],
    bind: Option<&[u8]>,
    pick: &Pick,
) -> Result<Reply, AllocError>
    requires { (shown machine.old).next_unique < 2 ^ 64 - 1 }
    ensures reply { IfOk result (λ told. told
        ≡ reply_to machine.old (request.Create file.now
        (option_map (λ name. name.now) bind.entry)) pick.now) }
    ensures machine { IfOk result (λ _. machine.new
        ≡ machine_after machine.old (request.Create file.now
        (option_map (λ name. name.now) bind.entry)) pick.now) }
    ensures kept { OnErr result (machine.new ≡ machine.old) }
{
    let oid = new_oid(machine, pick);
    let table = with_object(alloc, shown(machine), &oid, file)?;
    let names = with_bound(alloc, machine.names.as_slice(), bind, oid)?;
    update(machine, table, note(NoteKind::ObjectMade, oid, 0, 0), pick)?;
    machine.names = names;
    Ok(Reply::Create { oid })
}

pub(crate) fn step_create(
    alloc: Global,
    machine: &mut Machine,
    name: &[u8],
    bind: Option<&[u8]>,
    pick: &Pick,
) -> Result<Reply, AllocError>
    requires machine { IsMachine machine.old }
    requires allowed { Allows machine.old (request.Create name.now
        (option_map (λ name. name.now) bind)) pick.now }
    ensures step { IfOk result
        (λ told. Step machine.old (request.Create name.now
        (option_map (λ name. name.now) bind.entry)) pick.now told machine.new) }
    ensures kept { OnErr result (machine.new ≡ machine.old) }
{
    match refuse_create(machine, name, bind, pick) {
        Some(why) => Ok(Reply::No(why)),
        None => create(alloc, machine, name, bind, pick),
    }
}

pub(crate) fn step_destroy(
    alloc: Global,
    machine: &mut Machine,
    x: &Subject,
    pick: &Pick,
) -> Result<Reply, AllocError>
    requires machine { IsMachine machine.old }
    requires allowed { Allows machine.old (request.Destroy (reference_of x.now)) pick.now }
    ensures step { IfOk result
        (λ told. Step machine.old (request.Destroy
        (reference_of x.now)) pick.now told machine.new) }
    ensures kept { OnErr result (machine.new ≡ machine.old) }
{
    let room = limits(machine, RECORD_CHARGE, 0, 0);
    let own = frozen(machine, x).or(has_versions(alloc, machine, x)?.or(room));
    let named = no_name(machine, x).or(no_object(machine, x).or(own));
    if let Some(why) = no_txn(machine).or(named) {
        return Ok(Reply::No(why));
    }
    let oid = the_oid(machine, x);
    let table = without_version(alloc, shown(machine), &the_key(machine, x))?;
    update(
        machine,
        table,
        note(NoteKind::ObjectRemoved, oid, 0, 0),
        pick,
    )?;
    Ok(Reply::Destroy { oid })
}

/// The refusals that `freeze` and `derive` have in common, before one's own.
fn copy_refusal(
    machine: &Machine,
    x: &Subject,
    bind: Option<&[u8]>,
    own: Option<Refusal>,
) -> Option<Refusal>
    ensures { result ≡ option_or (no_txn machine.now)
        (option_or (no_name machine.now (reference_of x.now))
        (option_or (name_taken_if machine.now (option_map (λ name. name.now) bind.entry))
        (option_or (no_object machine.now (reference_of x.now)) own))) }
{
    let live = name_taken_if(machine, bind).or(no_object(machine, x).or(own));
    no_txn(machine).or(no_name(machine, x).or(live))
}

fn refuse_freeze(
    machine: &Machine,
    x: &Subject,
    bind: Option<&[u8]>,
    pick: &Pick,
) -> Option<Refusal>
    requires { IsMachine machine.now }
    ensures { result ≡ refusal_of machine.now
        (request.Freeze (reference_of x.now) (option_map (λ name. name.now) bind.entry)) pick.now }
{
    let room = limits(machine, RECORD_CHARGE, RECORD_PAGES, 0);
    let spent = ids_spent(shown(machine).next_unique).or(room);
    copy_refusal(machine, x, bind, frozen(machine, x).or(spent))
}

fn freeze(
    alloc: Global,
    machine: &mut Machine,
    x: &Subject,
    bind: Option<&[u8]>,
    pick: &Pick,
) -> Result<Reply, AllocError>
    requires { (shown machine.old).next_unique < 2 ^ 64 - 1 }
    ensures reply { IfOk result (λ told. told
        ≡ reply_to machine.old (request.Freeze (reference_of x.now)
        (option_map (λ name. name.now) bind.entry)) pick.now) }
    ensures machine { IfOk result (λ _. machine.new
        ≡ machine_after machine.old (request.Freeze (reference_of x.now)
        (option_map (λ name. name.now) bind.entry)) pick.now) }
    ensures kept { OnErr result (machine.new ≡ machine.old) }
{
    let oid = new_oid(machine, pick);
    let key = the_key(machine, x);
    let table = with_frozen(alloc, shown(machine), &key, &oid)?;
    let bound = with_bound(alloc, machine.names.as_slice(), bind, oid)?;
    update(machine, table, note(NoteKind::Frozen, oid, 0, 0), pick)?;
    machine.names = bound;
    Ok(Reply::Freeze { oid })
}

pub(crate) fn step_freeze(
    alloc: Global,
    machine: &mut Machine,
    x: &Subject,
    bind: Option<&[u8]>,
    pick: &Pick,
) -> Result<Reply, AllocError>
    requires machine { IsMachine machine.old }
    requires allowed { Allows machine.old (request.Freeze (reference_of x.now)
        (option_map (λ name. name.now) bind)) pick.now }
    ensures step { IfOk result
        (λ told. Step machine.old (request.Freeze
        (reference_of x.now)
        (option_map (λ name. name.now) bind.entry)) pick.now told machine.new) }
    ensures kept { OnErr result (machine.new ≡ machine.old) }
{
    match refuse_freeze(machine, x, bind, pick) {
        Some(why) => Ok(Reply::No(why)),
        None => freeze(alloc, machine, x, bind, pick),
    }
}

fn refuse_derive(
    machine: &Machine,
    x: &Subject,
    bind: Option<&[u8]>,
    pick: &Pick,
) -> Option<Refusal>
    requires { IsMachine machine.now }
    ensures { result ≡ refusal_of machine.now
        (request.Derive (reference_of x.now) (option_map (λ name. name.now) bind.entry)) pick.now }
{
    let room = limits(machine, RECORD_CHARGE, RECORD_PAGES, 0);
    let spent = ids_spent(shown(machine).next_unique).or(room);
    copy_refusal(machine, x, bind, current(machine, x).or(spent))
}

fn derive(
    alloc: Global,
    machine: &mut Machine,
    x: &Subject,
    bind: Option<&[u8]>,
    pick: &Pick,
) -> Result<Reply, AllocError>
    requires { (shown machine.old).next_unique < 2 ^ 64 - 1 }
    ensures reply { IfOk result (λ told. told
        ≡ reply_to machine.old (request.Derive (reference_of x.now)
        (option_map (λ name. name.now) bind.entry)) pick.now) }
    ensures machine { IfOk result (λ _. machine.new
        ≡ machine_after machine.old (request.Derive (reference_of x.now)
        (option_map (λ name. name.now) bind.entry)) pick.now) }
    ensures kept { OnErr result (machine.new ≡ machine.old) }
{
    let oid = new_oid(machine, pick);
    let key = the_key(machine, x);
    let table = with_derived(alloc, shown(machine), &key, &oid)?;
    let bound = with_bound(alloc, machine.names.as_slice(), bind, oid)?;
    update(machine, table, note(NoteKind::Derived, oid, 0, 0), pick)?;
    machine.names = bound;
    Ok(Reply::Derive { oid })
}

pub(crate) fn step_derive(
    alloc: Global,
    machine: &mut Machine,
    x: &Subject,
    bind: Option<&[u8]>,
    pick: &Pick,
) -> Result<Reply, AllocError>
    requires machine { IsMachine machine.old }
    requires allowed { Allows machine.old (request.Derive (reference_of x.now)
        (option_map (λ name. name.now) bind)) pick.now }
    ensures step { IfOk result
        (λ told. Step machine.old (request.Derive
        (reference_of x.now)
        (option_map (λ name. name.now) bind.entry)) pick.now told machine.new) }
    ensures kept { OnErr result (machine.new ≡ machine.old) }
{
    match refuse_derive(machine, x, bind, pick) {
        Some(why) => Ok(Reply::No(why)),
        None => derive(alloc, machine, x, bind, pick),
    }
}

fn refuse_drop_version(
    alloc: Global,
    machine: &Machine,
    x: &Subject,
    pick: &Pick,
) -> Result<Option<Refusal>, AllocError>
    requires { IsMachine machine.now }
    ensures { IfOk result (λ found. found
        ≡ refusal_of machine.now (request.DropVersion (reference_of x.now)) pick.now) }
{
    let last = full(machine, 0, 0).or(branches(alloc, machine, x)?.or(None));
    let own = current(machine, x).or(long_txn(machine, RECORD_CHARGE).or(last));
    let named = no_name(machine, x).or(no_object(machine, x).or(own));
    Ok(no_txn(machine).or(named))
}

fn drop_version(
    alloc: Global,
    machine: &mut Machine,
    x: &Subject,
    pick: &Pick,
) -> Result<Reply, AllocError>
    ensures reply { IfOk result (λ told. told
        ≡ reply_to machine.old (request.DropVersion (reference_of x.now)) pick.now) }
    ensures machine { IfOk result (λ _. machine.new
        ≡ machine_after machine.old (request.DropVersion (reference_of x.now)) pick.now) }
    ensures kept { OnErr result (machine.new ≡ machine.old) }
{
    let key = the_key(machine, x);
    let oid = the_oid(machine, x);
    let table = without_version(alloc, shown(machine), &key)?;
    update(machine, table, note(NoteKind::Dropped, oid, 0, 0), pick)?;
    Ok(Reply::DropVersion { oid })
}

pub(crate) fn step_drop_version(
    alloc: Global,
    machine: &mut Machine,
    x: &Subject,
    pick: &Pick,
) -> Result<Reply, AllocError>
    requires machine { IsMachine machine.old }
    requires allowed { Allows machine.old (request.DropVersion (reference_of x.now)) pick.now }
    ensures step { IfOk result
        (λ told. Step machine.old (request.DropVersion
        (reference_of x.now)) pick.now told machine.new) }
    ensures kept { OnErr result (machine.new ≡ machine.old) }
{
    match refuse_drop_version(alloc, machine, x, pick)? {
        Some(why) => Ok(Reply::No(why)),
        None => drop_version(alloc, machine, x, pick),
    }
}
