//! The steps of `insert`, `append`, `replace` and `delete`.

ghost use Rattle.std.specs.Prelude.{◌≡◌, ◌≤◌, ◌<◌, ◌+◌, ◌^◌, IfOk, OnErr};
ghost use Rattle.std.specs.Option.{option_or};
ghost use Rattle.table_model.specs.Words.{data_most};
ghost use Rattle.table_model.specs.Requests.{given_count, given_of, reference_of};
ghost use Rattle.table_model.specs.Requests as request;
ghost use Rattle.table_model.specs.Machines.{IsMachine, size_of};
ghost use Rattle.table_model.specs.Refusals.{refusal_of, no_txn, no_name, no_object, frozen};
ghost use Rattle.table_model.specs.Steps.{Step, Allows, reply_to, machine_after};

use crate::need::{EDIT_CHARGE, edit_need};
use crate::refuse::{
    frozen, limits, no_name, no_object, no_txn, range, shown, size_named, the_key, the_oid,
    too_large,
};
use crate::update::{note, update};
use data_words::GivenBytes;
use ex_base::{Area, NoteKind, delete_need, growth_need, replace_need};
use std::alloc::{AllocError, Global};
use table_lists::{Edit, given_count, with_bytes};
use table_model::{Given, Machine, Pick, Refusal, Reply, Subject};

/// The refusals that the edits have in common, before one's own.
fn edit_refusal(machine: &Machine, x: &Subject, own: Option<Refusal>) -> Option<Refusal>
    ensures { result ≡ option_or (no_txn machine.now)
        (option_or (no_name machine.now (reference_of x.now))
        (option_or (no_object machine.now (reference_of x.now))
        (option_or (frozen machine.now (reference_of x.now)) own))) }
{
    let live = no_object(machine, x).or(frozen(machine, x).or(own));
    no_txn(machine).or(no_name(machine, x).or(live))
}

fn refuse_insert(
    alloc: Global,
    machine: &Machine,
    x: &Subject,
    pos: u64,
    given: &Given,
    pick: &Pick,
) -> Result<Option<Refusal>, AllocError>
    requires machine { IsMachine machine.now }
    requires form { given_count (given_of given.now) ≤ data_most }
    ensures { IfOk result
        (λ found. found ≡ refusal_of machine.now
        (request.Insert (reference_of x.now) pos (given_of given.now)) pick.now) }
{
    let n = given_count(alloc, given)?;
    let pages = growth_need(&machine.geometry, n, pick.height, Area::Page);
    let segs = growth_need(&machine.geometry, n, pick.height, Area::Segment);
    let room = limits(
        machine,
        EDIT_CHARGE,
        edit_need(n, pick, pages),
        edit_need(n, pick, segs),
    );
    let own = range(machine, x, u128::from(pos)).or(too_large(machine, x, n).or(room));
    Ok(edit_refusal(machine, x, own))
}

fn insert(
    alloc: Global,
    machine: &mut Machine,
    x: &Subject,
    pos: u64,
    given: &Given,
    pick: &Pick,
) -> Result<Reply, AllocError>
    requires form { given_count (given_of given.now) ≤ data_most }
    requires room { size_of machine.old (reference_of x.now) + given_count (given_of given.now) < 2 ^ 64 }
    ensures reply { IfOk result (λ told. told
        ≡ reply_to machine.old (request.Insert (reference_of x.now) pos (given_of given.now)) pick.now) }
    ensures machine { IfOk result (λ _. machine.new
        ≡ machine_after machine.old (request.Insert (reference_of x.now) pos (given_of given.now)) pick.now) }
    ensures kept { OnErr result (machine.new ≡ machine.old) }
{
    let held = GivenBytes::of(alloc, *given)?;
    let more = held.as_slice();
    let count = more.len() as u64;
    let key = the_key(machine, x);
    let oid = the_oid(machine, x);
    let before = size_named(machine, x);
    let edit = Edit::Insert { pos, bytes: more };
    let table = with_bytes(alloc, shown(machine), &key, &edit)?;
    update(
        machine,
        table,
        note(NoteKind::Inserted, oid, pos, count),
        pick,
    )?;
    Ok(Reply::Insert {
        size: before + count,
    })
}

pub(crate) fn step_insert(
    alloc: Global,
    machine: &mut Machine,
    x: &Subject,
    pos: u64,
    given: &Given,
    pick: &Pick,
) -> Result<Reply, AllocError>
    requires machine { IsMachine machine.old }
    requires form { given_count (given_of given.now) ≤ data_most }
    requires allowed { Allows machine.old
        (request.Insert (reference_of x.now) pos (given_of given.now)) pick.now }
    ensures step { IfOk result
        (λ told. Step machine.old (request.Insert
        (reference_of x.now) pos (given_of given.now)) pick.now told machine.new) }
    ensures kept { OnErr result (machine.new ≡ machine.old) }
{
    match refuse_insert(alloc, machine, x, pos, given, pick)? {
        Some(why) => Ok(Reply::No(why)),
        None => insert(alloc, machine, x, pos, given, pick),
    }
}

fn refuse_append(
    alloc: Global,
    machine: &Machine,
    x: &Subject,
    given: &Given,
    pick: &Pick,
) -> Result<Option<Refusal>, AllocError>
    requires machine { IsMachine machine.now }
    requires form { given_count (given_of given.now) ≤ data_most }
    ensures { IfOk result
        (λ found. found ≡ refusal_of machine.now
        (request.Append (reference_of x.now) (given_of given.now)) pick.now) }
{
    let n = given_count(alloc, given)?;
    let pages = growth_need(&machine.geometry, n, pick.height, Area::Page);
    let segs = growth_need(&machine.geometry, n, pick.height, Area::Segment);
    let room = limits(
        machine,
        EDIT_CHARGE,
        edit_need(n, pick, pages),
        edit_need(n, pick, segs),
    );
    let own = too_large(machine, x, n).or(room);
    Ok(edit_refusal(machine, x, own))
}

fn append(
    alloc: Global,
    machine: &mut Machine,
    x: &Subject,
    given: &Given,
    pick: &Pick,
) -> Result<Reply, AllocError>
    requires form { given_count (given_of given.now) ≤ data_most }
    requires room { size_of machine.old (reference_of x.now) + given_count (given_of given.now) < 2 ^ 64 }
    ensures reply { IfOk result (λ told. told
        ≡ reply_to machine.old (request.Append (reference_of x.now) (given_of given.now)) pick.now) }
    ensures machine { IfOk result (λ _. machine.new
        ≡ machine_after machine.old (request.Append (reference_of x.now) (given_of given.now)) pick.now) }
    ensures kept { OnErr result (machine.new ≡ machine.old) }
{
    let held = GivenBytes::of(alloc, *given)?;
    let more = held.as_slice();
    let count = more.len() as u64;
    let key = the_key(machine, x);
    let oid = the_oid(machine, x);
    let before = size_named(machine, x);
    let edit = Edit::Append { bytes: more };
    let table = with_bytes(alloc, shown(machine), &key, &edit)?;
    update(
        machine,
        table,
        note(NoteKind::Appended, oid, before, count),
        pick,
    )?;
    Ok(Reply::Append {
        size: before + count,
    })
}

pub(crate) fn step_append(
    alloc: Global,
    machine: &mut Machine,
    x: &Subject,
    given: &Given,
    pick: &Pick,
) -> Result<Reply, AllocError>
    requires machine { IsMachine machine.old }
    requires form { given_count (given_of given.now) ≤ data_most }
    requires allowed { Allows machine.old (request.Append (reference_of x.now) (given_of given.now)) pick.now }
    ensures step { IfOk result
        (λ told. Step machine.old (request.Append
        (reference_of x.now) (given_of given.now)) pick.now told machine.new) }
    ensures kept { OnErr result (machine.new ≡ machine.old) }
{
    match refuse_append(alloc, machine, x, given, pick)? {
        Some(why) => Ok(Reply::No(why)),
        None => append(alloc, machine, x, given, pick),
    }
}

fn refuse_replace(
    alloc: Global,
    machine: &Machine,
    x: &Subject,
    pos: u64,
    given: &Given,
    pick: &Pick,
) -> Result<Option<Refusal>, AllocError>
    requires machine { IsMachine machine.now }
    requires form { given_count (given_of given.now) ≤ data_most }
    ensures { IfOk result
        (λ found. found ≡ refusal_of machine.now
        (request.Replace (reference_of x.now) pos (given_of given.now)) pick.now) }
{
    let n = given_count(alloc, given)?;
    let pages = replace_need(&machine.geometry, n, pick.height, Area::Page);
    let segs = replace_need(&machine.geometry, n, pick.height, Area::Segment);
    let room = limits(
        machine,
        EDIT_CHARGE,
        edit_need(n, pick, pages),
        edit_need(n, pick, segs),
    );
    let end = u128::from(pos) + u128::from(n);
    let own = range(machine, x, end).or(room);
    Ok(edit_refusal(machine, x, own))
}

fn replace(
    alloc: Global,
    machine: &mut Machine,
    x: &Subject,
    pos: u64,
    given: &Given,
    pick: &Pick,
) -> Result<Reply, AllocError>
    requires form { given_count (given_of given.now) ≤ data_most }
    ensures reply { IfOk result (λ told. told
        ≡ reply_to machine.old (request.Replace (reference_of x.now) pos (given_of given.now)) pick.now) }
    ensures machine { IfOk result (λ _. machine.new
        ≡ machine_after machine.old (request.Replace (reference_of x.now) pos (given_of given.now)) pick.now) }
    ensures kept { OnErr result (machine.new ≡ machine.old) }
{
    let held = GivenBytes::of(alloc, *given)?;
    let more = held.as_slice();
    let count = more.len() as u64;
    let key = the_key(machine, x);
    let oid = the_oid(machine, x);
    let before = size_named(machine, x);
    let edit = Edit::Replace { pos, bytes: more };
    let table = with_bytes(alloc, shown(machine), &key, &edit)?;
    update(
        machine,
        table,
        note(NoteKind::Replaced, oid, pos, count),
        pick,
    )?;
    Ok(Reply::Replace { size: before })
}

pub(crate) fn step_replace(
    alloc: Global,
    machine: &mut Machine,
    x: &Subject,
    pos: u64,
    given: &Given,
    pick: &Pick,
) -> Result<Reply, AllocError>
    requires machine { IsMachine machine.old }
    requires form { given_count (given_of given.now) ≤ data_most }
    requires allowed { Allows machine.old
        (request.Replace (reference_of x.now) pos (given_of given.now)) pick.now }
    ensures step { IfOk result
        (λ told. Step machine.old (request.Replace
        (reference_of x.now) pos (given_of given.now)) pick.now told machine.new) }
    ensures kept { OnErr result (machine.new ≡ machine.old) }
{
    match refuse_replace(alloc, machine, x, pos, given, pick)? {
        Some(why) => Ok(Reply::No(why)),
        None => replace(alloc, machine, x, pos, given, pick),
    }
}

fn refuse_delete(machine: &Machine, x: &Subject, pos: u64, len: u64, pick: &Pick) -> Option<Refusal>
    requires { IsMachine machine.now }
    ensures { result ≡ refusal_of machine.now
        (request.Delete (reference_of x.now) pos len) pick.now }
{
    let pages = edit_need(len, pick, delete_need(pick.height, Area::Page));
    let segs = edit_need(len, pick, delete_need(pick.height, Area::Segment));
    let end = u128::from(pos) + u128::from(len);
    let own = range(machine, x, end).or(limits(machine, EDIT_CHARGE, pages, segs));
    edit_refusal(machine, x, own)
}

fn delete(
    alloc: Global,
    machine: &mut Machine,
    x: &Subject,
    pos: u64,
    len: u64,
    pick: &Pick,
) -> Result<Reply, AllocError>
    ensures reply { IfOk result (λ told. told
        ≡ reply_to machine.old (request.Delete (reference_of x.now) pos len) pick.now) }
    ensures machine { IfOk result (λ _. machine.new
        ≡ machine_after machine.old (request.Delete (reference_of x.now) pos len) pick.now) }
    ensures kept { OnErr result (machine.new ≡ machine.old) }
{
    let key = the_key(machine, x);
    let oid = the_oid(machine, x);
    let before = size_named(machine, x);
    let table = with_bytes(alloc, shown(machine), &key, &Edit::Delete { pos, len })?;
    update(machine, table, note(NoteKind::Deleted, oid, pos, len), pick)?;
    Ok(Reply::Delete {
        size: before.saturating_sub(len),
    })
}

pub(crate) fn step_delete(
    alloc: Global,
    machine: &mut Machine,
    x: &Subject,
    pos: u64,
    len: u64,
    pick: &Pick,
) -> Result<Reply, AllocError>
    requires machine { IsMachine machine.old }
    requires allowed { Allows machine.old (request.Delete (reference_of x.now) pos len) pick.now }
    ensures step { IfOk result
        (λ told. Step machine.old (request.Delete
        (reference_of x.now) pos len) pick.now told machine.new) }
    ensures kept { OnErr result (machine.new ≡ machine.old) }
{
    match refuse_delete(machine, x, pos, len, pick) {
        Some(why) => Ok(Reply::No(why)),
        None => delete(alloc, machine, x, pos, len, pick),
    }
}
