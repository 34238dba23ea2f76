//! The steps of `size`, `stat`, `digest`, `read` and `versions`, which change nothing.

ghost use Rattle.std.specs.Prelude.{◌≡◌, IfOk, OnErr};
ghost use Rattle.ex_base.specs.Bytes.{bytes_at};
ghost use Rattle.table_model.specs.Requests.{reference_of};
ghost use Rattle.table_model.specs.Requests as request;
ghost use Rattle.table_model.specs.Machines.{bytes_of};
ghost use Rattle.table_model.specs.Refusals.{refusal_of};
ghost use Rattle.table_model.specs.Steps.{Step};

use crate::refuse::{no_name, no_object, range, shown, size_named, the_key, version_named};
use ex_base::Items;
use sha2::{Digest, Sha256};
use std::alloc::{AllocError, Global};
use table_lists::{find_object, index_of, listed_oids, part};
use table_model::{Bytes, Machine, Pick, Refusal, Reply, Subject};

/// How many of a tree's leaves `stat` tells the lengths of.
const LEAVES_TOLD: u128 = 16;

/// The bytes that a command names; none where it names no version.
pub(crate) fn bytes_named(
    alloc: Global,
    machine: &Machine,
    x: &Subject,
) -> Result<Bytes, AllocError>
    ensures { IfOk result (λ bytes. bytes ≡ bytes_of machine.now (reference_of x.now)) }
{
    match version_named(machine, x) {
        Some(version) => Items::of_bytes(alloc, version.bytes.as_slice()),
        None => Ok(Items::make(alloc)),
    }
}

pub(crate) fn step_size(machine: &mut Machine, x: &Subject, pick: &Pick) -> Reply
    ensures { Step machine.old (request.Size (reference_of x.now)) pick.now result machine.new }
{
    match no_name(machine, x).or(no_object(machine, x).or(None)) {
        Some(why) => Reply::No(why),
        None => Reply::Size {
            size: size_named(machine, x),
        },
    }
}

pub(crate) fn step_stat(
    alloc: Global,
    machine: &mut Machine,
    x: &Subject,
    pick: &Pick,
) -> Result<Reply, AllocError>
    ensures step { IfOk result
        (λ told. Step machine.old (request.Stat (reference_of x.now)) pick.now told machine.new) }
    ensures kept { OnErr result (machine.new ≡ machine.old) }
{
    if let Some(why) = no_name(machine, x).or(no_object(machine, x).or(None)) {
        return Ok(Reply::No(why));
    }
    let size = size_named(machine, x);
    if pick.small {
        return Ok(Reply::StatSmall { size });
    }
    let leaves = pick.leaves.as_slice();
    let first = Vec::from_slice(alloc, &leaves[..index_of(LEAVES_TOLD, leaves.len())])?;
    Ok(Reply::StatLarge {
        size,
        height: pick.height,
        leaves: leaves.len() as u64,
        first: Items::of(first),
    })
}

pub(crate) fn step_digest(
    alloc: Global,
    machine: &mut Machine,
    x: &Subject,
    pick: &Pick,
) -> Result<Reply, AllocError>
    ensures step { IfOk result
        (λ told. Step machine.old (request.Digest (reference_of x.now)) pick.now told machine.new) }
    ensures kept { OnErr result (machine.new ≡ machine.old) }
{
    if let Some(why) = no_name(machine, x).or(no_object(machine, x).or(None)) {
        return Ok(Reply::No(why));
    }
    let bytes = bytes_named(alloc, machine, x)?;
    let hash = Sha256::digest(bytes.as_slice());
    Ok(Reply::Digest { hash })
}

fn refuse_read(machine: &Machine, x: &Subject, pos: u64, len: u32, pick: &Pick) -> Option<Refusal>
    ensures { result ≡ refusal_of machine.now (request.Read (reference_of x.now) pos len) pick.now }
{
    let end = u128::from(pos) + u128::from(len);
    no_name(machine, x).or(no_object(machine, x).or(range(machine, x, end).or(None)))
}

fn read(
    alloc: Global,
    machine: &Machine,
    x: &Subject,
    pos: u64,
    len: u32,
) -> Result<Reply, AllocError>
    ensures { IfOk result
        (λ told. told ≡ Reply.Read (bytes_at (bytes_of machine.now (reference_of x.now)) pos len)) }
{
    let bytes = match version_named(machine, x) {
        Some(version) => Items::of_bytes(alloc, part(version.bytes.as_slice(), pos, len))?,
        None => Items::of_bytes(alloc, part(&[], pos, len))?,
    };
    Ok(Reply::Read { bytes })
}

pub(crate) fn step_read(
    alloc: Global,
    machine: &mut Machine,
    x: &Subject,
    pos: u64,
    len: u32,
    pick: &Pick,
) -> Result<Reply, AllocError>
    ensures step { IfOk result
        (λ told. Step machine.old (request.Read
        (reference_of x.now) pos len) pick.now told machine.new) }
    ensures kept { OnErr result (machine.new ≡ machine.old) }
{
    match refuse_read(machine, x, pos, len, pick) {
        Some(why) => Ok(Reply::No(why)),
        None => read(alloc, machine, x, pos, len),
    }
}

pub(crate) fn step_versions(
    alloc: Global,
    machine: &mut Machine,
    x: &Subject,
    pick: &Pick,
) -> Result<Reply, AllocError>
    ensures step { IfOk result
        (λ told. Step machine.old (request.Versions
        (reference_of x.now)) pick.now told machine.new) }
    ensures kept { OnErr result (machine.new ≡ machine.old) }
{
    if let Some(why) = no_name(machine, x).or(no_object(machine, x).or(None)) {
        return Ok(Reply::No(why));
    }
    let found = match find_object(shown(machine), &the_key(machine, x)) {
        Some(object) => listed_oids(alloc, object)?,
        None => Vec::new(alloc),
    };
    Ok(Reply::Versions {
        oids: Items::of(found),
    })
}
