//! The reply to a line, by the slow reference.

ghost use Rattle.table_model.specs.Machines.{IsMachine};

use crate::decided::{number_of, pick_of};
use crate::form::read;
use ex_base::Geometry;
use script_replies::push_reply;
use std::alloc::{AllocError, Global};
use table_model::{Machine, Pick, Reply};
use table_picks::{empty_volume, step_decided};

/// What stands in place of a reply where a volume may not decide so.
const NOT_ALLOWED: &[u8] = b"not allowed\n";

/// The text of a reply.
fn text_of(alloc: Global, reply: &Reply) -> Result<Vec<u8>, AllocError> {
    let mut out = Vec::new(alloc);
    push_reply(&mut out, reply)?;
    Ok(out)
}

/// The reply to a line of a script, none where it says nothing.
fn reply_to(
    alloc: Global,
    machine: &mut Machine,
    line: &[u8],
    pick: &Pick,
) -> Result<Vec<u8>, AllocError>
    requires { IsMachine machine.old }
    ensures { IsMachine machine.new }
{
    let command = match read(line) {
        Ok(None) => return Ok(Vec::new(alloc)),
        Err(why) => return text_of(alloc, &Reply::No(why)),
        Ok(Some(command)) => command,
    };
    match step_decided(alloc, machine, &command, pick)? {
        Some(reply) => text_of(alloc, &reply),
        None => Vec::from_slice(alloc, NOT_ALLOWED),
    }
}

/// Begins anew with an empty volume of these sizes, where there is one.
fn renew(alloc: Global, machine: &mut Machine, pages: u32, segs: u32)
    requires { IsMachine machine.old }
    ensures { IsMachine machine.new }
{
    let Ok(geometry) = Geometry::make(512, pages, segs, 1, 2) else {
        return;
    };
    *machine = empty_volume(alloc, geometry);
}

/// The two numbers of a line `volume PAGES SEGS`.
fn sizes_of(line: &[u8]) -> Option<(u32, u32)> {
    let sizes = line.strip_prefix(b"volume ")?;
    let mut numbers = sizes.split(|byte| *byte == b' ');
    let pages = numbers.next()?;
    let segs = numbers.next()?;
    Some((number_of(pages), number_of(segs)))
}

/// What stands before the bar, and what stands behind it.
fn halves(line: &[u8]) -> (&[u8], &[u8]) {
    let mut parts = line.splitn(2, |byte| *byte == b'|');
    let first = parts.next().unwrap_or(&[]);
    let second = parts.next().unwrap_or(&[]);
    (first, second)
}

/// What is answered to a line of the input.
pub(crate) fn answer(
    alloc: Global,
    machine: &mut Machine,
    line: &[u8],
) -> Result<Vec<u8>, AllocError>
    requires { IsMachine machine.old }
    ensures { IsMachine machine.new }
{
    if let Some((pages, segs)) = sizes_of(line) {
        renew(alloc, machine, pages, segs);
        return Ok(Vec::new(alloc));
    }
    let (decided, said) = halves(line);
    let pick = pick_of(alloc, decided)?;
    reply_to(alloc, machine, said, &pick)
}
