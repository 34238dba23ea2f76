//! One step, by the command.

ghost use Rattle.std.specs.Prelude.{◌≡◌, IfOk, OnErr, IsTrue};
ghost use Rattle.table_model.specs.Requests.{request_of, is_request};
ghost use Rattle.table_model.specs.Machines.{IsMachine};
ghost use Rattle.table_model.specs.Steps.{Step, Allows};

use crate::contents::{step_digest, step_read, step_size, step_stat, step_versions};
use crate::edits::{step_append, step_delete, step_insert, step_replace};
use crate::files::{step_file, step_files, step_list, step_unfile};
use crate::objects::{step_create, step_derive, step_destroy, step_drop_version, step_freeze};
use crate::scans::{step_close, step_group, step_next, step_scan};
use crate::session::{step_abort, step_begin, step_checkpoint, step_commit, step_log, step_space};
use std::alloc::{AllocError, Global};
use table_model::{Command, Machine, Pick, Reply};

/// The step of the command.
fn step_of(
    alloc: Global,
    machine: &mut Machine,
    command: &Command,
    pick: &Pick,
) -> Result<Reply, AllocError>
    requires form { IsTrue (is_request (request_of command.now)) }
    requires machine { IsMachine machine.old }
    requires allowed { Allows machine.old (request_of command.now) pick.now }
    ensures step { IfOk result
        (λ told. Step machine.old (request_of command.now) pick.now told machine.new) }
    ensures kept { OnErr result (machine.new ≡ machine.old) }
{
    match command {
        Command::Begin => step_begin(alloc, machine, pick),
        Command::Commit => step_commit(alloc, machine, pick),
        Command::Abort => step_abort(alloc, machine, pick),
        Command::Checkpoint => Ok(step_checkpoint(machine, pick)),
        Command::Log => Ok(step_log(machine, pick)),
        Command::Files => step_files(alloc, machine, pick),
        Command::Space => Ok(step_space(machine, pick)),
        Command::File { name } => step_file(alloc, machine, name, pick),
        Command::Unfile { name } => step_unfile(alloc, machine, name, pick),
        Command::List { name } => step_list(alloc, machine, name, pick),
        Command::Create { file, bind } => step_create(alloc, machine, file, *bind, pick),
        Command::Destroy { x } => step_destroy(alloc, machine, x, pick),
        Command::Size { x } => Ok(step_size(machine, x, pick)),
        Command::Stat { x } => step_stat(alloc, machine, x, pick),
        Command::Digest { x } => step_digest(alloc, machine, x, pick),
        Command::Versions { x } => step_versions(alloc, machine, x, pick),
        Command::DropVersion { x } => step_drop_version(alloc, machine, x, pick),
        Command::Read { x, pos, len } => step_read(alloc, machine, x, *pos, *len, pick),
        Command::Insert { x, pos, given } => step_insert(alloc, machine, x, *pos, given, pick),
        Command::Append { x, given } => step_append(alloc, machine, x, given, pick),
        Command::Replace { x, pos, given } => step_replace(alloc, machine, x, *pos, given, pick),
        Command::Delete { x, pos, len } => step_delete(alloc, machine, x, *pos, *len, pick),
        Command::Freeze { x, bind } => step_freeze(alloc, machine, x, *bind, pick),
        Command::Derive { x, bind } => step_derive(alloc, machine, x, *bind, pick),
        Command::Group { name, frames, mru } => {
            step_group(alloc, machine, name, *frames, *mru, pick)
        }
        Command::Scan { x, name, group } => step_scan(alloc, machine, x, name, group, pick),
        Command::Next { name, len } => step_next(alloc, machine, name, *len, pick),
        Command::Close { name } => step_close(alloc, machine, name, pick),
    }
}

/// One step of the machine on a command, with what the volume decides. The reply and the machine after it are those that the definition of a step gives,
/// and that machine keeps the rules again. Where there is no memory, the machine is as it was.
pub fn step_plain(
    alloc: Global,
    machine: &mut Machine,
    command: &Command,
    pick: &Pick,
) -> Result<Reply, AllocError>
    requires form { IsTrue (is_request (request_of command.now)) }
    requires machine { IsMachine machine.old }
    requires allowed { Allows machine.old (request_of command.now) pick.now }
    ensures step { IfOk result
        (λ told. Step machine.old (request_of command.now) pick.now told machine.new) }
    ensures rules { IfOk result (λ _. IsMachine machine.new) }
    ensures kept { OnErr result (machine.new ≡ machine.old) }
{
    step_of(alloc, machine, command, pick)
}
