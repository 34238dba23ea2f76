//! Steps over an image that is lent for one. What each asks of the file is added to the list.
ghost use Rattle.std.specs.Prelude.{◌≡◌, IfOk, IsTrue, length};
ghost use Rattle.lent_host.specs.Host.{outside_over};
ghost use Rattle.lent_host.specs.Lent.{IsLent, outside_of};
ghost use Rattle.table_model.specs.Requests.{request_of};
ghost use Rattle.volume_calls.specs.Forms.{is_formed};
ghost use Rattle.volume_calls.specs.Lines.{line_of};
ghost use Rattle.volume_calls.specs.Over.{LinesOver, OpensOver, StepsOver};

use crate::lines::{Unanswered, step_line};
use engines::Engine;
use lent_host::{Asked, FileBytes, LentHost};
use session_views::{OpenFault, Stop};
use std::alloc::Global;
use table_model::{Command, Refusal, Reply};
use talks::Opener;

// Steps on a command, over a host that keeps its loans.
#[tactic(auto, using(crate::proofs::Formed::formed_request))]
fn step_kept<E: Engine>(
    session: &mut E,
    alloc: Global,
    host: &mut LentHost<'_>,
    command: &Command<'_>,
) -> Result<Reply, Stop>
    requires form { IsTrue (is_formed (request_of command.now)) }
    requires room { E.fits session.old (length host.old.file.now.bytes) }
    ensures image { host.new.image.ghost_name ≡ host.old.image.ghost_name }
    ensures asked { host.new.asked.ghost_name ≡ host.old.asked.ghost_name }
    ensures file { host.new.file.now.bytes ≡ host.old.file.now.bytes }
    ensures room { E.fits session.new (length host.new.file.now.bytes) }
    ensures steps { StepsOver E.meaning session.old session.new (outside_over host.old)
        (outside_over host.new) (request_of command.now) result }
{
    session.step(alloc, host, command)
}

/// Steps on a command that a line could ask for.
pub(crate) fn step_lent<E: Engine>(
    session: &mut E,
    alloc: Global,
    file: &FileBytes,
    image: &mut [u8],
    asked: &mut Vec<Asked>,
    command: &Command<'_>,
) -> Result<Reply, Stop>
    requires form { IsTrue (is_formed (request_of command.now)) }
    requires lent { IsLent file.now.bytes asked.old.items image.old }
    requires room { E.fits session.old (length file.now.bytes) }
    ensures lent { IsLent file.now.bytes asked.new.items image.new }
    ensures room { E.fits session.new (length file.now.bytes) }
    ensures steps { StepsOver E.meaning session.old session.new
        (outside_of file.now.bytes asked.old.items 0 0)
        (outside_of file.now.bytes asked.new.items 0 0) (request_of command.now) result }
{
    let mut host = LentHost::over(alloc, file, image, asked);
    step_kept(session, alloc, &mut host, command)
}

// Steps on a line, over a host that keeps its loans.
fn line_kept<E: Engine>(
    session: &mut E,
    alloc: Global,
    host: &mut LentHost<'_>,
    line: &[u8],
    text: &mut Vec<u8>,
) -> Result<Option<Refusal>, Unanswered>
    requires room { E.fits session.old (length host.old.file.now.bytes) }
    ensures image { host.new.image.ghost_name ≡ host.old.image.ghost_name }
    ensures asked { host.new.asked.ghost_name ≡ host.old.asked.ghost_name }
    ensures file { host.new.file.now.bytes ≡ host.old.file.now.bytes }
    ensures room { E.fits session.new (length host.new.file.now.bytes) }
    ensures steps { LinesOver E.meaning session.old session.new (outside_over host.old)
        (outside_over host.new) (line_of line.now) text.new.items result }
{
    step_line(session, alloc, host, line, text)
}

/// Steps on a line.
pub(crate) fn line_lent<E: Engine>(
    session: &mut E,
    alloc: Global,
    file: &FileBytes,
    image: &mut [u8],
    asked: &mut Vec<Asked>,
    line: &[u8],
    text: &mut Vec<u8>,
) -> Result<Option<Refusal>, Unanswered>
    requires lent { IsLent file.now.bytes asked.old.items image.old }
    requires room { E.fits session.old (length file.now.bytes) }
    ensures lent { IsLent file.now.bytes asked.new.items image.new }
    ensures room { E.fits session.new (length file.now.bytes) }
    ensures steps { LinesOver E.meaning session.old session.new
        (outside_of file.now.bytes asked.old.items 0 0)
        (outside_of file.now.bytes asked.new.items 0 0) (line_of line.now) text.new.items result }
{
    let mut host = LentHost::over(alloc, file, image, asked);
    line_kept(session, alloc, &mut host, line, text)
}

// Opens the volume, over a host that keeps its loans.
fn open_kept<E: Opener>(alloc: Global, host: &mut LentHost<'_>) -> Result<E, OpenFault>
    ensures image { host.new.image.ghost_name ≡ host.old.image.ghost_name }
    ensures asked { host.new.asked.ghost_name ≡ host.old.asked.ghost_name }
    ensures file { host.new.file.now.bytes ≡ host.old.file.now.bytes }
    ensures room { IfOk result (λ session. E.fits session (length host.new.file.now.bytes)) }
    ensures opens { OpensOver E.meaning E.fresh (outside_over host.old) (outside_over host.new)
        result }
{
    E::open(alloc, host)
}

/// Opens the volume. What its log holds is brought home.
pub(crate) fn open_lent<E: Opener>(
    alloc: Global,
    file: &FileBytes,
    image: &mut [u8],
    asked: &mut Vec<Asked>,
) -> Result<E, OpenFault>
    requires lent { IsLent file.now.bytes asked.old.items image.old }
    ensures lent { IsLent file.now.bytes asked.new.items image.new }
    ensures room { IfOk result (λ session. E.fits session (length file.now.bytes)) }
    ensures opens { OpensOver E.meaning E.fresh
        (outside_of file.now.bytes asked.old.items 0 0)
        (outside_of file.now.bytes asked.new.items 0 0) result }
{
    let mut host = LentHost::over(alloc, file, image, asked);
    open_kept(alloc, &mut host)
}
