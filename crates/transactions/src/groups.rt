//! A group of frames is made.
ghost use Rattle.std.specs.Prelude.{◌≡◌, IsTrue, IfErr};
ghost use Rattle.session_core.specs.Sessions.{IsSession};
ghost use Rattle.session_views.specs.declared.stop.Stop.{Stop};
ghost use Rattle.table_model.specs.Requests.{is_request};
ghost use Rattle.table_model.specs.Requests as request;
ghost use Rattle.transactions.specs.Lines.{ScansLine};

use disk_model::Host;
use session_core::Session;
use session_views::Stop;
use std::alloc::Global;
use table_model::{GROUPS_MOST, Name, Refusal, Reply};

/// Makes a group of `frames` frames. Of a full one, by `mru`, the most recently used frame gives way. The host isn't called.
pub(crate) fn group<H: Host>(
    session: &mut Session,
    alloc: Global,
    _host: &H,
    name: &[u8],
    frames: u32,
    mru: bool,
) -> Result<Reply, Stop>
    requires session { IsSession session.old }
    requires form { IsTrue (is_request (request.Group name.now frames mru)) }
    ensures line { ScansLine (H.outside _host.now) (H.outside _host.now) session.old session.new
        (request.Group name.now frames mru) result }
    ensures memory { IfErr result (λ why. why ≡ Stop.Memory) }
{
    if session.is_taken(name) {
        return Ok(Reply::No(Refusal::NameTaken));
    }
    if session.group_count() as usize >= GROUPS_MOST {
        return Ok(Reply::No(Refusal::TooMany { scans: false }));
    }
    let Ok(told) = Name::of_bytes(alloc, name) else {
        return Err(Stop::Memory);
    };
    match session.add_group(alloc, name, frames, mru) {
        Ok(()) => Ok(Reply::Group { name: told }),
        Err(_) => Err(Stop::Memory),
    }
}
