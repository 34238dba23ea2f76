//! An open scan gives its next bytes.
ghost use Rattle.std.specs.Prelude.{◌≤◌, IsTrue, IfErr, IfOk};
ghost use Rattle.ex_base.specs.Sizes.{volume_bytes};
ghost use Rattle.table_model.specs.Requests.{is_request};
ghost use Rattle.table_model.specs.Requests as request;
ghost use Rattle.transactions.specs.Lines.{ScansLine};
ghost use Rattle.transactions.specs.Ways.{IsSoundReply};
ghost use Rattle.volume_port.specs.Reading.{TellsBytes};
ghost use Rattle.transactions.specs.Scanning.{FillsItsGroup};
ghost use Rattle.session_core.specs.Damage.{TellsDamage, no_version};

use disk_model::Host;
use ex_base::Items;
use session_core::Session;
use session_views::Stop;
use std::alloc::Global;
use table_model::{Refusal, Reply};

/// Gives the next `len` bytes of the scan of a name, or all that are left where they are fewer.
pub(crate) fn next<H: Host>(
    session: &mut Session,
    alloc: Global,
    host: &mut H,
    name: &[u8],
    len: u32,
) -> Result<Reply, Stop>
    requires room { volume_bytes session.old.geometry ≤ (H.outside host.old).size }
    requires form { IsTrue (is_request (request.Next name.now len)) }
    ensures line { ScansLine (H.outside host.old) (H.outside host.new) session.old session.new
        (request.Next name.now len) result }
    ensures way { IfOk result (λ told. TellsBytes (H.outside host.old) session.old.groups
        → IsSoundReply (H.outside host.old) session.old (request.Next name.now len) told) }
    ensures others { FillsItsGroup session.old session.new.groups name.now }
    ensures damage { IfErr result (TellsDamage (H.outside host.old) (H.outside host.new)
        session.old no_version) }
{
    let index = match session.scan_index(name) {
        Some(index) => index,
        None => return Ok(Reply::No(Refusal::NoScan)),
    };
    match session.next_piece(alloc, host, index, len) {
        Ok(bytes) => Ok(Reply::Next {
            bytes: Items::of(bytes),
        }),
        Err(stop) => Err(stop),
    }
}
