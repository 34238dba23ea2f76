//! The end of a script.
ghost use Rattle.std.specs.Prelude.{◌≡◌, ◌≢◌, Err, OnOk, IfErr};
ghost use Rattle.disk_model.specs.Outside.{DiskOnly, Leaves};
ghost use Rattle.session_views.specs.View.{View, ShowsNow};
ghost use Rattle.engines.specs.Keeping.{conduct};
ghost use Rattle.talks.specs.Passage.{ByDamagedStep};
ghost use Rattle.talks.specs.Stops.{CausedBy, IsSessionStop, IsSoundStop};
ghost use Rattle.talks.specs.Transcript.{Ended, StoppedAbort};
ghost use Rattle.talks.specs.declared.stopped.Stopped.TheVariants.{Disk};

use crate::stopped::{Stopped, stopped_by};
use disk_model::Host;
use engines::Engine;
use std::alloc::Global;
use table_model::Command;

/// Aborts a transaction that is open. It sends nothing, and where none is open it changes nothing.
pub(crate) fn abort_open<E: Engine, H: Host>(
    alloc: Global,
    session: &mut E,
    host: &mut H,
) -> Result<(), Stopped>
    requires up { E.up session.old }
    requires room { E.fits session.old (H.outside host.old).size }
    ensures only { DiskOnly (H.outside host.old) (H.outside host.new) }
    ensures caused { IfErr result (λ why. CausedBy why (H.outside host.old) (H.outside host.new)) }
    ensures told { result ≢ Err Disk
        → (H.outside host.new).disk_faults ≡ (H.outside host.old).disk_faults }
    ensures damaged { IfErr result (ByDamagedStep (conduct H.outside E.keeps)
        (H.outside host.old) (H.outside host.new)) }
    ensures stops { IfErr result IsSessionStop }
    ensures aborted { (before : View E) → before.session ≡ session.old
        → ShowsNow E.meaning (H.outside host.old) before
        → OnOk result (Ended E.meaning (conduct H.outside E.keeps) (H.outside host.old).clock
        before (H.outside host.new)) }
    ensures stopped { (before : View E) → before.session ≡ session.old
        → ShowsNow E.meaning (H.outside host.old) before
        → IfErr result (StoppedAbort E.meaning (conduct H.outside E.keeps)
        (H.outside host.old).clock (H.outside host.new) before) }
    ensures sound { (before : View E) → before.session ≡ session.old
        → ShowsNow E.meaning (H.outside host.old) before → IfErr result IsSoundStop }
    ensures any_moment { (before : View E) → before.session ≡ session.old
        → ShowsNow E.meaning (H.outside host.old) before
        → Leaves (H.outside host.old) (H.outside host.new)
        (λ d. E.meaning.StandsFor d before.machine.committed) }
{
    match session.step(alloc, host, &Command::Abort) {
        Ok(_told) => Ok(()),
        Err(stop) => Err(stopped_by(stop)),
    }
}
