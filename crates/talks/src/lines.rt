//! A session steps on lines, whoever hands them in.
ghost use Rattle.std.specs.Prelude.{◌≡◌, ◌≢◌, ◌⊎◌, List, ℕ, Err, OnOk, IfErr};
ghost use Rattle.disk_model.specs.Outside.{Goes};
ghost use Rattle.session_views.specs.View.{View};
ghost use Rattle.engines.specs.Keeping.{conduct};
ghost use Rattle.talks.specs.Passage.{ByDamagedStep, Ran, WasCut};
ghost use Rattle.talks.specs.Stops.{CausedBy, IsLinesStop, IsSessionStop, IsSoundStop};
ghost use Rattle.talks.specs.Transcript.{Opens};
ghost use Rattle.talks.specs.declared.stopped.Stopped.TheVariants.{Disk};

use crate::stopped::{Stopped, stopped_by};
use crate::talk::{Asked, Talk};
use disk_model::Host;
use engines::Engine;
use std::alloc::Global;
use table_model::Reply;

/// Takes one line after the other. The session steps on each that asks for a step, and each reply is told before the next line is taken.
pub(crate) fn step_lines<E: Engine, T: Talk, H: Host>(
    alloc: Global,
    session: &mut E,
    talk: &mut T,
    host: &mut H,
) -> Result<(), Stopped>
    requires up { E.up session.old }
    requires room { E.fits session.old (H.outside host.old).size }
    ensures goes { Goes (H.outside host.old) (H.outside host.new) }
    ensures up { OnOk result (E.up session.new) }
    ensures room { OnOk result (E.fits session.new (H.outside host.new).size) }
    ensures whole { OnOk result (Ran E.meaning (conduct H.outside E.keeps) T.talking
        (H.outside host.old) (H.outside host.new) session.old session.new talk.old talk.new) }
    ensures cut { IfErr result (λ why. WasCut E.meaning (conduct H.outside E.keeps) T.talking
        (H.outside host.old) (H.outside host.new) session.old talk.old why) }
    ensures caused { IfErr result (λ why. CausedBy why (H.outside host.old) (H.outside host.new)) }
    ensures told { result ≢ Err Disk
        → (H.outside host.new).disk_faults ≡ (H.outside host.old).disk_faults }
    ensures damaged { IfErr result (ByDamagedStep (conduct H.outside E.keeps)
        (H.outside host.old) (H.outside host.new)) }
    ensures stops { IfErr result IsLinesStop }
    ensures whence { IfErr result (λ why. IsSessionStop why ⊎ T.fails why) }
    ensures sound { (opening : View E) (was : List ℕ) → opening.session ≡ session.old
        → Opens E.meaning (H.outside host.old) opening was → IfErr result IsSoundStop }
{
    'lines: while talk.advance(alloc, host)? {
        let told = match talk.asked() {
            Asked::Nothing => continue 'lines,
            Asked::Refused(why) => Reply::No(why),
            Asked::Step(command) => match session.step(alloc, host, &command) {
                Ok(told) => told,
                Err(stop) => return Err(stopped_by(stop)),
            },
        };
        talk.tell(alloc, host, told)?;
    }
    Ok(())
}
