//! The session of a run: one that is opened on the volume of a disk.
ghost use Rattle.std.specs.Prelude.{◌≡◌, ◌≤◌, false};

use disk_model::Host;
use engines::Engine;
use restart::open_volume;
use session_core::Session;
use session_views::{OpenFault, Stop};
use std::alloc::Global;
use std::marker::Model;
use table_model::{Command, Reply};
use talks::Opener;
use transactions::{Summary, step, summarize};
use volume_port::VolumeState;

/// A session that was opened on the volume of a disk.
#[derive(Drop)]
pub struct VolumeSession {
    session: Session,
}

impl Model for VolumeSession {
    ghost use Rattle.session_core.specs.Sessions.{SessionState};

    ghost Value = { SessionState };

    ghost view = { λ s. s.session };
}

impl VolumeSession {
    ghost use Rattle.std.specs.Prelude.{◌≢◌, ◌⊎◌, Err, IfOk, OnOk, true};
    ghost use Rattle.ex_base.specs.Sizes.{volume_bytes};
    ghost use Rattle.disk_model.specs.Outside.{ReadsOnly, Rose};
    ghost use Rattle.ex_base.specs.declared.faults.Seen.{Seen};
    ghost use Rattle.ex_base.specs.declared.names.PageNo.{PageNo};
    ghost use Rattle.session_views.specs.declared.stop.Stop.{Stop};
    ghost use Rattle.session_views.specs.View.{View, ShowsNow};
    ghost use Rattle.volume_port.specs.Reading.{TellsBytes};
    ghost use Rattle.session_core.specs.Damage.{IsSessionDamage, no_version};
    ghost use Rattle.session_core.specs.Meant.{meant};
    ghost use Rattle.restart.specs.Opening.{AreOpened};
    ghost use Rattle.session_core.specs.Sessions.{SessionState, fresh_session};
    ghost use Rattle.transactions.specs.Summaries.{IsSummary};

    /// The session on a volume that was just opened.
    pub fn on(alloc: Global, volume: VolumeState) -> VolumeSession
        requires opened { AreOpened volume }
        ensures { result ≡ fresh_session volume }
    {
        VolumeSession {
            session: Session::make(alloc, volume),
        }
    }

    /// Sums up what the session shows. The disk is read at most.
    pub fn summary<H: Host>(&mut self, alloc: Global, host: &mut H) -> Result<Summary, Stop>
        requires room { volume_bytes self.old.geometry ≤ (H.outside host.old).size }
        ensures room { volume_bytes self.new.geometry ≤ (H.outside host.new).size }
        ensures only { ReadsOnly (H.outside host.old) (H.outside host.new) }
        ensures disk { result ≡ Err Stop.Disk
            → Rose (H.outside host.old).disk_faults (H.outside host.new).disk_faults }
        ensures told { result ≢ Err Stop.Disk
            → (H.outside host.new).disk_faults ≡ (H.outside host.old).disk_faults }
        ensures damaged { (page : PageNo) (want got : Seen)
            → result ≡ Err (Stop.Damaged page want got) → want ≢ got }

        // What is told of a damaged page stands there, as after a step that names no version.
        ensures stands { (page : PageNo) (want got : Seen)
            → result ≡ Err (Stop.Damaged page want got)
            → TellsBytes (H.outside host.old) self.old.groups
            → IsSessionDamage (H.outside host.old) (H.outside host.new) self.old no_version
            page want got }

        // Where a view shows, it is the summary of the machine that the view shows, and the view goes on to be shown.
        ensures sums { (before : View SessionState) → before.session ≡ self.old
            → ShowsNow meant (H.outside host.old) before
            → IfOk result (IsSummary before.machine) }
        ensures shows { (before : View SessionState) → before.session ≡ self.old
            → ShowsNow meant (H.outside host.old) before
            → OnOk result (ShowsNow meant (H.outside host.new)
            (record before { session = self.new })) }

        // Where it shows, nothing but a fault of the disk or want of memory stops it.
        ensures sound { (before : View SessionState) (stop : Stop) → before.session ≡ self.old
            → ShowsNow meant (H.outside host.old) before
            → result ≡ Err stop → (stop ≡ Stop.Disk) ⊎ (stop ≡ Stop.Memory) }

        // Only a session that was down says so.
        ensures was_down { result ≡ Err Stop.Down → self.old.down ≡ true }
    {
        summarize(&mut self.session, alloc, host)
    }
}

impl Engine for VolumeSession {
    ghost use Rattle.exsm_run.specs.Kept.{StepKeeps};
    ghost use Rattle.ex_base.specs.Sizes.{volume_bytes};
    ghost use Rattle.session_core.specs.Meant.{meant};

    ghost meaning = { meant };

    ghost up = { λ s. s.down ≡ false };

    ghost fits = { λ s size. volume_bytes s.geometry ≤ size };

    ghost keeps = { StepKeeps };

    fn step<H: Host>(
        &mut self,
        alloc: Global,
        host: &mut H,
        command: &Command<'_>,
    ) -> Result<Reply, Stop> {
        step(&mut self.session, alloc, host, command)
    }
}

impl Opener for VolumeSession {
    ghost use Rattle.exsm_run.specs.Begun.{OpensVolume};
    ghost use Rattle.exsm_run.specs.Fresh.{IsFresh};

    ghost fresh = { IsFresh };

    ghost opens = { OpensVolume };

    fn open<H: Host>(alloc: Global, host: &mut H) -> Result<VolumeSession, OpenFault> {
        match open_volume(alloc, host) {
            Ok(volume) => Ok(VolumeSession::on(alloc, volume)),
            Err(fault) => Err(fault),
        }
    }
}
