//! A script is run on a volume.
ghost use Rattle.std.specs.Prelude.{◌≡◌, ◌≢◌, ◌⊎◌, Option, Some};
ghost use Rattle.disk_model.specs.Outside.{Rose, Goes};
ghost use Rattle.engines.specs.Keeping.{conduct};
ghost use Rattle.ex_base.specs.declared.names.PageNo.{PageNo};
ghost use Rattle.ex_base.specs.declared.faults.Seen.{Seen};
ghost use Rattle.exsm_run.specs.Status.{IsRefusal};
ghost use Rattle.exsm_run.specs.Script.{status_of, RanSource};
ghost use Rattle.runs.specs.Source.{NotBegun};
ghost use Rattle.talks.specs.Headline.{RunOpens};
ghost use Rattle.talks.specs.declared.stopped.Stopped.{Stopped};

use crate::status::Status;
use disk_model::Host;
use runs::{SourceTalk, Stopped, run_source};
use std::alloc::Global;
use talks::Opener;

// The status of a run that was stopped so, where at most so many bytes of a script count.
pub(crate) fn status_of(most: u64, stopped: Stopped) -> Status
    ensures { result ≡ status_of most (Some stopped) }
{
    match stopped {
        Stopped::Script => Status::ScriptFault,
        Stopped::Output => Status::OutputFault,
        Stopped::Disk => Status::DiskFault,
        Stopped::Memory => Status::Memory,
        Stopped::BadVolume { part } => Status::BadVolume { part },
        Stopped::Damaged { page, want, got } => Status::Damaged { page, want, got },
        Stopped::ScriptLong => Status::ScriptLong { max: most },
    }
}

/// Opens the volume on the disk and steps on the lines of a talk that takes them from the source, of which at most so many bytes count. Each reply is sent
/// whole before the next line is stepped.
pub fn run_script<S: Opener + Drop, T: SourceTalk + Drop, H: Host>(
    alloc: Global,
    host: &mut H,
    most: u64,
) -> Status
    ensures goes { Goes (H.outside host.old) (H.outside host.new) }

    // It refuses nothing before it did anything.
    ensures never { IsRefusal result → ⊥ }

    // How it ended, and what a run of the source promises that ends so.
    ensures ran { RanSource S.meaning (conduct H.outside S.keeps) S.fresh T.talking T.begins most
        (H.outside host.old) (H.outside host.new) result }

    // First the volume was opened, but where no memory was there for lines.
    ensures opened { (ending : Option Stopped) × (result ≡ status_of most ending)
        × (RunOpens S.meaning (conduct H.outside S.keeps) S.fresh S.opens
        (H.outside host.old) (H.outside host.new) ending
        ⊎ ((ending ≡ Some Stopped.Memory)
        × NotBegun (H.outside host.old) (H.outside host.new))) }

    // A fault is answered only where the count of such faults rose, and damage only of two things that differ.
    ensures script_fault { result ≡ Status.ScriptFault
        → Rose (H.outside host.old).read_faults (H.outside host.new).read_faults }
    ensures output_fault { result ≡ Status.OutputFault
        → Rose (H.outside host.old).write_faults (H.outside host.new).write_faults }
    ensures disk_fault { result ≡ Status.DiskFault
        → Rose (H.outside host.old).disk_faults (H.outside host.new).disk_faults }
    ensures told { result ≢ Status.DiskFault
        → (H.outside host.new).disk_faults ≡ (H.outside host.old).disk_faults }
    ensures damaged { (page : PageNo) (want got : Seen) → result ≡ Status.Damaged page want got
        → want ≢ got }
{
    match run_source::<S, T, H>(alloc, host, most) {
        Ok(()) => Status::Done,
        Err(stopped) => status_of(most, stopped),
    }
}
