//! A generated script is stepped on a volume.
ghost use Rattle.std.specs.Prelude.{◌≡◌, ◌≢◌};
ghost use Rattle.disk_model.specs.Outside.{Goes, Rose};
ghost use Rattle.ex_base.specs.declared.names.PageNo.{PageNo};
ghost use Rattle.ex_base.specs.declared.faults.Seen.{Seen};
ghost use Rattle.exsm_run.specs.Generate.{GenPromise};
ghost use Rattle.exsm_run.specs.Status.{IsRefusal};

use crate::script::status_of;
use crate::session::VolumeSession;
use crate::status::Status;
use disk_model::{Host, send_all};
use generated::Generated;
use std::alloc::Global;
use talks::run_talk;

/// The most bytes of a script that count. A generated one is taken from no source, so it has no limit.
const NO_SOURCE: u64 = 0;

/// Opens the volume on the disk, steps on the lines of the script that the seed and the count make, and sends a line that tells how many of them there
/// were, how many were accepted and refused, and the hash of the texts of all replies.
pub fn generate<H: Host>(alloc: Global, host: &mut H, seed: u64, count: u32) -> Status
    ensures goes { Goes (H.outside host.old) (H.outside host.new) }
    ensures never { IsRefusal result → ⊥ }
    ensures script_fault { result ≢ Status.ScriptFault }
    ensures output_fault { result ≡ Status.OutputFault
        → Rose (H.outside host.old).write_faults (H.outside host.new).write_faults }
    ensures disk_fault { result ≡ Status.DiskFault
        → Rose (H.outside host.old).disk_faults (H.outside host.new).disk_faults }
    ensures told { result ≢ Status.DiskFault
        → (H.outside host.new).disk_faults ≡ (H.outside host.old).disk_faults }
    ensures damaged { (page : PageNo) (want got : Seen) → result ≡ Status.Damaged page want got
        → want ≢ got }
    ensures promise { GenPromise H.outside seed count (H.outside host.old) (H.outside host.new)
        result }
{
    let mut talk = Generated::make(alloc, seed, count);
    if let Err(stopped) = run_talk::<VolumeSession, Generated, H>(alloc, host, &mut talk) {
        return status_of(NO_SOURCE, stopped);
    }
    let Ok(line) = talk.summary(alloc) else {
        return Status::Memory;
    };
    if send_all(host, line.as_bytes()).is_err() {
        return Status::OutputFault;
    }
    Status::Done
}
