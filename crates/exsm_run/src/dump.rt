//! The whole history of a volume, as a stream.
ghost use Rattle.std.specs.Prelude.{◌≡◌, ◌≢◌};
ghost use Rattle.disk_model.specs.Outside.{Goes, Rose};
ghost use Rattle.ex_base.specs.declared.names.PageNo.{PageNo};
ghost use Rattle.ex_base.specs.declared.faults.Seen.{Seen};
ghost use Rattle.exsm_run.specs.Dump.{DumpPromise, failed_status};
ghost use Rattle.exsm_run.specs.Status.{IsRefusal};

use crate::opening::opened;
use crate::status::Status;
use disk_model::Host;
use history_dump::{DumpFault, send_dump};
use std::alloc::Global;

// The status where a stream wasn't sent whole.
fn status_failed(fault: DumpFault) -> Status
    ensures { result ≡ failed_status fault }
{
    match fault {
        DumpFault::Output => Status::OutputFault,
        DumpFault::Disk => Status::DiskFault,
        DumpFault::Memory => Status::Memory,
        DumpFault::Damaged { page, want, got } => Status::Damaged { page, want, got },
    }
}

/// Opens the volume on the disk, which tests it whole, and sends its whole history as one stream, with each leaf and node that it reaches once. It writes
/// nothing but what an opening writes.
pub fn dumped<H: Host>(alloc: Global, host: &mut H) -> Status
    ensures goes { Goes (H.outside host.old) (H.outside host.new) }
    ensures never { IsRefusal result → ⊥ }
    ensures script_fault { result ≢ Status.ScriptFault }
    ensures output_fault { result ≡ Status.OutputFault
        → Rose (H.outside host.old).write_faults (H.outside host.new).write_faults }
    ensures disk_fault { result ≡ Status.DiskFault
        → Rose (H.outside host.old).disk_faults (H.outside host.new).disk_faults }
    ensures told { result ≢ Status.DiskFault
        → (H.outside host.new).disk_faults ≡ (H.outside host.old).disk_faults }
    ensures damaged { (page : PageNo) (want got : Seen) → result ≡ Status.Damaged page want got
        → want ≢ got }
    ensures promise { DumpPromise (H.outside host.old) (H.outside host.new) result }
{
    let mut volume = match opened(alloc, host) {
        Ok(volume) => volume,
        Err(status) => return status,
    };
    match send_dump(alloc, host, &mut volume) {
        Ok(()) => Status::Done,
        Err(fault) => status_failed(fault),
    }
}
