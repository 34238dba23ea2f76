//! A stream that is loaded into an empty volume.
ghost use Rattle.std.specs.Prelude.{◌≡◌, ◌≢◌};
ghost use Rattle.disk_model.specs.Outside.{Goes, Rose};
ghost use Rattle.ex_base.specs.declared.names.PageNo.{PageNo};
ghost use Rattle.ex_base.specs.declared.faults.Seen.{Seen};
ghost use Rattle.exsm_run.specs.Load.{LoadPromise, load_line, unloaded_status};
ghost use Rattle.exsm_run.specs.Status.{IsRefusal};

use crate::opening::{opened, status_unopened};
use crate::status::Status;
use arrayvec::ArrayString;
use disk_model::{Host, send_all};
use history_load::{LoadFault, Totals, is_empty, load_stream};
use history_reads::HeadFault;
use itoa::Buffer;
use std::alloc::Global;

/// The most bytes of the line: its words, and the digits of two numbers.
const LINE_MOST: usize = 54;

// The status where a stream wasn't loaded.
fn status_unloaded(fault: LoadFault) -> Status
    ensures { result ≡ unloaded_status fault }
{
    match fault {
        LoadFault::Disk => Status::DiskFault,
        LoadFault::Memory => Status::Memory,
        LoadFault::Source => Status::ScriptFault,
        LoadFault::Stream(HeadFault::Bad) => Status::BadDump,
        LoadFault::Stream(HeadFault::Misfit(misfit)) => Status::Misfit {
            field: misfit.field,
            dump: misfit.dump,
            volume: misfit.volume,
        },
        LoadFault::Stream(HeadFault::NoRoom(lack)) => Status::NoRoom {
            area: lack.area,
            need: lack.need,
            free: lack.free,
        },
    }
}

// The line, which stands in a buffer: behind a commit no memory is wanted.
fn line_of(totals: &Totals) -> ArrayString<LINE_MOST>
    ensures { result.bytes ≡ load_line totals.now.versions totals.now.leaves }
{
    let mut versions = Buffer::new();
    let mut segs = Buffer::new();
    let mut line = ArrayString::new();
    line.push_str("ok load versions ");
    line.push_str(versions.format(totals.versions));
    line.push_str(" segs ");
    line.push_str(segs.format(totals.leaves));
    line.push_str("\n");
    line
}

/// Opens the volume on the disk, which tests it whole, and where it is empty reads a stream into it, and sends a line with how many versions and leaves came. A
/// stream that is no dump for the volume, and a volume that isn't empty, are refused, and the volume stays as it is.
pub fn loaded<H: Host>(alloc: Global, host: &mut H) -> Status
    ensures goes { Goes (H.outside host.old) (H.outside host.new) }
    ensures never { IsRefusal result → ⊥ }
    ensures script_fault { result ≡ Status.ScriptFault
        → Rose (H.outside host.old).read_faults (H.outside host.new).read_faults }
    ensures output_fault { result ≡ Status.OutputFault
        → Rose (H.outside host.old).write_faults (H.outside host.new).write_faults }
    ensures disk_fault { result ≡ Status.DiskFault
        → Rose (H.outside host.old).disk_faults (H.outside host.new).disk_faults }
    ensures told { result ≢ Status.DiskFault
        → (H.outside host.new).disk_faults ≡ (H.outside host.old).disk_faults }
    ensures damaged { (page : PageNo) (want got : Seen) → result ≡ Status.Damaged page want got
        → want ≢ got }
    ensures promise { LoadPromise (H.outside host.old) (H.outside host.new) result }
{
    let volume = match opened(alloc, host) {
        Ok(volume) => volume,
        Err(status) => return status,
    };
    let faults = host.faults();
    let read = is_empty(alloc, host, &volume);
    if host.faults() != faults {
        return Status::DiskFault;
    }
    let empty = match read {
        Ok(empty) => empty,
        Err(fault) => return status_unopened(fault),
    };
    if !empty {
        return Status::NotEmpty;
    }
    let loading = load_stream(alloc, host, volume);
    if host.faults() != faults {
        return Status::DiskFault;
    }
    let totals = match loading {
        Ok(totals) => totals,
        Err(fault) => return status_unloaded(fault),
    };
    let line = line_of(&totals);
    if send_all(host, line.as_str().as_bytes()).is_err() {
        return Status::OutputFault;
    }
    Status::Done
}
