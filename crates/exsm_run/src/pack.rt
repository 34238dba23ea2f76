//! A volume whose units in use are made the lowest ones.
ghost use Rattle.std.specs.Prelude.{◌≡◌, ◌≢◌};
ghost use Rattle.disk_model.specs.Outside.{Goes, Rose};
ghost use Rattle.ex_base.specs.declared.names.PageNo.{PageNo};
ghost use Rattle.ex_base.specs.declared.faults.Seen.{Seen};
ghost use Rattle.exsm_run.specs.Pack.{PackPromise, pack_line, unpacked_status};
ghost use Rattle.exsm_run.specs.Status.{IsRefusal};

use crate::opening::opened;
use crate::status::Status;
use arrayvec::ArrayString;
use disk_model::{Host, send_all};
use itoa::Buffer;
use packing::{PackFault, Packed, pack};
use std::alloc::Global;

/// The most bytes of the line: its words, and the digits of two numbers.
const LINE_MOST: usize = 41;

// The status where a volume wasn't packed.
fn status_unpacked(fault: PackFault) -> Status
    ensures { result ≡ unpacked_status fault }
{
    match fault {
        PackFault::Disk => Status::DiskFault,
        PackFault::Memory => Status::Memory,
        PackFault::Damaged { page, want, got } => Status::Damaged { page, want, got },
        PackFault::NoPages { need, free } => Status::NoPages { need, free },
    }
}

// The line, which stands in a buffer: behind a pack no memory is wanted.
fn line_of(packed: &Packed) -> ArrayString<LINE_MOST>
    ensures { result.bytes ≡ pack_line packed.now.moved packed.now.segs }
{
    let mut moved = Buffer::new();
    let mut segs = Buffer::new();
    let mut line = ArrayString::new();
    line.push_str("ok pack moved ");
    line.push_str(moved.format(packed.moved));
    line.push_str(" segs ");
    line.push_str(segs.format(packed.segs));
    line.push_str("\n");
    line
}

/// Opens the volume on the disk, which tests it whole, moves the trees of its versions until its units in use of the segment area are the lowest ones, and sends a
/// line with the number of units that were moved and of those in use. The table stays as it is.
pub fn packed<H: Host>(alloc: Global, host: &mut H) -> Status
    ensures goes { Goes (H.outside host.old) (H.outside host.new) }
    ensures never { IsRefusal result → ⊥ }
    ensures script_fault { result ≢ Status.ScriptFault }
    ensures output_fault { result ≡ Status.OutputFault
        → Rose (H.outside host.old).write_faults (H.outside host.new).write_faults }
    ensures disk_fault { result ≡ Status.DiskFault
        → Rose (H.outside host.old).disk_faults (H.outside host.new).disk_faults }
    ensures told { result ≢ Status.DiskFault
        → (H.outside host.new).disk_faults ≡ (H.outside host.old).disk_faults }
    ensures damaged { (page : PageNo) (want got : Seen) → result ≡ Status.Damaged page want got
        → want ≢ got }
    ensures promise { PackPromise (H.outside host.old) (H.outside host.new) result }
{
    let mut volume = match opened(alloc, host) {
        Ok(volume) => volume,
        Err(status) => return status,
    };
    let faults = host.faults();
    let packing = pack(alloc, host, &mut volume);
    if host.faults() != faults {
        return Status::DiskFault;
    }
    let packed = match packing {
        Ok(packed) => packed,
        Err(fault) => return status_unpacked(fault),
    };
    let line = line_of(&packed);
    if send_all(host, line.as_str().as_bytes()).is_err() {
        return Status::OutputFault;
    }
    Status::Done
}
