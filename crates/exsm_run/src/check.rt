//! The numbers of a volume.
ghost use Rattle.std.specs.Prelude.{◌≡◌, ◌≢◌, ◌⊎◌, ℕ, List, Some, Err, IsTrue, OnOk, IfOk, IfErr, MatchResult, string_bytes};
ghost use Rattle.disk_model.specs.Outside.{DiskOnly, Goes, Leaves, Rose};
ghost use Rattle.ex_base.specs.declared.names.PageNo.{PageNo};
ghost use Rattle.ex_base.specs.declared.faults.Seen.{Seen};
ghost use Rattle.table_model.specs.declared.table.Table.{Table};
ghost use Rattle.session_views.specs.Opening.{StandsOpening};
ghost use Rattle.session_core.specs.Meant.{meant};
ghost use Rattle.volume_model.specs.Parts.{StandsFor};
ghost use Rattle.exsm_run.specs.Check.{CheckPromise, IsCount, StopsAs, StopsCount, counts_line};
ghost use Rattle.exsm_run.specs.Openings.{OpeningPromise, WritesAsOpening};
ghost use Rattle.exsm_run.specs.Script.{HoldsVolume};
ghost use Rattle.exsm_run.specs.Status.{IsRefusal};

use crate::opening::opened;
use crate::session::VolumeSession;
use crate::status::Status;
use disk_model::{Host, send_all};
use session_views::Stop;
use std::alloc::{AllocError, Global};
use transactions::Summary;

// The status where a session that was up stopped.
fn status_stopped(stop: Stop) -> Status
    requires { stop ≢ Stop.Down }
    ensures { StopsAs stop result }
{
    match stop {
        Stop::Memory => Status::Memory,
        Stop::Disk => Status::DiskFault,
        Stop::Damaged { page, want, got } => Status::Damaged { page, want, got },
        Stop::Down => unreachable!(),
    }
}

// Opens the volume on the disk, which tests it whole, and sums up what it holds.
fn counted<H: Host>(alloc: Global, host: &mut H) -> Result<Summary, Status>
    ensures only { DiskOnly (H.outside host.old) (H.outside host.new) }
    ensures stops { IfErr result
        (λ status. StopsCount status (H.outside host.old) (H.outside host.new)) }
    ensures told { result ≢ Err Status.DiskFault
        → (H.outside host.new).disk_faults ≡ (H.outside host.old).disk_faults }
    ensures counts { (table : Table) (was : List ℕ) → HoldsVolume (H.outside host.old) table was
        → MatchResult result (IsCount (H.outside host.new) table)
        (λ status. (status ≡ Status.DiskFault) ⊎ (status ≡ Status.Memory)) }
    ensures any_moment { (image : List ℕ) → IsTrue (H.outside host.old).honest
        → (H.outside host.old).disk ≡ Some image
        → Leaves (H.outside host.old) (H.outside host.new) (StandsOpening meant
        (H.outside host.old).images image) }
    ensures writes { MatchResult result
        (λ summary. WritesAsOpening (H.outside host.old) (H.outside host.new) Status.Done)
        (WritesAsOpening (H.outside host.old) (H.outside host.new)) }
    ensures opened { OnOk result ((image : List ℕ) → (H.outside host.old).disk ≡ Some image
        → (table : Table) × StandsFor image table) }
    ensures opening { IfErr result
        (OpeningPromise (H.outside host.old) (H.outside host.new)) }
{
    let volume = opened(alloc, host)?;
    let mut session = VolumeSession::on(alloc, volume);
    match session.summary(alloc, host) {
        Ok(summary) => Ok(summary),
        Err(stop) => Err(status_stopped(stop)),
    }
}

fn line_of(alloc: Global, summary: &Summary) -> Result<String, AllocError>
    ensures { IfOk result (λ line. string_bytes line ≡ counts_line summary.now.last
        summary.now.files summary.now.objects summary.now.versions summary.now.pages
        summary.now.segs) }
{
    let Summary {
        last,
        files,
        objects,
        versions,
        pages,
        segs,
    } = *summary;
    format!(in alloc;
        "ok check last {last} files {files} objects {objects} versions {versions} pages {pages} segs {segs}\n"
    )
}

/// Opens the volume on the disk, which tests it whole, and sends a line with the numbers of its table and of the units that it reaches. It writes
/// nothing but what an opening writes.
pub fn checked<H: Host>(alloc: Global, host: &mut H) -> Status
    ensures goes { Goes (H.outside host.old) (H.outside host.new) }
    ensures never { IsRefusal result → ⊥ }
    ensures script_fault { result ≢ Status.ScriptFault }
    ensures output_fault { result ≡ Status.OutputFault
        → Rose (H.outside host.old).write_faults (H.outside host.new).write_faults }
    ensures disk_fault { result ≡ Status.DiskFault
        → Rose (H.outside host.old).disk_faults (H.outside host.new).disk_faults }
    ensures told { result ≢ Status.DiskFault
        → (H.outside host.new).disk_faults ≡ (H.outside host.old).disk_faults }
    ensures damaged { (page : PageNo) (want got : Seen) → result ≡ Status.Damaged page want got
        → want ≢ got }
    ensures promise { CheckPromise (H.outside host.old) (H.outside host.new) result }
{
    let summary = match counted(alloc, host) {
        Ok(summary) => summary,
        Err(status) => return status,
    };
    let Ok(line) = line_of(alloc, &summary) else {
        return Status::Memory;
    };
    if send_all(host, line.as_bytes()).is_err() {
        return Status::OutputFault;
    }
    Status::Done
}
