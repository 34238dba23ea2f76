//! The opening of a volume for a command that steps no lines.
ghost use Rattle.std.specs.Prelude.{◌≡◌, ◌≢◌, ◌≤◌, ◌⊎◌, ℕ, List, Some, Err, IsTrue, OnOk, IfOk, IfErr, MatchResult};
ghost use Rattle.ex_base.specs.Sizes.{volume_bytes};
ghost use Rattle.disk_model.specs.Outside.{DiskOnly, Leaves};
ghost use Rattle.table_model.specs.declared.table.Table.{Table};
ghost use Rattle.session_views.specs.Opening.{StandsOpening};
ghost use Rattle.session_core.specs.Meant.{meant};
ghost use Rattle.session_core.specs.Sessions.{fresh_session};
ghost use Rattle.talks.specs.Opening.{Opened};
ghost use Rattle.volume_model.specs.Parts.{StandsFor};
ghost use Rattle.restart.specs.Opening.{AreOpened, HoldsAs, RestsAs};
ghost use Rattle.exsm_run.specs.Check.{StopsCount, unopened_status};
ghost use Rattle.exsm_run.specs.Fresh.{IsFresh};
ghost use Rattle.exsm_run.specs.Openings.{OpeningPromise, RestsWith, WritesAsOpening};
ghost use Rattle.exsm_run.specs.Script.{HoldsVolume};

use crate::status::Status;
use disk_model::Host;
use restart::open_volume;
use session_views::OpenFault;
use std::alloc::Global;
use volume_port::VolumeState;

// The status where a volume wasn't opened.
pub(crate) fn status_unopened(fault: OpenFault) -> Status
    ensures { result ≡ unopened_status fault }
{
    match fault {
        OpenFault::Memory => Status::Memory,
        OpenFault::Disk => Status::DiskFault,
        OpenFault::BadVolume { part } => Status::BadVolume { part },
    }
}

/// Opens the volume on the disk, which tests it whole, and answers its state, in which nothing runs: no record counts and no page has an image.
pub(crate) fn opened<H: Host>(alloc: Global, host: &mut H) -> Result<VolumeState, Status>
    ensures only { DiskOnly (H.outside host.old) (H.outside host.new) }
    ensures parts { IfOk result AreOpened }
    ensures room { IfOk result (λ volume. volume_bytes volume.geometry
        ≤ (H.outside host.new).size) }
    ensures stops { IfErr result
        (λ status. StopsCount status (H.outside host.old) (H.outside host.new)) }
    ensures told { result ≢ Err Status.DiskFault
        → (H.outside host.new).disk_faults ≡ (H.outside host.old).disk_faults }

    // A volume is at rest then, with its table, but for a fault of the disk and want of memory.
    ensures rests { (table : Table) (was : List ℕ) → HoldsVolume (H.outside host.old) table was
        → MatchResult result (RestsWith table (H.outside host.new))
        (λ status. (status ≡ Status.DiskFault) ⊎ (status ≡ Status.Memory)) }

    // A session on it shows the table for which the volume stood.
    ensures shows { IfOk result (λ volume. (image : List ℕ) (table : Table)
        → IsTrue (H.outside host.old).honest → (H.outside host.old).disk ≡ Some image
        → StandsFor image table
        → Opened meant IsFresh table (fresh_session volume) (H.outside host.new)) }
    ensures same { IfOk result (λ volume. (image : List ℕ) → IsTrue (H.outside host.old).honest
        → (H.outside host.old).disk ≡ Some image → RestsAs image (H.outside host.new) volume) }
    ensures holds { (image : List ℕ) → IsTrue (H.outside host.old).honest
        → (H.outside host.old).disk ≡ Some image → HoldsAs image (H.outside host.new) }
    ensures stood { OnOk result ((image : List ℕ) → (H.outside host.old).disk ≡ Some image
        → (table : Table) × StandsFor image table) }
    ensures any_moment { (image : List ℕ) → IsTrue (H.outside host.old).honest
        → (H.outside host.old).disk ≡ Some image
        → Leaves (H.outside host.old) (H.outside host.new) (StandsOpening meant
        (H.outside host.old).images image) }
    ensures writes { MatchResult result
        (λ volume. WritesAsOpening (H.outside host.old) (H.outside host.new) Status.Done)
        (WritesAsOpening (H.outside host.old) (H.outside host.new)) }
    ensures opening { IfErr result
        (OpeningPromise (H.outside host.old) (H.outside host.new)) }
{
    match open_volume(alloc, host) {
        Ok(volume) => Ok(volume),
        Err(fault) => Err(status_unopened(fault)),
    }
}
