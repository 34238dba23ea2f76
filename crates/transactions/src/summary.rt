//! What a session shows, summed up.
ghost use Rattle.std.specs.Prelude.{◌≡◌, ◌≢◌, ◌⊎◌, ◌≤◌, Ok, Err, IfOk, IfErr, OnOk, OnErr, true, false};
ghost use Rattle.ex_base.specs.declared.faults.Seen.{Seen};
ghost use Rattle.ex_base.specs.declared.names.PageNo.{PageNo};
ghost use Rattle.disk_model.specs.Outside.{ReadsOnly, Rose};
ghost use Rattle.session_views.specs.declared.stop.Stop.{Stop};
ghost use Rattle.session_views.specs.View.{View, ShowsNow};
ghost use Rattle.volume_port.specs.Reading.{TellsBytes};
ghost use Rattle.session_core.specs.Sessions.{SessionState};
ghost use Rattle.ex_base.specs.Sizes.{volume_bytes};
ghost use Rattle.object_files.specs.Edits.{IsCatalogPage};
ghost use Rattle.object_files.specs.Reads.{catalog_on};
ghost use Rattle.session_core.specs.Damage.{IsSessionDamage, TellsDamage, no_version};
ghost use Rattle.session_core.specs.Finding.{IfShown, IsOutside, LineStops};
ghost use Rattle.session_core.specs.Steps.{OnlyFrames};
ghost use Rattle.session_core.specs.Meant.{meant};
ghost use Rattle.transactions.specs.Summaries.{AreTotals, IfCatalog, IsSummary, SumsUp};

use disk_model::Host;
use ex_base::Area;
use session_core::{Session, view_of};
use session_views::Stop;
use std::alloc::Global;

/// What the table that a session shows has, and the units in use: the working table while a transaction is open, else the committed one.
#[derive(Clone, Copy, Debug, PartialEq, Eq)]
pub struct Summary {
    /// The number of the last committed transaction.
    pub last: u64,
    /// The files of the table.
    pub files: u32,
    /// The objects of its files. Each file has fewer than 2^64.
    pub objects: u128,
    /// The versions of its objects. Each file has fewer than 2^64.
    pub versions: u128,
    /// The units of the page area in use.
    pub pages: u32,
    /// Those of the segment area.
    pub segs: u32,
}

/// How many objects and versions files have together.
#[derive(Clone, Copy)]
struct Totals {
    objects: u128,
    versions: u128,
}

// Sums up, in a session that met no fault.
fn sum_up<H: Host>(session: &mut Session, alloc: Global, host: &mut H) -> Result<Summary, Stop>
    requires { volume_bytes session.old.geometry ≤ (H.outside host.old).size }
    ensures { SumsUp (H.outside host.old) (H.outside host.new) session.old session.new result }
{
    let page = match session.catalog(alloc, host) {
        Ok(page) => page,
        Err(stop) => return Err(stop),
    };
    let totals = match total_in(session, alloc, host, &page) {
        Ok(totals) => totals,
        Err(stop) => return Err(stop),
    };
    let catalog = view_of(&page);
    Ok(Summary {
        last: catalog.last_txn(),
        files: catalog.len(),
        objects: totals.objects,
        versions: totals.versions,
        pages: session.used(Area::Page),
        segs: session.used(Area::Segment),
    })
}

// How many objects and versions the files of a catalog have.
fn total_in<H: Host>(
    session: &mut Session,
    alloc: Global,
    host: &mut H,
    page: &[u8],
) -> Result<Totals, Stop>
    requires room { volume_bytes session.old.geometry ≤ (H.outside host.old).size }
    requires catalog { IsCatalogPage page.now }
    ensures only { OnlyFrames (H.outside host.old) (H.outside host.new) session.old session.new }
    ensures shows { IfShown (H.outside host.old) session.old
        (λ before. ShowsNow meant (H.outside host.new) (record before { session = session.new })) }
    ensures totals { IfOk result (λ totals. IfCatalog (H.outside host.old) session.old page.now
        (λ before. AreTotals before.machine (catalog_on page.now).entries totals)) }
    ensures stops { IfErr result (LineStops (H.outside host.old) (H.outside host.new)) }
    ensures damage { IfErr result (TellsDamage (H.outside host.old) (H.outside host.new)
        session.old no_version) }
    ensures sound { IfErr result (λ why. IfCatalog (H.outside host.old) session.old page.now
        (λ before. IsOutside why)) }
{
    let mut totals = Totals {
        objects: 0,
        versions: 0,
    };
    let catalog = view_of(page);
    for index in 0..catalog.len() {
        let file_no = catalog.entry(index).file_no;
        let tally = match session.tally_of(alloc, host, file_no) {
            Ok(tally) => tally,
            Err(stop) => return Err(stop),
        };
        totals.objects += tally.objects as u128;
        totals.versions += tally.versions as u128;
    }
    Ok(totals)
}

/// Sums up what the session shows. The disk is read at most. A fault of it is told, as in a step.
pub fn summarize<H: Host>(
    session: &mut Session,
    alloc: Global,
    host: &mut H,
) -> Result<Summary, Stop>
    requires room { volume_bytes session.old.geometry ≤ (H.outside host.old).size }
    ensures only { ReadsOnly (H.outside host.old) (H.outside host.new) }
    ensures disk { result ≡ Err Stop.Disk
        → Rose (H.outside host.old).disk_faults (H.outside host.new).disk_faults }
    ensures told { result ≢ Err Stop.Disk
        → (H.outside host.new).disk_faults ≡ (H.outside host.old).disk_faults }
    ensures damaged { (page : PageNo) (want got : Seen)
        → result ≡ Err (Stop.Damaged page want got) → want ≢ got }

    // What is told of a damaged page stands there, as after a step that names no version.
    ensures stands { (page : PageNo) (want got : Seen)
        → result ≡ Err (Stop.Damaged page want got)
        → TellsBytes (H.outside host.old) session.old.groups
        → IsSessionDamage (H.outside host.old) (H.outside host.new) session.old no_version
        page want got }

    // Where a view shows, it is the summary of the machine that the view shows,
    ensures sums { (before : View SessionState) → before.session ≡ session.old
        → ShowsNow meant (H.outside host.old) before
        → IfOk result (IsSummary before.machine) }

    // which goes on to be shown, by the session as it is then.
    ensures shows { (before : View SessionState) → before.session ≡ session.old
        → ShowsNow meant (H.outside host.old) before
        → OnOk result (ShowsNow meant (H.outside host.new)
        (record before { session = session.new })) }

    // Where it shows, nothing but a fault of the disk or want of memory stops it.
    ensures sound { (before : View SessionState) (stop : Stop) → before.session ≡ session.old
        → ShowsNow meant (H.outside host.old) before
        → result ≡ Err stop → (stop ≡ Stop.Disk) ⊎ (stop ≡ Stop.Memory) }

    // The session stays what it was but for its frames, and but that a fault puts it down.
    ensures frames { OnlyFrames (H.outside host.old) (H.outside host.new) session.old
        (record session.new { opened = session.old.opened; down = session.old.down }) }

    // After a fault it answers that the session is down, and calls nothing, as every step does; before one it doesn't.
    ensures is_down { session.old.down ≡ true → (result ≡ Err Stop.Down) × (host.new ≡ host.old)
        × (session.new ≡ session.old) }
    ensures was_down { result ≡ Err Stop.Down → session.old.down ≡ true }
    ensures goes_down { OnErr result (session.new.down ≡ true) }
    ensures stays_up { OnOk result ((session.new.opened ≡ session.old.opened)
        × (session.new.down ≡ false)) }
{
    if session.is_down() {
        return Err(Stop::Down);
    }
    let faults = host.faults();
    let summary = sum_up(session, alloc, host);
    if host.faults() != faults {
        session.put_down();
        return Err(Stop::Disk);
    }
    if summary.is_err() {
        session.put_down();
    }
    summary
}
