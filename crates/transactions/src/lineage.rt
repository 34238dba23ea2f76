//! How a version stands among its relatives: what a line that removes one asks.
ghost use Rattle.std.specs.Prelude.{◌≡◌, ◌≤◌, true, Some, IfOk, IfErr};
ghost use Rattle.ex_base.specs.Sizes.{volume_bytes};
ghost use Rattle.table_model.specs.Machines.{shown};
ghost use Rattle.table_model.specs.Refusals.{branches_if, is_only_one};
ghost use Rattle.table_model.specs.Tables.{versions_of};
ghost use Rattle.session_core.specs.Damage.{TellsFor, version_for};
ghost use Rattle.volume_edits.specs.Purposes.{ToRelate};
ghost use Rattle.session_core.specs.Finding.{IfShown, IsOutside, LineStops, TellsVersion};
ghost use Rattle.session_core.specs.Steps.{OnlyFrames};

use disk_model::Host;
use session_core::{Named, Relation, Session};
use session_views::Stop;
use std::alloc::Global;

/// Whether the version is derived from another one and no other version is. It stops as `relatives` does.
pub(crate) fn is_only_one<H: Host>(
    session: &mut Session,
    alloc: Global,
    host: &mut H,
    version: &Named,
) -> Result<bool, Stop>
    requires room { volume_bytes session.old.geometry ≤ (H.outside host.old).size }
    ensures only { OnlyFrames (H.outside host.old) (H.outside host.new) session.old session.new }
    ensures alone { IfOk result (λ alone. IfShown (H.outside host.old) session.old
        (λ before. (told : TellsVersion before version.now.oid version.now.found) → alone
        ≡ is_only_one (versions_of (shown before.machine)) (Some told.version))) }
    ensures stops { IfErr result (LineStops (H.outside host.old) (H.outside host.new)) }
    ensures damage { IfErr result (TellsFor (H.outside host.old) (H.outside host.new)
        session.old (version_for version.now.oid ToRelate)) }
    ensures sound { IfErr result (λ why. IfShown (H.outside host.old) session.old
        (λ before. TellsVersion before version.now.oid version.now.found → IsOutside why)) }
{
    if version.found.head.older.is_none() {
        return Ok(false);
    }
    let oids = session.relatives(alloc, host, &version.oid, Relation::Older)?;
    let Some(older) = oids.first() else {
        return Ok(false);
    };
    match session.find_version(alloc, host, older)? {
        Some(found) => Ok(found.head.newer.is_some()),
        None => Ok(false),
    }
}

/// How many versions are derived from a frozen one. It stops as `relatives` does.
pub(crate) fn branches<H: Host>(
    session: &mut Session,
    alloc: Global,
    host: &mut H,
    version: &Named,
) -> Result<u64, Stop>
    requires room { volume_bytes session.old.geometry ≤ (H.outside host.old).size }
    ensures only { OnlyFrames (H.outside host.old) (H.outside host.new) session.old session.new }
    ensures count { IfOk result (λ count. IfShown (H.outside host.old) session.old
        (λ before. (told : TellsVersion before version.now.oid version.now.found)
        → told.version.frozen ≡ true → count
        ≡ branches_if (versions_of (shown before.machine)) (Some told.version))) }
    ensures stops { IfErr result (LineStops (H.outside host.old) (H.outside host.new)) }
    ensures damage { IfErr result (TellsFor (H.outside host.old) (H.outside host.new)
        session.old (version_for version.now.oid ToRelate)) }
    ensures sound { IfErr result (λ why. IfShown (H.outside host.old) session.old
        (λ before. TellsVersion before version.now.oid version.now.found → IsOutside why)) }
{
    if version.found.head.newer.is_some() {
        return Ok(1);
    }
    let oids = session.relatives(alloc, host, &version.oid, Relation::Derived)?;
    Ok(oids.len() as u64)
}
