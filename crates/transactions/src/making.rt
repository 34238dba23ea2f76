//! A version is made under the next unique number, and the name bound to it, where there is one.
ghost use Rattle.std.specs.Prelude.{◌≡◌, ◌≤◌, ◌++◌, None, false, true, option_map, IfOk, IfErr, OnOk, OnErr, IsTrue};
ghost use Rattle.ex_base.specs.Sizes.{volume_bytes};
ghost use Rattle.ex_base.specs.declared.names.Area.TheVariants.{Page};
ghost use Rattle.table_model.specs.Machines.{bound_if};
ghost use Rattle.session_core.specs.Counts.{free_in};
ghost use Rattle.session_core.specs.Finding.{IsOutside, LineStops};
ghost use Rattle.session_core.specs.Performed.{CanPerform, IsCopying, asked_of};
ghost use Rattle.session_core.specs.Sessions.{TakesLogged};
ghost use Rattle.session_core.specs.Updates.{HasRoomFor, IfUpdated};
ghost use Rattle.transactions.specs.Editing.{room_refusal};
ghost use Rattle.transactions.specs.Lines.{WentOn};
ghost use Rattle.transactions.specs.Making.{MakesVersion, is_bound_if, making_need, number_in, takes_if};
ghost use Rattle.session_core.specs.Damage.{TellsFor};
ghost use Rattle.page_alloc.specs.UnitSet.{used_at};

use crate::edits::Need;
use crate::removal::object_note;
use disk_model::Host;
use ex_base::{NoteKind, Oid};
use object_files::CatalogView;
use session_core::{ObjectUpdate, Session};
use session_views::Stop;
use std::alloc::{AllocError, Global};
use table_model::Refusal;

/// What a new version may take: the pages of its record and of its file's index, and as many logged pages that it touches.
pub(crate) const MAKING_NEED: Need = Need {
    charge: 16,
    pages: 16,
    segs: 0,
};

/// The next unique number of a catalog, or why there is none.
pub(crate) fn next_number(catalog: &CatalogView<'_>) -> Result<u64, Refusal>
    ensures { result ≡ number_in catalog.now }
{
    let unique = catalog.next_unique();
    if unique == u64::MAX {
        return Err(Refusal::IdsSpent);
    }
    Ok(unique)
}

/// Whether there is a name, and something has it in the session.
pub(crate) fn is_taken(session: &Session, bind: Option<&[u8]>) -> bool
    ensures { result ≡ takes_if session.now (option_map (λ name. name.now) bind.entry) }
{
    match bind {
        Some(name) => session.is_taken(name),
        None => false,
    }
}

/// Binds the name, where there is one, to a version. Where there is no memory, nothing changes.
fn bind_if(
    session: &mut Session,
    alloc: Global,
    bind: Option<&[u8]>,
    oid: Oid,
) -> Result<(), AllocError>
    requires { is_bound_if session.old.names (option_map (λ name. name.now) bind) ≡ false }
    ensures ok { OnOk result (session.new ≡ record session.old {
      names = session.old.names ++ bound_if (option_map (λ name. name.now) bind.entry) oid;
    }) }
    ensures err { OnErr result (session.new ≡ session.old) }
{
    match bind {
        Some(name) => session.bind(alloc, name, oid),
        None => Ok(()),
    }
}

/// Makes a version, for which there is room, and binds the name to it, where there is one.
pub(crate) fn make<H: Host>(
    session: &mut Session,
    alloc: Global,
    host: &mut H,
    update: &ObjectUpdate<'_>,
    kind: NoteKind,
    bind: Option<&[u8]>,
) -> Result<Oid, Stop>
    requires room { volume_bytes session.old.geometry ≤ (H.outside host.old).size }
    requires is_open { session.old.opened ≡ true }
    requires has_room { room_refusal session.old making_need ≡ None }
    requires can { CanPerform update.now (free_in session.old Page) }
    requires unbound { is_bound_if session.old.names (option_map (λ name. name.now) bind) ≡ false }
    ensures went { WentOn (H.outside host.old) (H.outside host.new) session.old session.new }
    ensures made { IfOk result (λ oid. MakesVersion (H.outside host.old) (H.outside host.new)
        session.old session.new update.now kind (option_map (λ name. name.now) bind.entry) oid) }
    ensures shares { IsCopying update.now → OnOk result
        (TakesLogged session.old.units session.new.units session.new.pages) }
    ensures stops { IfErr result (LineStops (H.outside host.old) (H.outside host.new)) }
    ensures damage { IsTrue (H.outside host.old).honest
        → IfErr result (TellsFor (H.outside host.old) (H.outside host.new)
        session.old (asked_of (used_at session.old.units) (free_in session.old) update.now)) }
    ensures sound { IfErr result (λ why. IfUpdated (H.outside host.old) session.old update.now
        (λ before u. HasRoomFor before u → IsOutside why)) }
{
    let note = object_note(kind, &Oid::NONE);
    let oid = match session.update_objects(alloc, host, update, &note) {
        Ok(oid) => oid,
        Err(stop) => return Err(stop),
    };
    match bind_if(session, alloc, bind, oid) {
        Ok(()) => Ok(oid),
        Err(_) => Err(Stop::Memory),
    }
}
