//! An object is made.
ghost use Rattle.std.specs.Prelude.{◌≡◌, ◌≤◌, option_map, IsTrue, IfErr};
ghost use Rattle.ex_base.specs.Sizes.{volume_bytes};
ghost use Rattle.table_model.specs.Words.{is_name};
ghost use Rattle.table_model.specs.Requests.{is_kept_name_if};
ghost use Rattle.transactions.specs.Editing.{new_object_in};
ghost use Rattle.table_model.specs.Requests as request;
ghost use Rattle.transactions.specs.Lines.{UpdatesLine};
ghost use Rattle.session_core.specs.Damage.{TellsDamage, no_version};

use crate::edits::refuses_room;
use crate::making::{MAKING_NEED, is_taken, make, next_number};
use crate::refuse::entry_named;
use disk_model::Host;
use ex_base::NoteKind;
use object_files::CatalogView;
use session_core::{ObjectUpdate, Session, view_of};
use session_views::Stop;
use std::alloc::Global;
use table_model::{Refusal, Reply};

/// The file that a new object is put into, and its number.
#[derive(Clone, Copy)]
pub(crate) struct NewObject {
    pub file_no: u32,
    pub unique: u64,
}

/// The place of a new object in a file, or why there is none.
fn new_object(catalog: &CatalogView<'_>, file: &[u8]) -> Result<NewObject, Refusal>
    ensures { result ≡ new_object_in catalog.now file.now }
{
    let Some(entry) = entry_named(catalog, file) else {
        return Err(Refusal::NoFile);
    };
    Ok(NewObject {
        file_no: entry.file_no,
        unique: next_number(catalog)?,
    })
}

/// Makes an object without bytes in a file, and binds the name to it, where there is one.
pub(crate) fn create<H: Host>(
    session: &mut Session,
    alloc: Global,
    host: &mut H,
    file: &[u8],
    bind: Option<&[u8]>,
) -> Result<Reply, Stop>
    requires room { volume_bytes session.old.geometry ≤ (H.outside host.old).size }
    requires file { IsTrue (is_name file.now) }
    requires name { IsTrue (is_kept_name_if (option_map (λ name. name.now) bind)) }
    ensures line { UpdatesLine (H.outside host.old) (H.outside host.new) session.old session.new
        (request.Create file.now (option_map (λ name. name.now) bind.entry)) result }
    ensures damage { IsTrue (H.outside host.old).honest
        → IfErr result (TellsDamage (H.outside host.old) (H.outside host.new)
        session.old no_version) }
{
    if !session.is_open() {
        return Ok(Reply::No(Refusal::NoTxn));
    }
    if is_taken(session, bind) {
        return Ok(Reply::No(Refusal::NameTaken));
    }
    let page = match session.catalog(alloc, host) {
        Ok(page) => page,
        Err(stop) => return Err(stop),
    };
    let made = match new_object(&view_of(&page), file) {
        Ok(made) => made,
        Err(why) => return Ok(Reply::No(why)),
    };
    if let Some(why) = refuses_room(session, &MAKING_NEED) {
        return Ok(Reply::No(why));
    }
    let update = ObjectUpdate::Create {
        file_no: made.file_no,
        unique: made.unique,
    };
    match make(session, alloc, host, &update, NoteKind::ObjectMade, bind) {
        Ok(oid) => Ok(Reply::Create { oid }),
        Err(stop) => Err(stop),
    }
}
