//! What commands tell of a session.
ghost use Rattle.std.specs.Prelude.{◌≡◌, ◌≤◌, map, IfOk};
ghost use Rattle.ex_base.specs.Sizes.{volume_bytes};
ghost use Rattle.object_files.specs.Catalog.{name_of};
ghost use Rattle.table_model.specs.Requests as request;
ghost use Rattle.session_core.specs.Counts.{used_of};
ghost use Rattle.session_core.specs.Steps.{StepsQuietly};

use disk_model::Host;
use ex_base::Area;
use object_files::CatalogView;
use session_core::{Session, view_of};
use session_views::Stop;
use std::alloc::{AllocError, Global};
use table_model::{Name, Names, Reply};

/// The names of the files, in byte order.
fn names_of(alloc: Global, catalog: &CatalogView<'_>) -> Result<Names, AllocError>
    ensures { IfOk result (λ names. names ≡ map name_of catalog.now.entries) }
{
    let mut names = Names::make(alloc);
    for index in 0..catalog.len() {
        names.push(Name::of_bytes(alloc, catalog.entry(index).name)?)?;
    }
    Ok(names)
}

/// Tells how many records of the log count.
pub(crate) fn log(session: &Session) -> Reply
    ensures { result ≡ Reply.Log session.now.log.count }
{
    Reply::Log {
        records: session.log_records(),
    }
}

/// Lists the names of the files.
pub(crate) fn files<H: Host>(
    session: &mut Session,
    alloc: Global,
    host: &mut H,
) -> Result<Reply, Stop>
    requires room { volume_bytes session.old.geometry ≤ (H.outside host.old).size }
    ensures { StepsQuietly (H.outside host.old)
        (H.outside host.new) session.old session.new request.Files result }
{
    let page = session.catalog(alloc, host)?;
    match names_of(alloc, &view_of(&page)) {
        Ok(names) => Ok(Reply::Files { names }),
        Err(_) => Err(Stop::Memory),
    }
}

/// Tells how many units of each area are in use.
pub(crate) fn space(session: &Session) -> Reply
    ensures { result ≡ Reply.Space (used_of session.now Area.Page) session.now.geometry.pages
        (used_of session.now Area.Segment) session.now.geometry.segs }
{
    Reply::Space {
        pages: session.used(Area::Page),
        of_pages: session.geometry().pages,
        segs: session.used(Area::Segment),
        of_segs: session.geometry().segs,
    }
}
