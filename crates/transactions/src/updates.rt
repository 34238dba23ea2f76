//! Files are made and removed.
ghost use Rattle.std.specs.Prelude.{◌≡◌, ◌≤◌, ◌<◌, ◌+◌, ◌-◌, ◌*◌, IsTrue, Contains, length, map};
ghost use Rattle.ex_base.specs.Sizes.{volume_bytes};
ghost use Rattle.object_files.specs.Catalog.{CatalogOf, IsName, name_of};
ghost use Rattle.object_files.specs.Edits.{IsCatalogPage, entries_on, with_entries, entry_inserted, new_file, without_name};
ghost use Rattle.object_files.specs.Reads.{catalog_on};
ghost use Rattle.table_model.specs.Words.{is_name};
ghost use Rattle.table_model.specs.Requests as request;
ghost use Rattle.session_core.specs.Steps.{StepsQuietly};

use crate::refuse::{refuses_file, refuses_unfile};
use disk_model::Host;
use ex_base::NoteKind;
use object_files::{add_file, remove_file};
use session_core::{Session, view_of};
use session_views::Stop;
use std::alloc::Global;
use table_model::{Name, Refusal, Reply};

/// Adds a file without pages to a copy of the catalog.
fn put_file(page: &mut Vec<u8>, name: &[u8]) -> u32
    requires page { IsCatalogPage page.old.items }
    requires name { IsName name.now }
    requires unused { ¬ Contains (map name_of (entries_on page.old.items)) name.now }
    requires room { 32 + 48 * (length (entries_on page.old.items) + 1) ≤ length page.old.items }
    ensures added { CatalogOf page.new.items (with_entries (catalog_on page.old.items)
        (entry_inserted (new_file name.now result) (entries_on page.old.items))) }
    ensures len { length page.new.items ≡ length page.old.items }
{
    add_file(page, name)
}

/// Removes a file from a copy of the catalog.
fn take_file(page: &mut Vec<u8>, name: &[u8])
    requires page { IsCatalogPage page.old.items }
    requires file { Contains (map name_of (entries_on page.old.items)) name.now }
    ensures removed { CatalogOf page.new.items (with_entries (catalog_on page.old.items)
        (without_name name.now (entries_on page.old.items))) }
    ensures len { length page.new.items ≡ length page.old.items }
{
    remove_file(page, name);
}

/// Makes an empty file.
pub(crate) fn file<H: Host>(
    session: &mut Session,
    alloc: Global,
    host: &mut H,
    name: &[u8],
) -> Result<Reply, Stop>
    requires room { volume_bytes session.old.geometry ≤ (H.outside host.old).size }
    requires name { IsTrue (is_name name.now) }
    ensures { StepsQuietly (H.outside host.old) (H.outside host.new) session.old session.new
        (request.File name.now) result }
{
    if !session.is_open() {
        return Ok(Reply::No(Refusal::NoTxn));
    }
    let mut page = session.catalog(alloc, host)?;
    if let Some(why) = refuses_file(session, &view_of(&page), name) {
        return Ok(Reply::No(why));
    }
    let _file_no = put_file(&mut page, name);
    if session
        .update_catalog(alloc, &page, NoteKind::FileMade)
        .is_err()
    {
        return Err(Stop::Memory);
    }
    match Name::of_bytes(alloc, name) {
        Ok(name) => Ok(Reply::File { name }),
        Err(_) => Err(Stop::Memory),
    }
}

/// Removes a file without objects.
pub(crate) fn unfile<H: Host>(
    session: &mut Session,
    alloc: Global,
    host: &mut H,
    name: &[u8],
) -> Result<Reply, Stop>
    requires room { volume_bytes session.old.geometry ≤ (H.outside host.old).size }
    requires name { IsTrue (is_name name.now) }
    ensures { StepsQuietly (H.outside host.old) (H.outside host.new) session.old session.new
        (request.Unfile name.now) result }
{
    if !session.is_open() {
        return Ok(Reply::No(Refusal::NoTxn));
    }
    let mut page = session.catalog(alloc, host)?;
    if let Some(why) = refuses_unfile(session, &view_of(&page), name) {
        return Ok(Reply::No(why));
    }
    take_file(&mut page, name);
    if session
        .update_catalog(alloc, &page, NoteKind::FileRemoved)
        .is_err()
    {
        return Err(Stop::Memory);
    }
    match Name::of_bytes(alloc, name) {
        Ok(name) => Ok(Reply::Unfile { name }),
        Err(_) => Err(Stop::Memory),
    }
}
