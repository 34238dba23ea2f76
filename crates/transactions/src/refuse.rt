//! Why updates are refused.
ghost use Rattle.std.specs.Prelude.{◌≡◌, ◌≤◌, option_map};
ghost use Rattle.object_files.specs.Reads.{entry_of};
ghost use Rattle.table_model.specs.Machines.{touched_most};
ghost use Rattle.volume_model.specs.Volume.{is_frozen};
ghost use Rattle.transactions.specs.Refused.{entry_named, file_refusal, unfile_refusal, long_txn, full_in};

use ex_base::{Area, TOUCHED_MOST, UPDATES_MOST};
use object_files::{CatalogView, Entry};
use object_records::State;
use session_core::Session;
use table_model::Refusal;
use versions::Found;

/// The pages that `file` may take.
const FILE_NEED: u64 = 2;

/// The logged pages that `file` and `unfile` may touch.
const FILE_CHARGE: u32 = 2;

/// The file with a name.
pub(crate) fn entry_named<'a>(catalog: &CatalogView<'a>, name: &[u8]) -> Option<Entry<'a>>
    ensures { option_map entry_of result ≡ entry_named catalog.now name.now }
{
    for index in 0..catalog.len() {
        let entry = catalog.entry(index);
        if entry.name == name {
            return Some(entry);
        }
    }
    None
}

/// Whether a version is frozen.
pub(crate) fn is_frozen(found: &Found) -> bool
    ensures { result ≡ is_frozen found.now.head.state }
{
    found.head.state == State::Frozen
}

/// Why the open transaction makes no file of this name.
pub(crate) fn refuses_file(
    session: &Session,
    catalog: &CatalogView<'_>,
    name: &[u8],
) -> Option<Refusal>
    ensures { result ≡ file_refusal session.now catalog.now name.now }
{
    if entry_named(catalog, name).is_some() {
        return Some(Refusal::FileExists);
    }
    if catalog.len() >= session.geometry().files_most() {
        return Some(Refusal::FilesFull);
    }
    if let Some(why) = refuses_touching(session, FILE_CHARGE) {
        return Some(why);
    }
    refuses_units(session, Area::Page, FILE_NEED)
}

/// Why the open transaction removes no file of this name.
pub(crate) fn refuses_unfile(
    session: &Session,
    catalog: &CatalogView<'_>,
    name: &[u8],
) -> Option<Refusal>
    ensures { result ≡ unfile_refusal session.now catalog.now name.now }
{
    match entry_named(catalog, name) {
        None => return Some(Refusal::NoFile),
        Some(entry) => {
            if entry.root.is_some() {
                return Some(Refusal::NotEmpty);
            }
        }
    }
    refuses_touching(session, FILE_CHARGE)
}

/// Why the open transaction accepts no update that may touch so many logged pages more.
pub(crate) fn refuses_touching(session: &Session, charge: u32) -> Option<Refusal>
    requires { charge ≤ touched_most }
    ensures { result ≡ long_txn session.now charge }
{
    let updates = session.updates();
    let touched = session.touched();
    if updates as usize >= UPDATES_MOST || touched > TOUCHED_MOST - charge {
        return Some(Refusal::LongTxn { updates, touched });
    }
    None
}

/// Why the open transaction takes no such number of units of an area.
pub(crate) fn refuses_units(session: &Session, area: Area, need: u64) -> Option<Refusal>
    ensures { result ≡ full_in session.now area need }
{
    Refusal::of_units(area, need, u64::from(session.free(area)))
}
