//! The pages of a file, as its index names them.
ghost use Rattle.std.specs.Prelude.{◌≡◌, ◌++◌, ℕ, map, None, IfOk, IfErr, OnOk};
ghost use Rattle.ex_base.specs.Ports.{Cause, Keeps, HasCause, IsDamage};
ghost use Rattle.ex_base.specs.declared.names.Index.{Index as IndexOf};
ghost use Rattle.file_bodies.specs.Bodies.{bodies_of};
ghost use Rattle.file_bodies.specs.Files.{HasFile};
ghost use Rattle.file_index.specs.Index.{IsFilesPage, IsNamed};
ghost use Rattle.file_index.specs.IndexPage.{entries_on};
ghost use Rattle.versions.specs.Listed.{AreReadable};
ghost use Rattle.record_lists.specs.Listed.{listed_of};
ghost use Rattle.record_lists.specs.Under.{IsReadable, rows_under};

use crate::Listed;
use crate::pages::list_page;
use ex_base::{Index, PageNo, PortFault, ReadVolume, Seen};
use file_index::{Entry, Named, checked};
use std::alloc::Global;

/// The fault of a page that isn't the index page that is named.
fn no_index(named: &Named) -> PortFault
    ensures damage { IsDamage result }
    ensures cause { (before now : ℕ) → Cause before now result }
{
    let least = match named.least {
        None => 0,
        Some(key) => u64::from(key),
    };
    PortFault::Damaged {
        page: named.page,
        want: Seen::index(named.level, least),
        got: Seen::NOTHING,
    }
}

/// The entries of an index page. Damage is told only where the page isn't what names it.
fn entries_at<V: ReadVolume>(
    volume: &mut V,
    alloc: Global,
    named: &Named,
) -> Result<Vec<Entry>, PortFault>
    requires { V.ready volume.old }
    ensures entries { IfOk result (λ entries. V.tells volume.old
        → entries.items ≡ entries_on (V.image volume.old named.now.page.0)) }
    ensures sound { IfErr result (λ fault. IsDamage fault → V.tells volume.old
        → IsFilesPage (V.geometry volume.old) named.now.page.0
        → IsNamed (V.geometry volume.old).page_size
        (V.image volume.old named.now.page.0) named.now.level named.now.file_no named.now.least
        → ⊥) }
    ensures kept { Keeps V.Ground volume.old volume.new }
    ensures cause { HasCause (V.faults volume.old) (V.faults volume.new) result }
{
    if !volume.in_area(named.page) || named.page == PageNo::CATALOG {
        return Err(no_index(named));
    }
    let page = volume.get(alloc, named.page)?;
    match checked(page, named) {
        Ok(view) => Ok(view.to_entries(alloc)?),
        Err(fault) => Err(fault),
    }
}

/// Lists the records on the pages of a file that what is named leads to, behind others. Damage is told only where it isn't a whole index, one of these pages
/// isn't one of the file, or a body isn't a record.
fn list_under<V: ReadVolume>(
    volume: &mut V,
    alloc: Global,
    named: Named,
    records: &mut Vec<Listed>,
) -> Result<(), PortFault>
    requires { V.ready volume.old }
    ensures listed { OnOk result (V.tells volume.old → records.new.items ≡ records.old.items
        ++ map listed_of (rows_under (V.image volume.old) named.level named.page.0)) }
    ensures sound { IfErr result (λ fault. IsDamage fault → V.tells volume.old
        → IsReadable (V.geometry volume.old) (V.image volume.old) named → ⊥) }
    ensures kept { Keeps V.Ground volume.old volume.new }
    ensures cause { HasCause (V.faults volume.old) (V.faults volume.new) result }
{
    if named.level == 0 {
        return list_page(volume, alloc, named.page, named.file_no, records);
    }
    let entries = entries_at(volume, alloc, &named)?;
    for entry in &entries {
        let child = Named {
            page: entry.page,
            level: named.level - 1,
            least: Some(entry.key),
            file_no: named.file_no,
        };
        list_under(volume, alloc, child, records)?;
    }
    Ok(())
}

/// Lists the records of the file that has an index, behind others. Damage is told only where the file isn't whole or a body isn't a record.
pub(crate) fn list_index<V: ReadVolume>(
    volume: &mut V,
    alloc: Global,
    index: &Index,
    records: &mut Vec<Listed>,
) -> Result<(), PortFault>
    requires { V.ready volume.old }
    ensures listed { OnOk result (V.tells volume.old → records.new.items ≡ records.old.items
        ++ map listed_of (bodies_of (V.image volume.old) index.now)) }
    ensures sound { IfErr result (λ fault. IsDamage fault → V.tells volume.old
        → HasFile V.Ground volume.old index.now
        → AreReadable (bodies_of (V.image volume.old) index.now) → ⊥) }
    ensures kept { Keeps V.Ground volume.old volume.new }
    ensures cause { HasCause (V.faults volume.old) (V.faults volume.new) result }
{
    let Some(page) = index.root else {
        return Ok(());
    };
    let root = Named {
        page,
        level: index.level,
        least: None,
        file_no: index.file_no,
    };
    list_under(volume, alloc, root, records)
}
