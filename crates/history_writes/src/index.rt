//! The index over pages in a row, level by level on the pages behind them.
ghost use Rattle.std.specs.Prelude.{◌≡◌, ◌≤◌, ◌<◌, ◌+◌, ◌/◌, ◌^◌, [], ◌∷◌, ◌++◌, length, IfErr, IfOk, OnOk};
ghost use Rattle.disk_model.specs.Changes.{ChangesWithin};
ghost use Rattle.even_indexes.specs.Levels.{pages_over};
ghost use Rattle.ex_base.specs.Area.{area_end, catalog_no};
ghost use Rattle.ex_base.specs.Ports.{HasCause, IsDamage};
ghost use Rattle.ex_base.specs.Sizes.{volume_bytes};
ghost use Rattle.file_index.specs.Nodes.{heads};
ghost use Rattle.history_writes.specs.Indexed.{Indexes, LevelWritten, from_on, leaves_from};
ghost use Rattle.history_writes.specs.Places.{InPagesFrom};

use disk_model::Disk;
use even_indexes::{pages_over, write_share};
use ex_base::{Geometry, PageNo, PortFault};
use file_index::Entry;
use std::alloc::{AllocError, Global};

/// An index that was written: its level, its root, and the first page behind it.
#[derive(Clone, Copy, Debug)]
pub struct IndexEnd {
    pub level: u8,
    pub root: PageNo,
    pub next: u32,
}

/// The entries of so many pages in a row.
fn leaves_of(alloc: Global, first: u32, pages: u32) -> Result<Vec<Entry>, AllocError>
    requires { first + pages < 2 ^ 32 }
    ensures { IfOk result (λ leaves. leaves.items ≡ leaves_from first pages) }
{
    let mut leaves = Vec::with_capacity(alloc, pages as usize)?;
    'pages: for index in 0..pages {
        let page = first + index;
        leaves.push(Entry {
            key: page,
            page: PageNo(page),
        })?;
    }
    Ok(leaves)
}

/// The pages of a level: the file that they are of, the level, and the first of them.
#[derive(Clone, Copy)]
struct Level {
    file_no: u32,
    number: u8,
    first: u32,
}

/// Puts an entry behind the others.
fn put_entry(entries: &mut Vec<Entry>, entry: Entry) -> Result<(), AllocError>
    ensures { OnOk result (entries.new.items ≡ entries.old.items ++ entry ∷ []) }
{
    entries.push(entry)?;
    Ok(())
}

/// Writes the pages of a level over the entries below it, and answers the entries that name them. Each page is made in `page`.
fn write_level<D: Disk>(
    alloc: Global,
    disk: &mut D,
    geometry: &Geometry,
    level: Level,
    below: &[Entry],
    page: &mut [u8],
) -> Result<Vec<Entry>, PortFault>
    requires room { volume_bytes geometry.now ≤ (D.outside disk.old).size }
    requires below { (1 ≤ length below.now) × (length below.now < 2 ^ 32) }
    requires behind { catalog_no < level.first }
    requires there { level.first + pages_over geometry.now.page_size (length below.now)
        ≤ area_end geometry.now }
    requires page { length page.old ≡ geometry.now.page_size }
    ensures level { IfOk result (λ above. LevelWritten geometry.now (D.outside disk.old)
        (D.outside disk.new) level below.now above.items) }
    ensures count { IfOk result (λ above. length above.items
        ≡ pages_over geometry.now.page_size (length below.now)) }
    ensures heads { IfOk result
        (λ above. heads above.items ≡ from_on level.first (length above.items)) }
    ensures page { length page.new ≡ geometry.now.page_size }
    ensures changes { ChangesWithin (InPagesFrom geometry.now level.first) (D.outside disk.old)
        (D.outside disk.new) }
    ensures no_damage { IfErr result (λ fault. IsDamage fault → ⊥) }
    ensures cause { HasCause (D.outside disk.old).disk_faults
        (D.outside disk.new).disk_faults result }
{
    let mut above = Vec::new(alloc);
    'shares: for index in 0..pages_over(page.len(), below.len()) {
        let at = PageNo(level.first + index as u32);
        let key = write_share(level.number, level.file_no, below, index, page);
        disk.write(geometry.home(at), page)?;
        put_entry(&mut above, Entry { key, page: at })?;
    }
    Ok(above)
}

/// Writes the index of a file over its pages, which are so many in a row, to those behind them. A file of one page has none. It takes at most a sixteenth of the file's
/// pages, and four. Each page is made in `page`.
pub fn write_index_over<D: Disk>(
    alloc: Global,
    disk: &mut D,
    geometry: &Geometry,
    file_no: u32,
    first: PageNo,
    pages: u32,
    page: &mut [u8],
) -> Result<IndexEnd, PortFault>
    requires room { volume_bytes geometry.now ≤ (D.outside disk.old).size }
    requires some { 1 ≤ pages }
    requires behind { catalog_no < first.0 }
    requires there { first.0 + (pages + (pages / 16 + 4)) ≤ area_end geometry.now }
    requires page { length page.old ≡ geometry.now.page_size }
    ensures indexes { IfOk result (Indexes geometry.now (D.outside disk.old)
        (D.outside disk.new) file_no first.0 pages) }
    ensures behind { IfOk result (λ end. first.0 + pages ≤ end.next) }
    ensures few { IfOk result (λ end. end.next ≤ first.0 + (pages + (pages / 16 + 4))) }
    ensures root { IfOk result (λ end. first.0 ≤ end.root.0) }
    ensures low { IfOk result (λ end. end.level ≤ 4) }
    ensures page { length page.new ≡ geometry.now.page_size }
    ensures changes { ChangesWithin (InPagesFrom geometry.now (first.0 + pages))
        (D.outside disk.old) (D.outside disk.new) }
    ensures no_damage { IfErr result (λ fault. IsDamage fault → ⊥) }
    ensures cause { HasCause (D.outside disk.old).disk_faults
        (D.outside disk.new).disk_faults result }
{
    let mut entries = leaves_of(alloc, first.0, pages)?;
    let mut level = 0;
    let mut next = first.0 + pages;
    'levels: while entries.len() > 1 {
        level += 1;
        let over = Level {
            file_no,
            number: level,
            first: next,
        };
        entries = write_level(alloc, disk, geometry, over, &entries, page)?;
        next += entries.len() as u32;
    }
    Ok(IndexEnd {
        level,
        root: entries[0].page,
        next,
    })
}
