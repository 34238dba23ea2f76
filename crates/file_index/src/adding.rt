//! A page put into the index of a file.
ghost use Rattle.std.specs.Prelude.{◌≡◌, ◌≤◌, ◌<◌, ◌+◌, ◌-◌, ℕ, true, false, length, IfOk, IfErr, OnOk};
ghost use Rattle.ex_base.specs.declared.names.Area.TheVariants.{Page, Segment};
ghost use Rattle.ex_base.specs.Area.{catalog_no};
ghost use Rattle.ex_base.specs.Ports.{HasCause, IsDamage};
ghost use Rattle.file_index.specs.IndexPage.{most_entries};
ghost use Rattle.ex_base.specs.declared.names.Index.{Index};
ghost use Rattle.file_index.specs.Index.{IsFilesPage, HasRoot, HasPlacedRoot, index_level_most};
ghost use Rattle.file_index.specs.Nodes.{PutsLeaf, leaves_of, IsRootOver};
ghost use Rattle.file_index.specs.Edits.{IsRow, Becomes, HasIndex, EditsIndex, GrowsTo, put_in};
ghost use Rattle.file_index.specs.Damage.{IsWayUnder, IsFaultUnder, HasWay, IsIndexFault, IsAddingFault};
ghost use Rattle.file_index.specs.Touches.{TouchesAtMost, index_touches, touches_below};
ghost use Rattle.file_index.specs.Taking.{OnlyTakes};

use crate::Entry;
use crate::named::{Named, no_index_page};
use crate::nodes::{entries_at, page_buffer, take_index};
use crate::rows::{entry_over, place_of, replace_one};
use crate::storing::store;
use ex_base::{INDEX_LEVEL_MOST, Index, PageNo, Pages, PortFault};
use std::alloc::Global;

/// Puts a page of the file beside the one that a key leads to, and answers whether the entries changed.
fn add_leaf(entries: &mut Vec<Entry>, at: usize, beside: Entry, key: u32) -> Result<bool, PortFault>
    requires { at < length entries.old.items }
    ensures added { IfOk result
        (λ changed. PutsLeaf key at beside entries.old.items entries.new.items changed) }
    ensures no_damage { IfErr result (λ fault. IsDamage fault → ⊥) }
    ensures cause { (before now : ℕ) → HasCause before now result }
{
    if beside.key == key {
        return Ok(false);
    }
    let leaf = Entry {
        key,
        page: PageNo(key),
    };
    let (first, second) = if key < beside.key {
        (leaf, beside)
    } else {
        (beside, leaf)
    };
    match replace_one(entries, at, first, Some(second)) {
        Ok(()) => Ok(true),
        Err(fault) => Err(fault),
    }
}

/// Puts a key under the entries of an index page of a level, and answers whether they changed.
fn add_among<P: Pages>(
    pages: &mut P,
    alloc: Global,
    level: u8,
    file_no: u32,
    entries: &mut Vec<Entry>,
    key: u32,
    buffer: &mut [u8],
) -> Result<bool, PortFault>
    requires ready { P.ready pages.old }
    requires level { 1 ≤ level }
    requires some { 1 ≤ length entries.old.items }
    requires many { length entries.old.items ≤ most_entries (P.geometry pages.old).page_size }
    requires buffer { length buffer.old ≡ (P.geometry pages.old).page_size }
    requires free { level ≤ P.free pages.old Page + 1 }
    ensures adds { OnOk result (P.tells pages.old → IsFilesPage (P.geometry pages.old) key
        → IsRow P.Ground pages.old file_no (level - 1) entries.old.items
        → Becomes P.Ground pages.old pages.new file_no (level - 1)
        (put_in key) entries.old.items entries.new.items) }
    ensures same { IfOk result (λ changed. changed ≡ false
        → entries.new.items ≡ entries.old.items) }
    ensures more { OnOk result ((length entries.old.items ≤ length entries.new.items)
        × (length entries.new.items ≤ length entries.old.items + 1)) }
    ensures free { OnOk result (P.free pages.old Page + 1 ≤ P.free pages.new Page + level) }
    ensures sound { IfErr result (λ fault. IsDamage fault → P.tells pages.old
        → IsRow P.Ground pages.old file_no (level - 1) entries.old.items → ⊥) }
    ensures fault { IfErr result (λ fault. P.tells pages.old
        → IsFaultUnder (P.geometry pages.old) (P.held pages.old) (P.image pages.old) file_no
        key (level - 1) entries.old.items fault) }
    ensures takes { OnOk result (OnlyTakes P.Ground pages.old pages.new) }
    ensures way { OnOk result (P.tells pages.old
        → IsWayUnder (P.geometry pages.old) (P.image pages.old) file_no key
        (level - 1) entries.old.items) }
    ensures catalog { OnOk result (P.image pages.new catalog_no ≡ P.image pages.old catalog_no) }
    ensures leaves { OnOk result (P.free pages.new Segment ≡ P.free pages.old Segment) }
    ensures touches { OnOk result
        (TouchesAtMost P.Ground pages.old pages.new (touches_below level)) }
    ensures leads { P.leads pages.old pages.new }
    ensures cause { HasCause (P.faults pages.old) (P.faults pages.new) result }
{
    let at = place_of(entries, key);
    let child = entries[at];
    if level == 1 {
        return add_leaf(entries, at, child, key);
    }
    let named = Named {
        page: child.page,
        level: level - 1,
        least: Some(child.key),
        file_no,
    };
    let mut below = match entries_at(pages, alloc, &named) {
        Ok(below) => below,
        Err(fault) => return Err(fault),
    };
    match add_among(pages, alloc, level - 1, file_no, &mut below, key, buffer) {
        Ok(true) => {}
        Ok(false) => return Ok(false),
        Err(fault) => return Err(fault),
    }
    let second = match store(pages, alloc, &named, &below, buffer) {
        Ok(second) => second,
        Err(fault) => return Err(fault),
    };
    let first = Entry {
        key: below[0].key,
        page: child.page,
    };
    let changed = first.key != child.key || second.is_some();
    match replace_one(entries, at, first, second) {
        Ok(()) => Ok(changed),
        Err(fault) => Err(fault),
    }
}

/// Puts a page of the file beside the only one.
fn add_second<P: Pages>(
    pages: &mut P,
    alloc: Global,
    index: &Index,
    root: PageNo,
    key: PageNo,
) -> Result<Index, PortFault>
    requires ready { P.ready pages.old }
    requires level { index.now.level ≡ 0 }
    requires root { index.now.root ≡ Some root }
    requires free { 1 ≤ P.free pages.old Page }
    ensures adds { IfOk result (λ added. P.tells pages.old
        → IsFilesPage (P.geometry pages.old) key.0 → HasIndex P.Ground pages.old index.now
        → EditsIndex P.Ground pages.old pages.new (put_in key.0) index.now added) }
    ensures grows { IfOk result (λ added. GrowsTo index.now added) }
    ensures placed { IfOk result (λ added. IsFilesPage (P.geometry pages.old) key.0
        → HasPlacedRoot (P.geometry pages.old) added.root) }
    ensures free { OnOk result (P.free pages.old Page ≤ P.free pages.new Page + 1) }
    ensures takes { OnOk result (OnlyTakes P.Ground pages.old pages.new) }
    ensures no_damage { IfErr result (λ fault. IsDamage fault → ⊥) }
    ensures catalog { OnOk result (P.image pages.new catalog_no ≡ P.image pages.old catalog_no) }
    ensures leaves { OnOk result (P.free pages.new Segment ≡ P.free pages.old Segment) }
    ensures touches { OnOk result (TouchesAtMost P.Ground pages.old pages.new 1) }
    ensures leads { P.leads pages.old pages.new }
    ensures cause { HasCause (P.faults pages.old) (P.faults pages.new) result }
{
    if root == key {
        return Ok(*index);
    }
    let mut buffer = match page_buffer(pages, alloc) {
        Ok(buffer) => buffer,
        Err(fault) => return Err(fault),
    };
    let top = two_leaves(root, key.0);
    take_root(pages, alloc, 1, index.file_no, &top, &mut buffer)
}

/// Takes a page for the entries of a new root, and answers the index that it makes.
fn take_root<P: Pages>(
    pages: &mut P,
    alloc: Global,
    level: u8,
    file_no: u32,
    top: &[Entry; 2],
    buffer: &mut [u8],
) -> Result<Index, PortFault>
    requires ready { P.ready pages.old }
    requires free { 1 ≤ P.free pages.old Page }
    requires level { 1 ≤ level }
    requires buffer { length buffer.old ≡ (P.geometry pages.old).page_size }
    ensures made { IfOk result
        (λ made. IsRootOver P.Ground pages.old pages.new level file_no top.now made) }
    ensures level { IfOk result (λ made. (made.level ≡ level) × (made.file_no ≡ file_no)
        × HasRoot made.level made.root) }
    ensures placed { IfOk result (λ made. HasPlacedRoot (P.geometry pages.old) made.root) }
    ensures free { OnOk result (P.free pages.new Page + 1 ≡ P.free pages.old Page) }
    ensures takes { OnOk result (OnlyTakes P.Ground pages.old pages.new) }
    ensures catalog { OnOk result (P.image pages.new catalog_no ≡ P.image pages.old catalog_no) }
    ensures touches { OnOk result (TouchesAtMost P.Ground pages.old pages.new 1) }
    ensures leads { P.leads pages.old pages.new }
    ensures no_damage { IfErr result (λ fault. IsDamage fault → ⊥) }
    ensures cause { HasCause (P.faults pages.old) (P.faults pages.new) result }
{
    match take_index(pages, alloc, level, file_no, top, buffer) {
        Ok(page) => Ok(Index {
            root: Some(page),
            level,
            file_no,
        }),
        Err(fault) => Err(fault),
    }
}

/// The entries of two pages of a file, in order.
fn two_leaves(page: PageNo, key: u32) -> [Entry; 2]
    ensures { result ≡ leaves_of key (record { key = page.0; page = page }) }
{
    let only = Entry { key: page.0, page };
    let leaf = Entry {
        key,
        page: PageNo(key),
    };
    if key < only.key {
        [leaf, only]
    } else {
        [only, leaf]
    }
}

/// Puts a page into an index that has an index page.
fn add_below<P: Pages>(
    pages: &mut P,
    alloc: Global,
    index: &Index,
    root: PageNo,
    key: PageNo,
) -> Result<Index, PortFault>
    requires ready { P.ready pages.old }
    requires level { (1 ≤ index.now.level) × (index.now.level ≤ index_level_most) }
    requires root { index.now.root ≡ Some root }
    requires free { index.now.level + 1 ≤ P.free pages.old Page }
    ensures adds { IfOk result (λ added. P.tells pages.old
        → IsFilesPage (P.geometry pages.old) key.0 → HasIndex P.Ground pages.old index.now
        → EditsIndex P.Ground pages.old pages.new (put_in key.0) index.now added) }
    ensures grows { IfOk result (λ added. GrowsTo index.now added) }
    ensures placed { IfOk result (λ added. IsFilesPage (P.geometry pages.old) key.0
        → HasPlacedRoot (P.geometry pages.old) added.root) }
    ensures free { OnOk result (P.free pages.old Page ≤ P.free pages.new Page
        + (index.now.level + 1)) }
    ensures takes { OnOk result (OnlyTakes P.Ground pages.old pages.new) }
    ensures sound { IfErr result (λ fault. IsDamage fault → P.tells pages.old
        → HasIndex P.Ground pages.old index.now → ⊥) }
    ensures fault { IfErr result (λ fault. P.tells pages.old
        → IsIndexFault (P.geometry pages.old) (P.held pages.old) (P.image pages.old)
        index.now key.0 fault) }
    ensures way { OnOk result (P.tells pages.old
        → HasWay (P.geometry pages.old) (P.image pages.old) index.now key.0) }
    ensures catalog { OnOk result (P.image pages.new catalog_no ≡ P.image pages.old catalog_no) }
    ensures leaves { OnOk result (P.free pages.new Segment ≡ P.free pages.old Segment) }
    ensures touches { OnOk result (TouchesAtMost P.Ground pages.old pages.new index_touches) }
    ensures leads { P.leads pages.old pages.new }
    ensures cause { HasCause (P.faults pages.old) (P.faults pages.new) result }
{
    let level = index.level;
    let file_no = index.file_no;
    let named = Named {
        page: root,
        level,
        least: None,
        file_no,
    };
    let mut buffer = match page_buffer(pages, alloc) {
        Ok(buffer) => buffer,
        Err(fault) => return Err(fault),
    };
    let mut entries = match entries_at(pages, alloc, &named) {
        Ok(entries) => entries,
        Err(fault) => return Err(fault),
    };
    match add_among(
        pages,
        alloc,
        level,
        file_no,
        &mut entries,
        key.0,
        &mut buffer,
    ) {
        Ok(true) => {}
        Ok(false) => return Ok(*index),
        Err(fault) => return Err(fault),
    }
    let second = match store(pages, alloc, &named, &entries, &mut buffer) {
        Ok(None) => return Ok(*index),
        Ok(Some(second)) => second,
        Err(fault) => return Err(fault),
    };
    let top = [entry_over(root, &entries), second];
    take_root(pages, alloc, level + 1, file_no, &top, &mut buffer)
}

/// A whole index has at most five levels, so that putting a page into one is never refused for its height.
pub fn a_whole_index_has_at_most_five_levels<P: Pages>()
    ensures { (s : P) (index : Index) → HasIndex P.Ground s index → index.level ≤ index_level_most }
{}

/// Puts a page into the index of its file. A page that the index has stays there. An index page that would get too many entries becomes two, of which
/// the left one has the greater half. The index gets a level more where its root becomes two pages. No whole index has a full root at level 5, since a volume
/// has fewer pages than stand under one: such a root is told as damaged.
pub fn add<P: Pages>(
    pages: &mut P,
    alloc: Global,
    index: &Index,
    key: PageNo,
) -> Result<Index, PortFault>
    requires ready { P.ready pages.old }
    requires level { index.now.level ≤ index_level_most }
    requires root { HasRoot index.now.level index.now.root }
    requires free { index.now.level + 1 ≤ P.free pages.old Page }
    ensures adds { IfOk result (λ added. P.tells pages.old
        → IsFilesPage (P.geometry pages.old) key.0 → HasIndex P.Ground pages.old index.now
        → EditsIndex P.Ground pages.old pages.new (put_in key.0) index.now added) }
    ensures grows { IfOk result (λ added. GrowsTo index.now added) }
    ensures placed { IfOk result (λ added. IsFilesPage (P.geometry pages.old) key.0
        → HasPlacedRoot (P.geometry pages.old) added.root) }
    ensures level { IfOk result (λ added. added.level ≤ index_level_most) }
    ensures free { OnOk result (P.free pages.old Page ≤ P.free pages.new Page
        + (index.now.level + 1)) }
    ensures takes { OnOk result (OnlyTakes P.Ground pages.old pages.new) }
    ensures sound { IfErr result (λ fault. IsDamage fault → P.tells pages.old
        → IsFilesPage (P.geometry pages.old) key.0 → HasIndex P.Ground pages.old index.now → ⊥) }
    ensures fault { IfErr result (λ fault. P.tells pages.old
        → IsAddingFault (P.geometry pages.old) (P.held pages.old) (P.image pages.old)
        index.now key.0 fault) }
    ensures way { OnOk result (P.tells pages.old
        → HasWay (P.geometry pages.old) (P.image pages.old) index.now key.0) }
    ensures catalog { OnOk result (P.image pages.new catalog_no ≡ P.image pages.old catalog_no) }
    ensures leaves { OnOk result (P.free pages.new Segment ≡ P.free pages.old Segment) }
    ensures touches { OnOk result (TouchesAtMost P.Ground pages.old pages.new index_touches) }
    ensures leads { P.leads pages.old pages.new }
    ensures cause { HasCause (P.faults pages.old) (P.faults pages.new) result }
{
    let Some(root) = index.root else {
        return Ok(Index {
            root: Some(key),
            level: 0,
            file_no: index.file_no,
        });
    };
    if index.level == 0 {
        return add_second(pages, alloc, index, root, key);
    }
    let added = add_below(pages, alloc, index, root, key)?;
    if added.level > INDEX_LEVEL_MOST {
        return Err(no_index_page(&Named {
            page: root,
            level: index.level,
            least: None,
            file_no: index.file_no,
        }));
    }
    Ok(added)
}
