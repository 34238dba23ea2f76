//! A page taken out of the index of a file.
ghost use Rattle.std.specs.Prelude.{◌≡◌, ◌⊎◌, ◌≤◌, ◌<◌, ◌+◌, ◌-◌, ◌*◌, ◌/◌, ◌∷◌, ◌++◌, [], ℕ, true, false, length, take, drop, IfOk, IfErr, OnOk};
ghost use Rattle.ex_base.specs.declared.names.Area.TheVariants.{Page, Segment};
ghost use Rattle.ex_base.specs.Area.{catalog_no};
ghost use Rattle.ex_base.specs.Ports.{HasCause, IsDamage};
ghost use Rattle.file_index.specs.IndexPage.{most_entries};
ghost use Rattle.file_index.specs.Changes.{Changes};
ghost use Rattle.file_index.specs.Index.{IsFilesPage, HasRoot, index_level_most};
ghost use Rattle.file_index.specs.Nodes.{IsWritten, RemovesLeaf, first_key};
ghost use Rattle.file_index.specs.Edits.{IsRow, Becomes, HasIndex, EditsIndex, ShrinksTo, take_out};
ghost use Rattle.file_index.specs.Damage.{IsWayUnder, IsFaultUnder, IsBesideUnder, IsGoneFault, HasWay, IsLone, IsLeft, IsRemovalFault};
ghost use Rattle.file_index.specs.Touches.{TouchesAtMost, index_touches, touches_below};
ghost use Rattle.file_index.specs.Taking.{OnlyGives};

use crate::Entry;
use crate::named::{Named, most_entries, no_index_page};
use crate::nodes::{entries_at, page_buffer, put_index};
use crate::rows::{place_of, replace_one, replace_two};
use crate::spreading::{Pair, spread};
use ex_base::{Index, PageNo, Pages, PortFault};
use std::alloc::Global;

/// Takes a page of the file out of the entries, where it is the key's, and answers whether they changed.
fn remove_leaf(entries: &mut Vec<Entry>, at: usize, leaf: Entry, key: u32) -> bool
    requires { at < length entries.old.items }
    ensures { RemovesLeaf key at leaf entries.old.items entries.new.items result }
{
    if leaf.key != key {
        return false;
    }
    entries.remove(at);
    true
}

/// Writes the entries of a child that has enough of them, and answers whether its own entry changed.
fn write_child<P: Pages>(
    pages: &mut P,
    alloc: Global,
    named: &Named,
    entries: &mut Vec<Entry>,
    at: usize,
    below: &[Entry],
    buffer: &mut [u8],
) -> Result<bool, PortFault>
    requires ready { P.ready pages.old }
    requires at { at < length entries.old.items }
    requires page { IsFilesPage (P.geometry pages.old) named.now.page.0 }
    requires held { P.held pages.old named.now.page.0 ≡ true }
    requires level { 1 ≤ named.now.level }
    requires some { 1 ≤ length below.now }
    requires room { length below.now ≤ most_entries (P.geometry pages.old).page_size }
    requires buffer { length buffer.old ≡ (P.geometry pages.old).page_size }
    ensures written { OnOk result (P.tells pages.old
        → IsWritten P.Ground pages.new named.now.page.0
        named.now.level named.now.file_no below.now) }
    ensures changes { OnOk result (Changes P.Ground pages.old pages.new (named.now.page.0
        ∷ []) (named.now.page.0 ∷ [])) }
    ensures items { OnOk result (entries.new.items ≡ take at entries.old.items
        ++ ((record { key = first_key below.now; page = named.now.page } ∷ [])
        ++ drop (at + 1) entries.old.items)) }
    ensures same { IfOk result (λ changed. changed ≡ false
        → named.now.least ≡ Some (first_key below.now)) }
    ensures free { OnOk result (P.free pages.new ≡ P.free pages.old) }
    ensures gives { OnOk result (OnlyGives P.Ground pages.old pages.new) }
    ensures catalog { OnOk result (P.image pages.new catalog_no ≡ P.image pages.old catalog_no) }
    ensures touches { OnOk result (TouchesAtMost P.Ground pages.old pages.new 1) }
    ensures leads { P.leads pages.old pages.new }
    ensures no_damage { IfErr result (λ fault. IsDamage fault → ⊥) }
    ensures cause { HasCause (P.faults pages.old) (P.faults pages.new) result }
{
    match put_index(pages, alloc, named, below, buffer) {
        Ok(()) => {}
        Err(fault) => return Err(fault),
    }
    let first = Entry {
        key: below[0].key,
        page: named.page,
    };
    match replace_one(entries, at, first, None) {
        Ok(()) => Ok(named.least != Some(first.key)),
        Err(fault) => Err(fault),
    }
}

/// Tells an index page as damaged that a removal below it gave back. In a whole index no page stands below itself.
fn still_held<P: Pages>(pages: &P, named: &Named) -> Result<(), PortFault>
    requires ready { P.ready pages.now }
    requires page { IsFilesPage (P.geometry pages.now) named.now.page.0 }
    ensures held { OnOk result (P.held pages.now named.now.page.0 ≡ true) }
    ensures gone { IfErr result (λ fault. IsGoneFault (P.held pages.now)
        named.now.level named.now.least named.now.page.0 fault) }
    ensures cause { (before now : ℕ) → HasCause before now result }
{
    if pages.has(named.page) {
        return Ok(());
    }
    Err(no_index_page(named))
}

/// Takes a key out from under the entries of an index page of a level, and answers whether they changed.
fn remove_among<P: Pages>(
    pages: &mut P,
    alloc: Global,
    level: u8,
    file_no: u32,
    entries: &mut Vec<Entry>,
    key: u32,
    buffer: &mut [u8],
) -> Result<bool, PortFault>
    requires ready { P.ready pages.old }
    requires level { 1 ≤ level }
    requires some { 2 ≤ length entries.old.items }
    requires many { length entries.old.items ≤ most_entries (P.geometry pages.old).page_size }
    requires buffer { length buffer.old ≡ (P.geometry pages.old).page_size }
    ensures removes { OnOk result (P.tells pages.old
        → IsRow P.Ground pages.old file_no (level - 1) entries.old.items
        → Becomes P.Ground pages.old pages.new file_no (level - 1)
        (take_out key) entries.old.items entries.new.items) }
    ensures same { IfOk result (λ changed. changed ≡ false
        → entries.new.items ≡ entries.old.items) }
    ensures fewer { OnOk result ((length entries.new.items ≤ length entries.old.items)
        × (length entries.old.items ≤ length entries.new.items + 1)) }
    ensures lone { OnOk result (length entries.new.items ≤ 1
        → IsLone entries.old.items entries.new.items) }
    ensures free { OnOk result (P.free pages.old Page ≤ P.free pages.new Page) }
    ensures gives { OnOk result (OnlyGives P.Ground pages.old pages.new) }
    ensures sound { IfErr result (λ fault. IsDamage fault → P.tells pages.old
        → IsRow P.Ground pages.old file_no (level - 1) entries.old.items → ⊥) }
    ensures fault { IfErr result (λ fault. P.tells pages.old
        → IsFaultUnder (P.geometry pages.old) (P.held pages.old) (P.image pages.old) file_no
        key (level - 1) entries.old.items fault
        ⊎ IsBesideUnder (P.geometry pages.old) (P.image pages.old) (P.held pages.new)
        (P.image pages.new) file_no key (level - 1) entries.old.items fault) }
    ensures way { OnOk result (P.tells pages.old
        → IsWayUnder (P.geometry pages.old) (P.image pages.old) file_no key
        (level - 1) entries.old.items) }
    ensures catalog { OnOk result (P.image pages.new catalog_no ≡ P.image pages.old catalog_no) }
    ensures leaves { OnOk result (P.free pages.new Segment ≡ P.free pages.old Segment) }
    ensures touches { OnOk result
        (TouchesAtMost P.Ground pages.old pages.new (touches_below level)) }
    ensures leads { P.leads pages.old pages.new }
    ensures cause { HasCause (P.faults pages.old) (P.faults pages.new) result }
{
    let at = place_of(entries, key);
    let child = entries[at];
    if level == 1 {
        return Ok(remove_leaf(entries, at, child, key));
    }
    let named = Named {
        page: child.page,
        level: level - 1,
        least: Some(child.key),
        file_no,
    };
    let mut below = match entries_at(pages, alloc, &named) {
        Ok(below) => below,
        Err(fault) => return Err(fault),
    };
    match remove_among(pages, alloc, level - 1, file_no, &mut below, key, buffer) {
        Ok(true) => still_held(pages, &named)?,
        Ok(false) => return Ok(false),
        Err(fault) => return Err(fault),
    }
    if below.len() >= most_entries(buffer.len()) / 2 {
        return write_child(pages, alloc, &named, entries, at, &below, buffer);
    }
    let first = at.saturating_sub(1);
    let pair = Pair {
        left: entries[first],
        right: entries[first + 1],
        thin_is_left: at == 0,
        level: level - 1,
        file_no,
    };
    match spread(pages, alloc, &pair, below, buffer) {
        Ok((left, right)) => {
            replace_two(entries, first, left, right);
            Ok(true)
        }
        Err(fault) => Err(fault),
    }
}

/// Takes a page out of an index that has an index page.
fn remove_below<P: Pages>(
    pages: &mut P,
    alloc: Global,
    index: &Index,
    root: PageNo,
    key: PageNo,
) -> Result<Index, PortFault>
    requires ready { P.ready pages.old }
    requires level { 1 ≤ index.now.level }
    requires root { index.now.root ≡ Some root }
    ensures removes { IfOk result (λ left. P.tells pages.old → HasIndex P.Ground pages.old index.now
        → EditsIndex P.Ground pages.old pages.new (take_out key.0) index.now left) }
    ensures shrinks { IfOk result (λ left. ShrinksTo index.now left) }
    ensures left { IfOk result (λ left. P.tells pages.old
        → IsLeft (P.image pages.old) index.now left) }
    ensures free { OnOk result (P.free pages.old Page ≤ P.free pages.new Page) }
    ensures gives { OnOk result (OnlyGives P.Ground pages.old pages.new) }
    ensures sound { IfErr result (λ fault. IsDamage fault → P.tells pages.old
        → HasIndex P.Ground pages.old index.now → ⊥) }
    ensures fault { IfErr result (λ fault. P.tells pages.old
        → IsRemovalFault (P.geometry pages.old) (P.held pages.old) (P.image pages.old)
        (P.held pages.new) (P.image pages.new) index.now key.0 fault) }
    ensures way { OnOk result (P.tells pages.old
        → HasWay (P.geometry pages.old) (P.image pages.old) index.now key.0) }
    ensures catalog { OnOk result (P.image pages.new catalog_no ≡ P.image pages.old catalog_no) }
    ensures leaves { OnOk result (P.free pages.new Segment ≡ P.free pages.old Segment) }
    ensures touches { OnOk result
        (TouchesAtMost P.Ground pages.old pages.new (2 * index.now.level)) }
    ensures leads { P.leads pages.old pages.new }
    ensures cause { HasCause (P.faults pages.old) (P.faults pages.new) result }
{
    let named = Named {
        page: root,
        level: index.level,
        least: None,
        file_no: index.file_no,
    };
    let mut buffer = match page_buffer(pages, alloc) {
        Ok(buffer) => buffer,
        Err(fault) => return Err(fault),
    };
    let mut entries = match entries_at(pages, alloc, &named) {
        Ok(entries) => entries,
        Err(fault) => return Err(fault),
    };
    match remove_among(
        pages,
        alloc,
        named.level,
        named.file_no,
        &mut entries,
        key.0,
        &mut buffer,
    ) {
        Ok(true) => still_held(pages, &named)?,
        Ok(false) => return Ok(*index),
        Err(fault) => return Err(fault),
    }
    if entries.len() > 1 {
        put_index(pages, alloc, &named, &entries, &mut buffer)?;
        return Ok(*index);
    }
    let only = entries[0].page;
    pages.give_page(alloc, root)?;
    Ok(Index {
        root: Some(only),
        level: index.level - 1,
        file_no: index.file_no,
    })
}

/// Takes a page out of the index of its file. Without the page nothing changes. An index page that has too few entries left is filled from the one
/// beside it or joined with it, and a root that names one page goes.
pub fn remove<P: Pages>(
    pages: &mut P,
    alloc: Global,
    index: &Index,
    key: PageNo,
) -> Result<Index, PortFault>
    requires ready { P.ready pages.old }
    requires level { index.now.level ≤ index_level_most }
    requires root { HasRoot index.now.level index.now.root }
    ensures removes { IfOk result (λ left. P.tells pages.old → HasIndex P.Ground pages.old index.now
        → EditsIndex P.Ground pages.old pages.new (take_out key.0) index.now left) }
    ensures shrinks { IfOk result (λ left. ShrinksTo index.now left) }
    ensures left { IfOk result (λ left. P.tells pages.old
        → IsLeft (P.image pages.old) index.now left) }
    ensures free { OnOk result (P.free pages.old Page ≤ P.free pages.new Page) }
    ensures gives { OnOk result (OnlyGives P.Ground pages.old pages.new) }
    ensures sound { IfErr result (λ fault. IsDamage fault → P.tells pages.old
        → HasIndex P.Ground pages.old index.now → ⊥) }
    ensures fault { IfErr result (λ fault. P.tells pages.old
        → IsRemovalFault (P.geometry pages.old) (P.held pages.old) (P.image pages.old)
        (P.held pages.new) (P.image pages.new) index.now key.0 fault) }
    ensures way { OnOk result (P.tells pages.old
        → HasWay (P.geometry pages.old) (P.image pages.old) index.now key.0) }
    ensures catalog { OnOk result (P.image pages.new catalog_no ≡ P.image pages.old catalog_no) }
    ensures leaves { OnOk result (P.free pages.new Segment ≡ P.free pages.old Segment) }
    ensures touches { OnOk result (TouchesAtMost P.Ground pages.old pages.new index_touches) }
    ensures leads { P.leads pages.old pages.new }
    ensures cause { HasCause (P.faults pages.old) (P.faults pages.new) result }
{
    let Some(root) = index.root else {
        return Ok(*index);
    };
    if index.level > 0 {
        return remove_below(pages, alloc, index, root, key);
    }
    if root != key {
        return Ok(*index);
    }
    Ok(Index {
        root: None,
        level: 0,
        file_no: index.file_no,
    })
}
