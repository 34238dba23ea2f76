//! Entries written over one page or two.
ghost use Rattle.std.specs.Prelude.{◌≡◌, ◌≤◌, ◌<◌, ◌+◌, ◌∷◌, [], true, length, IfOk, IfErr, OnOk, option_to_list};
ghost use Rattle.ex_base.specs.declared.names.Area.TheVariants.{Page};
ghost use Rattle.ex_base.specs.Area.{catalog_no};
ghost use Rattle.ex_base.specs.Ports.{HasCause, IsDamage};
ghost use Rattle.file_index.specs.IndexPage.{most_entries};
ghost use Rattle.file_index.specs.Index.{IsFilesPage};
ghost use Rattle.file_index.specs.Changes.{Changes};
ghost use Rattle.file_index.specs.Nodes.{Stored, left_part, heads};
ghost use Rattle.file_index.specs.Touches.{TouchesAtMost};
ghost use Rattle.file_index.specs.Taking.{OnlyTakes};

use crate::Entry;
use crate::named::{Named, most_entries};
use crate::nodes::{put_index, take_index};
use ex_base::{Pages, PortFault};
use std::alloc::Global;

/// How many of so many entries stand on the left one of two pages.
pub fn left_part(len: usize) -> usize
    ensures { result ≡ left_part len }
{
    len - len / 2
}

/// Writes entries onto their page, and where they are too many the lesser half onto a new page, whose entry is the answer.
pub fn store<P: Pages>(
    pages: &mut P,
    alloc: Global,
    named: &Named,
    entries: &[Entry],
    buffer: &mut [u8],
) -> Result<Option<Entry>, PortFault>
    requires ready { P.ready pages.old }
    requires page { IsFilesPage (P.geometry pages.old) named.now.page.0 }
    requires held { P.held pages.old named.now.page.0 ≡ true }
    requires level { 1 ≤ named.now.level }
    requires some { 1 ≤ length entries.now }
    requires room { length entries.now ≤ most_entries (P.geometry pages.old).page_size + 1 }
    requires buffer { length buffer.old ≡ (P.geometry pages.old).page_size }
    requires free { 1 ≤ P.free pages.old Page }
    ensures stored { IfOk result (λ second. P.tells pages.old
        → Stored P.Ground pages.new named.now.page.0
        named.now.level named.now.file_no entries.now second) }
    ensures changes { IfOk result (λ second. Changes P.Ground pages.old pages.new (named.now.page.0
        ∷ []) (named.now.page.0 ∷ heads (option_to_list second))) }
    ensures free { OnOk result (P.free pages.old Page ≤ P.free pages.new Page + 1) }
    ensures takes { OnOk result (OnlyTakes P.Ground pages.old pages.new) }
    ensures catalog { OnOk result (P.image pages.new catalog_no ≡ P.image pages.old catalog_no) }
    ensures touches { OnOk result (TouchesAtMost P.Ground pages.old pages.new 2) }
    ensures leads { P.leads pages.old pages.new }
    ensures no_damage { IfErr result (λ fault. IsDamage fault → ⊥) }
    ensures cause { HasCause (P.faults pages.old) (P.faults pages.new) result }
{
    if entries.len() <= most_entries(buffer.len()) {
        put_index(pages, alloc, named, entries, buffer)?;
        return Ok(None);
    }
    let left = left_part(entries.len());
    let key = entries[left].key;
    let level = named.level;
    let file_no = named.file_no;
    let page = take_index(pages, alloc, level, file_no, &entries[left..], buffer)?;
    put_index(pages, alloc, named, &entries[..left], buffer)?;
    Ok(Some(Entry { key, page }))
}
