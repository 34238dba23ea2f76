//! The entries of two pages side by side, spread evenly over both or put onto one.
ghost use Rattle.std.specs.Prelude.{◌≡◌, ◌≢◌, ◌≤◌, ◌<◌, ◌*◌, ◌/◌, ◌∷◌, [], ℕ, true, length, IfOk, IfErr, OnOk, option_to_list};
ghost use Rattle.ex_base.specs.declared.names.Area.TheVariants.{Page};
ghost use Rattle.ex_base.specs.Area.{catalog_no};
ghost use Rattle.ex_base.specs.Ports.{HasCause, IsDamage};
ghost use Rattle.file_index.specs.IndexPage.{entries_on, most_entries};
ghost use Rattle.file_index.specs.Changes.{Changes};
ghost use Rattle.file_index.specs.Index.{IsFilesPage, IsNamed};
ghost use Rattle.file_index.specs.Damage.{IsPageFault};
ghost use Rattle.file_index.specs.Nodes.{Stored, heads, first_key, joined, beside_of, thin_of};
ghost use Rattle.file_index.specs.Touches.{TouchesAtMost};
ghost use Rattle.file_index.specs.Taking.{OnlyGives};

use crate::Entry;
use crate::named::{Named, most_entries};
use crate::nodes::{entries_at, put_index};
use crate::storing::left_part;
use ex_base::{PageNo, Pages, PortFault};
use std::alloc::Global;

/// Two pages side by side, one of which has too few entries.
#[derive(Clone, Copy, Debug, PartialEq, Eq)]
pub struct Pair {
    pub left: Entry,
    pub right: Entry,
    /// Whether the left page is the one with too few.
    pub thin_is_left: bool,
    /// The level of both pages.
    pub level: u8,
    pub file_no: u32,
}

/// The entries of a page and of the one beside it, in order.
fn join(own: Vec<Entry>, other: Vec<Entry>, own_is_left: bool) -> Result<Vec<Entry>, PortFault>
    ensures all { IfOk result (λ all. all.items ≡ joined own_is_left own.items other.items) }
    ensures no_damage { IfErr result (λ fault. IsDamage fault → ⊥) }
    ensures cause { (before now : ℕ) → HasCause before now result }
{
    let (mut left, right) = if own_is_left {
        (own, other)
    } else {
        (other, own)
    };
    match left.extend_from_slice(&right) {
        Ok(()) => Ok(left),
        Err(_) => Err(PortFault::Memory),
    }
}

/// Writes entries onto the left one of two pages, and gives the other back; where they are too many for one page, evenly onto both. The answer is the
/// entry of the right page, where it stays.
fn even_out<P: Pages>(
    pages: &mut P,
    alloc: Global,
    left: &Named,
    right: &Named,
    all: &[Entry],
    buffer: &mut [u8],
) -> Result<Option<Entry>, PortFault>
    requires ready { P.ready pages.old }
    requires left { IsFilesPage (P.geometry pages.old) left.now.page.0 }
    requires right { IsFilesPage (P.geometry pages.old) right.now.page.0 }
    requires held { (P.held pages.old left.now.page.0 ≡ true)
        × (P.held pages.old right.now.page.0 ≡ true) }
    requires level { 1 ≤ left.now.level }
    requires same { (right.now.level ≡ left.now.level) × (right.now.file_no ≡ left.now.file_no) }
    requires some { 1 ≤ length all.now }
    requires many { length all.now ≤ 2 * most_entries (P.geometry pages.old).page_size }
    requires buffer { length buffer.old ≡ (P.geometry pages.old).page_size }
    ensures stored { IfOk result (λ second. P.tells pages.old → left.now.page.0 ≢ right.now.page.0
        → Stored P.Ground pages.new left.now.page.0
        left.now.level left.now.file_no all.now second) }
    ensures changes { IfOk result (λ second. Changes P.Ground pages.old pages.new
        (left.now.page.0 ∷ right.now.page.0 ∷ [])
        (left.now.page.0 ∷ heads (option_to_list second))) }
    ensures free { OnOk result (P.free pages.old Page ≤ P.free pages.new Page) }
    ensures gives { OnOk result (OnlyGives P.Ground pages.old pages.new) }
    ensures catalog { OnOk result (P.image pages.new catalog_no ≡ P.image pages.old catalog_no) }
    ensures touches { OnOk result (TouchesAtMost P.Ground pages.old pages.new 2) }
    ensures leads { P.leads pages.old pages.new }
    ensures no_damage { IfErr result (λ fault. IsDamage fault → ⊥) }
    ensures cause { HasCause (P.faults pages.old) (P.faults pages.new) result }
{
    if all.len() <= most_entries(buffer.len()) {
        put_index(pages, alloc, left, all, buffer)?;
        pages.give_page(alloc, right.page)?;
        return Ok(None);
    }
    let half = left_part(all.len());
    put_index(pages, alloc, left, &all[..half], buffer)?;
    put_index(pages, alloc, right, &all[half..], buffer)?;
    Ok(Some(Entry {
        key: all[half].key,
        page: right.page,
    }))
}

/// Reads the entries beside those of a page that has too few, and spreads all of them. The answer is the entry of the left page and that of the right
/// one, where it stays.
pub fn spread<P: Pages>(
    pages: &mut P,
    alloc: Global,
    pair: &Pair,
    thin: Vec<Entry>,
    buffer: &mut [u8],
) -> Result<(Entry, Option<Entry>), PortFault>
    requires ready { P.ready pages.old }
    requires page { IsFilesPage (P.geometry pages.old) (thin_of pair.now).page.0 }
    requires held { P.held pages.old (thin_of pair.now).page.0 ≡ true }
    requires level { 1 ≤ pair.now.level }
    requires many { length thin.items ≤ most_entries (P.geometry pages.old).page_size }
    requires buffer { length buffer.old ≡ (P.geometry pages.old).page_size }
    ensures stored { IfOk result (λ made. P.tells pages.old
        → pair.now.left.page.0 ≢ pair.now.right.page.0
        → Stored P.Ground pages.new pair.now.left.page.0 pair.now.level pair.now.file_no
        (joined pair.now.thin_is_left thin.items
        (entries_on (P.image pages.old (beside_of pair.now).page.0))) made.1) }
    ensures page { IfOk result (λ made. made.0.page ≡ pair.now.left.page) }
    ensures key { IfOk result (λ made. P.tells pages.old
        → made.0.key ≡ first_key (joined pair.now.thin_is_left thin.items
        (entries_on (P.image pages.old (beside_of pair.now).page.0)))) }
    ensures enough { OnOk result (P.tells pages.old
        → most_entries (P.geometry pages.old).page_size / 2
        ≤ length (joined pair.now.thin_is_left thin.items
        (entries_on (P.image pages.old (beside_of pair.now).page.0)))) }
    ensures changes { IfOk result (λ made. Changes P.Ground pages.old pages.new
        (pair.now.left.page.0 ∷ pair.now.right.page.0 ∷ [])
        (pair.now.left.page.0 ∷ heads (option_to_list made.1))) }
    ensures free { OnOk result (P.free pages.old Page ≤ P.free pages.new Page) }
    ensures gives { OnOk result (OnlyGives P.Ground pages.old pages.new) }
    ensures sound { IfErr result (λ fault. IsDamage fault → P.tells pages.old
        → IsFilesPage (P.geometry pages.old) (beside_of pair.now).page.0
        → P.held pages.old (beside_of pair.now).page.0 ≡ true
        → IsNamed (P.geometry pages.old).page_size
        (P.image pages.old (beside_of pair.now).page.0) pair.now.level pair.now.file_no
        (Some (beside_of pair.now).key) → ⊥) }
    ensures fault { IfErr result (λ fault. P.tells pages.old
        → IsPageFault (P.geometry pages.old) (P.held pages.new)
        (P.image pages.new (beside_of pair.now).page.0) pair.now.level pair.now.file_no
        (Some (beside_of pair.now).key) (beside_of pair.now).page.0 fault) }
    ensures catalog { OnOk result (P.image pages.new catalog_no ≡ P.image pages.old catalog_no) }
    ensures touches { OnOk result (TouchesAtMost P.Ground pages.old pages.new 2) }
    ensures leads { P.leads pages.old pages.new }
    ensures cause { HasCause (P.faults pages.old) (P.faults pages.new) result }
{
    let left = pair.named(pair.left);
    let right = pair.named(pair.right);
    let beside = pair.named(pair.beside());
    let other = match entries_at(pages, alloc, &beside) {
        Ok(other) => other,
        Err(fault) => return Err(fault),
    };
    let all = match join(thin, other, pair.thin_is_left) {
        Ok(all) => all,
        Err(fault) => return Err(fault),
    };
    let second = match even_out(pages, alloc, &left, &right, &all, buffer) {
        Ok(second) => second,
        Err(fault) => return Err(fault),
    };
    let first = Entry {
        key: all[0].key,
        page: pair.left.page,
    };
    Ok((first, second))
}

impl Pair {
    /// The page beside the one that has too few entries.
    fn beside(&self) -> Entry
        ensures { result ≡ beside_of self.now }
    {
        if self.thin_is_left {
            self.right
        } else {
            self.left
        }
    }

    /// What names a page of the pair.
    fn named(&self, entry: Entry) -> Named
        ensures { result ≡ record {
          page = entry.page;
          level = self.now.level;
          least = Some entry.key;
          file_no = self.now.file_no;
        } }
    {
        Named {
            page: entry.page,
            level: self.level,
            least: Some(entry.key),
            file_no: self.file_no,
        }
    }
}
