//! One index page and what names it.
ghost use Rattle.std.specs.Prelude.{◌≡◌, ◌≤◌, ℕ, Bool, length, IfOk, IfErr};
ghost use Rattle.ex_base.specs.Ports.{IsDamage, Cause, HasCause};
ghost use Rattle.file_index.specs.IndexPage.{indexed_on, most_entries};
ghost use Rattle.ex_base.specs.declared.geometry.Geometry.{Geometry};
ghost use Rattle.ex_base.specs.declared.faults.PortFault.TheVariants.{Damaged};
ghost use Rattle.file_index.specs.Index.{IsFilesPage, IsNamed, least_entries, seen, key_seen};
ghost use Rattle.ex_base.specs.Seen.{nothing_seen};
ghost use Rattle.file_index.specs.Damage.{IsPageFault};

use crate::view::IndexView;
use crate::{ENTRIES_AT, ENTRY_BYTES};
use ex_base::{PageNo, PortFault, Seen};

/// What names an index page.
#[derive(Clone, Copy, Debug, PartialEq, Eq)]
pub struct Named {
    pub page: PageNo,
    /// The level that the page must have, at least 1; of a page of the file 0.
    pub level: u8,
    /// The least key, as the parent gives it. A root has none.
    pub least: Option<u32>,
    pub file_no: u32,
}

/// The most entries of an index page of so many bytes.
pub fn most_entries(size: usize) -> usize
    requires { 16 ≤ size }
    ensures { result ≡ most_entries size }
{
    (size - ENTRIES_AT) / ENTRY_BYTES
}

/// The least number of entries of an index page of so many bytes.
fn least_entries(size: usize, least: Option<u32>) -> usize
    requires { 16 ≤ size }
    ensures { result ≡ least_entries size least }
{
    match least {
        None => 2,
        Some(_) => most_entries(size) / 2,
    }
}

/// What names an index page, as a fault shows it.
fn seen(level: u8, least: Option<u32>) -> Seen
    ensures { result ≡ seen level least }
{
    let total = match least {
        None => 0,
        Some(key) => u64::from(key),
    };
    Seen::index(level, total)
}

/// The least key of a page that is no root.
fn key_seen(least: Option<u32>, key: u32) -> Option<u32>
    ensures { result ≡ key_seen least key }
{
    match least {
        None => None,
        Some(_) => Some(key),
    }
}

/// The fault of a page that is no index page of its file with an allowed number of entries.
pub fn no_index_page(named: &Named) -> PortFault
    ensures is { result ≡ Damaged named.now.page
        (seen named.now.level named.now.least) nothing_seen }
    ensures damage { IsDamage result }
    ensures cause { (before now : ℕ) → Cause before now result }
{
    PortFault::Damaged {
        page: named.page,
        want: seen(named.level, named.least),
        got: Seen::NOTHING,
    }
}

/// The view of a page, exactly where it is what names it.
pub fn checked<'a>(page: &'a [u8], named: &Named) -> Result<IndexView<'a>, PortFault>
    requires { 48 ≤ length page.now }
    ensures view { IfOk result (λ view. view ≡ indexed_on page.now) }
    ensures ok { IfOk result (λ view. IsNamed (length page.now) page.now
        named.now.level named.now.file_no named.now.least) }
    ensures err { IfErr result (λ fault. IsNamed (length page.now) page.now
        named.now.level named.now.file_no named.now.least → ⊥) }
    ensures fault { IfErr result (λ fault. (g : Geometry) → (held : ℕ → Bool)
        → g.page_size ≡ length page.now → IsFilesPage g named.now.page.0
        → IsPageFault g held page.now
        named.now.level named.now.file_no named.now.least named.now.page.0 fault) }
    ensures damage { (before now : ℕ) → HasCause before now result }
{
    let Some(view) = IndexView::of(page) else {
        return Err(no_index_page(named));
    };
    if view.file_no() != named.file_no {
        return Err(no_index_page(named));
    }
    if (view.len() as usize) < least_entries(page.len(), named.least) {
        return Err(no_index_page(named));
    }
    let want = seen(named.level, named.least);
    let got = seen(view.level(), key_seen(named.least, view.entry(0).key));
    if want != got {
        return Err(PortFault::Damaged {
            page: named.page,
            want,
            got,
        });
    }
    Ok(view)
}
