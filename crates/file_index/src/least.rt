//! The least page of a file that is not below a key.
ghost use Rattle.std.specs.Prelude.{◌≡◌, ◌≤◌, IfOk, IfErr, OnOk};
ghost use Rattle.ex_base.specs.Ports.{Keeps, HasCause, IsDamage};
ghost use Rattle.file_index.specs.IndexPage.{entries_on};
ghost use Rattle.file_index.specs.Index.{IsFilesPage, IsNamed, IsUnder, Rises, keys_under, keys_of, IsIndex, HasRoot, index_level_most};
ghost use Rattle.file_index.specs.Least.{pick, first_from, IsLeastFrom, IsAtLeast};
ghost use Rattle.file_index.specs.Damage.{every_page, IsPageFault, IsNamedAt, IsWay, IsWayFault, HasWay, IsIndexFault, found_under, found_in};

use crate::named::{Named, checked, no_index_page};
use crate::step::{Step, pick};
use ex_base::{Index, PageNo, PortFault, ReadPages};
use std::alloc::Global;

/// The entry of an index page that a key leads to.
fn step_at<P: ReadPages>(
    pages: &mut P,
    alloc: Global,
    named: &Named,
    key: u32,
    next: Option<PageNo>,
) -> Result<Step, PortFault>
    requires { P.ready pages.old }
    ensures step { IfOk result (λ step. P.tells pages.old
        → step ≡ pick (entries_on (P.image pages.old named.now.page.0)) key next) }
    ensures above { IfOk result (λ step. IsAtLeast key next → IsAtLeast key step.next) }
    ensures sound { IfErr result (λ fault. IsDamage fault → P.tells pages.old
        → IsFilesPage (P.geometry pages.old) named.now.page.0
        → IsNamed (P.geometry pages.old).page_size
        (P.image pages.old named.now.page.0) named.now.level named.now.file_no named.now.least
        → ⊥) }
    ensures fault { IfErr result (λ fault. P.tells pages.old
        → IsPageFault (P.geometry pages.old) every_page
        (P.image pages.old named.now.page.0)
        named.now.level named.now.file_no named.now.least named.now.page.0 fault) }
    ensures way { OnOk result (P.tells pages.old
        → IsNamedAt (P.geometry pages.old)
        (P.image pages.old) named.now.level named.now.file_no named.now.least named.now.page.0) }
    ensures kept { Keeps P.Ground pages.old pages.new }
    ensures cause { HasCause (P.faults pages.old) (P.faults pages.new) result }
{
    if !pages.in_area(named.page) || named.page == PageNo::CATALOG {
        return Err(no_index_page(named));
    }
    let page = pages.get(alloc, named.page)?;
    match checked(page, named) {
        Ok(view) => Ok(pick(&view, key, next)),
        Err(fault) => Err(fault),
    }
}

/// The least page under a page that is not below the key, else what comes next.
fn least_below<P: ReadPages>(
    pages: &mut P,
    alloc: Global,
    named: Named,
    key: u32,
    next: Option<PageNo>,
) -> Result<Option<PageNo>, PortFault>
    requires ready { P.ready pages.old }
    requires next { IsAtLeast key next }
    ensures least { IfOk result (λ least. P.tells pages.old
        → IsUnder (P.geometry pages.old) named.file_no
        (P.image pages.old) named.level named.least named.page.0
        → Rises 0 (keys_under (P.image pages.old) named.level named.page.0)
        → least ≡ first_from key (keys_under (P.image pages.old) named.level named.page.0) next) }
    ensures above { IfOk result (λ least. IsAtLeast key least) }
    ensures sound { IfErr result (λ fault. IsDamage fault → P.tells pages.old
        → IsUnder (P.geometry pages.old) named.file_no
        (P.image pages.old) named.level named.least named.page.0 → ⊥) }
    ensures fault { IfErr result (λ fault. P.tells pages.old
        → IsWayFault (P.geometry pages.old) every_page
        (P.image pages.old) named.file_no key named.level named.least named.page.0 fault) }
    ensures way { OnOk result (P.tells pages.old
        → IsWay (P.geometry pages.old)
        (P.image pages.old) named.file_no key named.level named.least named.page.0) }
    ensures found { IfOk result (λ least. P.tells pages.old
        → least ≡ found_under (P.image pages.old) key named.level named.page.0 next) }
    ensures kept { Keeps P.Ground pages.old pages.new }
    ensures cause { HasCause (P.faults pages.old) (P.faults pages.new) result }
{
    if named.level == 0 {
        return if named.page.0 < key {
            Ok(next)
        } else {
            Ok(Some(named.page))
        };
    }
    let step = match step_at(pages, alloc, &named, key, next) {
        Ok(step) => step,
        Err(fault) => return Err(fault),
    };
    let child = Named {
        page: step.child.page,
        level: named.level - 1,
        least: Some(step.child.key),
        file_no: named.file_no,
    };
    least_below(pages, alloc, child, key, step.next)
}

/// The least file page of an index that is not below a key.
pub fn at_least<P: ReadPages>(
    pages: &mut P,
    alloc: Global,
    index: &Index,
    key: PageNo,
) -> Result<Option<PageNo>, PortFault>
    requires ready { P.ready pages.old }
    requires level { index.now.level ≤ index_level_most }
    requires root { HasRoot index.now.level index.now.root }
    ensures least { IfOk result (λ least. P.tells pages.old
        → IsIndex (P.geometry pages.old)
        (P.image pages.old) index.now.file_no index.now.level index.now.root
        → IsLeastFrom (keys_of (P.image pages.old) index.now.level index.now.root) key.0 least) }
    ensures above { IfOk result (λ least. IsAtLeast key.0 least) }
    ensures sound { IfErr result (λ fault. IsDamage fault → P.tells pages.old
        → IsIndex (P.geometry pages.old)
        (P.image pages.old) index.now.file_no index.now.level index.now.root → ⊥) }
    ensures fault { IfErr result (λ fault. P.tells pages.old
        → IsIndexFault (P.geometry pages.old) every_page
        (P.image pages.old) index.now key.0 fault) }
    ensures way { OnOk result (P.tells pages.old
        → HasWay (P.geometry pages.old) (P.image pages.old) index.now key.0) }
    ensures found { IfOk result (λ least. P.tells pages.old
        → least ≡ found_in (P.image pages.old) index.now key.0) }
    ensures kept { Keeps P.Ground pages.old pages.new }
    ensures cause { HasCause (P.faults pages.old) (P.faults pages.new) result }
{
    match index.root {
        None => Ok(None),
        Some(page) => {
            let root = Named {
                page,
                level: index.level,
                least: None,
                file_no: index.file_no,
            };
            least_below(pages, alloc, root, key.0, None)
        }
    }
}
