//! The entries of an index page, where it is what names it.
ghost use Rattle.std.specs.Prelude.{◌≡◌, IfSome, IfNone, IfOk, IfErr, OnSome, IsTrue, ◌↔◌};
ghost use Rattle.ex_base.specs.Area.{InPageArea};
ghost use Rattle.ex_base.specs.Ports.{Keeps, HasCause, IsDamage};
ghost use Rattle.file_index.specs.IndexPage.{entries_on};
ghost use Rattle.file_index.specs.Index.{IsNamed, HasKey};

use ex_base::{PortFault, ReadPages};
use file_index::{Entry, Named, checked};
use std::alloc::Global;

/// Whether a key is the one that a parent gives.
pub fn has_key(least: Option<u32>, key: u32) -> bool
    ensures { IsTrue result ↔ HasKey least key }
{
    match least {
        None => true,
        Some(least) => key == least,
    }
}

/// The entries of an index page, none where the page isn't what names it.
pub fn entries_at<P: ReadPages>(
    pages: &mut P,
    alloc: Global,
    named: &Named,
) -> Result<Option<Vec<Entry>>, PortFault>
    requires ready { P.ready pages.old }
    requires area { InPageArea (P.geometry pages.old) named.now.page.0 }
    ensures entries { IfOk result (λ found. IfSome found (λ entries. P.tells pages.old
        → entries.items ≡ entries_on (P.image pages.old named.now.page.0))) }
    ensures some { IfOk result (λ found. OnSome found (P.tells pages.old
        → IsNamed (P.geometry pages.old).page_size
        (P.image pages.old named.now.page.0) named.now.level named.now.file_no named.now.least)) }
    ensures none { IfOk result (λ found. IfNone found (P.tells pages.old
        → IsNamed (P.geometry pages.old).page_size
        (P.image pages.old named.now.page.0) named.now.level named.now.file_no named.now.least
        → ⊥)) }
    ensures no_damage { IfErr result (λ fault. IsDamage fault → ⊥) }
    ensures kept { Keeps P.Ground pages.old pages.new }
    ensures cause { HasCause (P.faults pages.old) (P.faults pages.new) result }
{
    let page = pages.get(alloc, named.page)?;
    match checked(page, named) {
        Ok(view) => Ok(Some(view.to_entries(alloc)?)),
        Err(_) => Ok(None),
    }
}
