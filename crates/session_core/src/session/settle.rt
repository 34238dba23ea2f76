//! The logged pages at the end of an update, and of a transaction.
ghost use Rattle.std.specs.Prelude.{◌≡◌, ◌<◌, length, slice_set, true, false};
ghost use Rattle.ex_base.specs.Area.{InPageArea, area_end};
ghost use Rattle.meta_pages.specs.Overlays.{AreRows};
ghost use Rattle.page_alloc.specs.UnitSet.{refs_at, used_at};
ghost use Rattle.session_core.specs.Sessions.{OnlyGives, Settled, Swept, TakenBack, is_kept};

use ex_base::PageNo;
use meta_pages::Meta;
use page_alloc::{Filled, Units};
use volume_port::LoggedPages;

/// A page that is used and that no node names is free from now on.
fn free_page(units: &mut Units, page: PageNo)
    requires { InPageArea units.old.geometry page.0 }
    ensures units { OnlyGives (λ unit. unit ≡ page.0 → ⊥) units.old units.new }
    ensures freed { refs_at units.old page.0 ≡ 0 → used_at units.new page.0 ≡ false }
{
    if units.is_used(page) && units.refs(page) == 0 {
        units.give(page);
    }
}

/// What a commit makes of a page that the transaction touched: with an image it is the committed state's from now on, and else it is free.
fn settle_page(units: &mut Units, kept: &mut Filled<bool>, page: PageNo, image: bool)
    requires area { InPageArea units.old.geometry page.0 }
    requires flag { page.0 < length kept.old }
    ensures kept { kept.new ≡ slice_set kept.old page.0 image }
    ensures units { OnlyGives (λ unit. (unit ≡ page.0) × (image ≡ false)
        × (is_kept kept.old unit ≡ true) → ⊥) units.old units.new }
    ensures freed { image ≡ false → is_kept kept.old page.0 ≡ true
        → refs_at units.old page.0 ≡ 0 → used_at units.new page.0 ≡ false }
{
    let at = page.0 as usize;
    if !image && kept.get(at) {
        free_page(units, page);
    }
    kept.set(at, image);
}

/// The working pages become those of the committed state, and those of it that the transaction gave back are free.
pub(super) fn settle(meta: &Meta, units: &mut Units, kept: &mut Filled<bool>)
    requires geometry { units.old.geometry ≡ meta.now.geometry }
    requires flags { length kept.old ≡ area_end meta.now.geometry }
    ensures { Settled meta.now.working kept.old kept.new units.old units.new }
{
    for index in 0..meta.touched() {
        if let Some((page, image)) = meta.touched_at(index) {
            settle_page(units, kept, page, image.is_some());
        }
    }
}

/// What an abort makes of a page that the transaction touched: one of the committed state is there again, another is free.
fn take_back_page(units: &mut Units, pages: &mut LoggedPages, page: PageNo, image: bool, kept: bool)
    requires area { InPageArea units.old.geometry page.0 }
    requires held { page.0 < length pages.old }
    ensures pages { pages.new ≡ slice_set pages.old page.0 kept }
    ensures units { OnlyGives (λ unit. (unit ≡ page.0) × (image ≡ true) × (kept ≡ false)
        → ⊥) units.old units.new }
    ensures freed { image ≡ true → kept ≡ false
        → refs_at units.old page.0 ≡ 0 → used_at units.new page.0 ≡ false }
{
    if kept {
        pages.adopt(page);
        return;
    }
    if image {
        free_page(units, page);
    }
    pages.give(page);
}

/// The working state has again the pages that the committed one has, and those that the transaction took are free.
pub(super) fn take_back(
    meta: &Meta,
    units: &mut Units,
    pages: &mut LoggedPages,
    kept: &Filled<bool>,
)
    requires geometry { units.old.geometry ≡ meta.now.geometry }
    requires held { length pages.old ≡ area_end meta.now.geometry }
    requires flags { length kept.now ≡ area_end meta.now.geometry }
    ensures { TakenBack meta.now.working kept.now pages.old pages.new units.old units.new }
{
    for index in 0..meta.touched() {
        if let Some((page, image)) = meta.touched_at(index) {
            let flag = kept.get(page.0 as usize);
            take_back_page(units, pages, page, image.is_some(), flag);
        }
    }
}

/// What the end of an update makes of a page that the transaction touched: one that it gave back is free, where the committed state hasn't it and no node
/// names it.
fn sweep_page(units: &mut Units, page: PageNo, image: bool, kept: bool)
    requires { InPageArea units.old.geometry page.0 }
    ensures units { OnlyGives (λ unit. (unit ≡ page.0) × (image ≡ false) × (kept ≡ false)
        → ⊥) units.old units.new }
    ensures freed { image ≡ false → kept ≡ false
        → refs_at units.old page.0 ≡ 0 → used_at units.new page.0 ≡ false }
{
    if !image && !kept {
        free_page(units, page);
    }
}

/// The pages are free that the transaction gave back and that the committed state hasn't.
pub(super) fn sweep(meta: &Meta, units: &mut Units, kept: &Filled<bool>)
    requires geometry { units.old.geometry ≡ meta.now.geometry }
    requires flags { length kept.now ≡ area_end meta.now.geometry }
    ensures swept { Swept meta.now.working kept.now units.old units.new }
    ensures rows { AreRows meta.now }
{
    for index in 0..meta.touched() {
        if let Some((page, image)) = meta.touched_at(index) {
            let flag = kept.get(page.0 as usize);
            sweep_page(units, page, image.is_some(), flag);
        }
    }
}
