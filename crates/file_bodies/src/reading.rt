//! Bodies read, and the places of a file in order.
ghost use Rattle.std.specs.Prelude.{◌≡◌, ◌<◌, ◌+◌, ℕ, List, length, Contains, IfOk, IfErr, OnOk, IfSome, IfNone, IsTrue, false, ◌≢◌, MatchOption, Some, None, slice_index_or};
ghost use Rattle.std.specs.Option.{option_map};
ghost use Rattle.std.specs.Borrow.{sem};
ghost use Rattle.ex_base.specs.Ports.{Rests, Keeps, HasCause, IsDamage};
ghost use Rattle.slotted_pages.specs.Reads.{page_on, IsPage};
ghost use Rattle.slotted_pages.specs.Edits.{slots_of};
ghost use Rattle.ex_base.specs.declared.names.Index.{Index};
ghost use Rattle.file_index.specs.Index.{IsFilesPage};
ghost use Rattle.file_bodies.specs.Bodies.{bodies_of, pages_in, InPlaceOrder};
ghost use Rattle.file_bodies.specs.Files.{HasFile, HasFileOf, HasBody, IsOfFile, HasSomeBody};
ghost use Rattle.file_index.specs.Damage.{every_page, HasWay, IsIndexFault, found_in};
ghost use Rattle.file_bodies.specs.Damage.{IsFoundIn, IsBelonging, IsBelongingFault, IsLook, IsLookFault, IsListedFault, HasListed, page_from, page_in};
ghost use Rattle.file_bodies.specs.Indexes.{IsUsable};
ghost use Rattle.file_bodies.specs.Places.{IsNext, FirstFrom};

use crate::catalog::{find_index, index_of};
use crate::page::{body_on, file_on, live_slot, may_be_of_file};
use ex_base::{Index, PageNo, Place, PortFault, ReadPages};
use file_index::at_least;
use slotted_pages::file_named;
use std::alloc::Global;

/// The bodies of a whole file stand in order of their places.
pub fn bodies_stand_in_order<P: ReadPages>()
    ensures { (s : P) (index : Index) → HasFile P.Ground s index
        → InPlaceOrder (bodies_of (P.image s) index) }
{}

/// The number of the file that a page says it belongs to, none where it can't be a page of a file.
fn file_at<P: ReadPages>(
    pages: &mut P,
    alloc: Global,
    page: PageNo,
) -> Result<Option<u32>, PortFault>
    requires { P.ready pages.old }
    ensures some { IfOk result (λ found. IfSome found (λ file_no. P.tells pages.old
        → IsPage (P.image pages.old page.0)
        × ((page_on (P.image pages.old page.0)).file_no ≡ file_no))) }
    ensures area { IfOk result
        (λ found. IfSome found (λ file_no. IsFilesPage (P.geometry pages.old) page.0)) }
    ensures none { IfOk result (λ found. IfNone found (P.tells pages.old
        → IsFilesPage (P.geometry pages.old) page.0 → IsPage (P.image pages.old page.0) → ⊥)) }
    ensures no_damage { IfErr result (λ fault. IsDamage fault → ⊥) }
    ensures kept { Keeps P.Ground pages.old pages.new }
    ensures cause { HasCause (P.faults pages.old) (P.faults pages.new) result }
{
    if !may_be_of_file(pages, page) {
        return Ok(None);
    }
    Ok(file_on(pages.get(alloc, page)?))
}

/// The number of the file that a page names, none where it can't be a page of a file. Of the page only its head is looked at.
fn named_at<P: ReadPages>(
    pages: &mut P,
    alloc: Global,
    page: PageNo,
) -> Result<Option<u32>, PortFault>
    requires { P.ready pages.old }
    ensures some { IfOk result (λ found. IfSome found (λ file_no. P.tells pages.old
        → (page_on (P.image pages.old page.0)).file_no ≡ file_no)) }
    ensures area { IfOk result
        (λ found. IfSome found (λ file_no. IsFilesPage (P.geometry pages.old) page.0)) }
    ensures none { IfOk result (λ found. IfNone found (P.tells pages.old
        → IsFilesPage (P.geometry pages.old) page.0 → IsPage (P.image pages.old page.0) → ⊥)) }
    ensures no_damage { IfErr result (λ fault. IsDamage fault → ⊥) }
    ensures kept { Keeps P.Ground pages.old pages.new }
    ensures cause { HasCause (P.faults pages.old) (P.faults pages.new) result }
{
    if !may_be_of_file(pages, page) {
        return Ok(None);
    }
    Ok(file_named(pages.get(alloc, page)?))
}

/// Whether an index names a page.
fn names<P: ReadPages>(
    pages: &mut P,
    alloc: Global,
    index: &Index,
    page: PageNo,
) -> Result<bool, PortFault>
    requires ready { P.ready pages.old }
    requires usable { IsUsable index.now.file_no index.now }
    ensures yes { IfOk result (λ named. IsTrue named → P.tells pages.old
        → HasFile P.Ground pages.old index.now
        → Contains (pages_in (P.image pages.old) index.now) page.0) }
    ensures no { IfOk result (λ named. named ≡ false → P.tells pages.old
        → HasFile P.Ground pages.old index.now
        → Contains (pages_in (P.image pages.old) index.now) page.0 → ⊥) }
    ensures lacks { IfOk result (λ named. named ≡ false → P.tells pages.old
        → found_in (P.image pages.old) index.now page.0 ≡ Some page → ⊥) }
    ensures sound { IfErr result (λ fault. IsDamage fault → P.tells pages.old
        → HasFile P.Ground pages.old index.now → ⊥) }
    ensures fault { IfErr result (λ fault. P.tells pages.old
        → IsIndexFault (P.geometry pages.old) every_page (P.image pages.old) index.now page.0 fault) }
    ensures way { OnOk result (P.tells pages.old
        → HasWay (P.geometry pages.old) (P.image pages.old) index.now page.0) }
    ensures kept { Keeps P.Ground pages.old pages.new }
    ensures cause { HasCause (P.faults pages.old) (P.faults pages.new) result }
{
    match at_least(pages, alloc, index, page) {
        Ok(None) => Ok(false),
        Ok(Some(found)) => Ok(found == page),
        Err(fault) => Err(fault),
    }
}

/// Whether the index of the file that a page names has the page. The page itself isn't tested.
fn is_named<P: ReadPages>(pages: &mut P, alloc: Global, page: PageNo) -> Result<bool, PortFault>
    requires { P.ready pages.old }
    ensures yes { IfOk result (λ of. IsTrue of → P.tells pages.old
        → HasFileOf P.Ground pages.old page.0 → IsOfFile P.Ground pages.old page.0) }
    ensures no { IfOk result (λ of. of ≡ false → P.tells pages.old
        → IsOfFile P.Ground pages.old page.0 → ⊥) }
    ensures lacks { IfOk result (λ of. of ≡ false → P.tells pages.old
        → IsFoundIn (P.geometry pages.old) (P.image pages.old) page → ⊥) }
    ensures area { IfOk result (λ of. IsTrue of → IsFilesPage (P.geometry pages.old) page.0) }
    ensures sound { IfErr result (λ fault. IsDamage fault → P.tells pages.old
        → HasFileOf P.Ground pages.old page.0 → ⊥) }
    ensures fault { IfErr result (λ fault. P.tells pages.old
        → IsPage (P.image pages.old page.0)
        → IsBelongingFault (P.geometry pages.old) (P.image pages.old) page.0 fault) }
    ensures way { OnOk result (P.tells pages.old
        → IsBelonging (P.geometry pages.old) (P.image pages.old) page.0) }
    ensures kept { Keeps P.Ground pages.old pages.new }
    ensures cause { HasCause (P.faults pages.old) (P.faults pages.new) result }
{
    let file_no = match named_at(pages, alloc, page) {
        Ok(None) => return Ok(false),
        Ok(Some(file_no)) => file_no,
        Err(fault) => return Err(fault),
    };
    let index = match find_index(pages, alloc, file_no) {
        Ok(None) => return Ok(false),
        Ok(Some(index)) => index,
        Err(fault) => return Err(fault),
    };
    names(pages, alloc, &index, page)
}

/// Whether a page is one of a file. It is tested itself only where damage comes on the way to it, which is told where it is a page of a file.
fn is_of_file<P: ReadPages>(pages: &mut P, alloc: Global, page: PageNo) -> Result<bool, PortFault>
    requires { P.ready pages.old }
    ensures yes { IfOk result (λ of. IsTrue of → P.tells pages.old
        → HasFileOf P.Ground pages.old page.0 → IsOfFile P.Ground pages.old page.0) }
    ensures no { IfOk result (λ of. of ≡ false → P.tells pages.old
        → IsOfFile P.Ground pages.old page.0 → ⊥) }
    ensures lacks { IfOk result (λ of. of ≡ false → P.tells pages.old
        → IsFoundIn (P.geometry pages.old) (P.image pages.old) page → ⊥) }
    ensures area { IfOk result (λ of. IsTrue of → IsFilesPage (P.geometry pages.old) page.0) }
    ensures sound { IfErr result (λ fault. IsDamage fault → P.tells pages.old
        → HasFileOf P.Ground pages.old page.0 → ⊥) }
    ensures fault { IfErr result (λ fault. P.tells pages.old
        → IsBelongingFault (P.geometry pages.old) (P.image pages.old) page.0 fault) }
    ensures way { OnOk result (P.tells pages.old
        → IsBelonging (P.geometry pages.old) (P.image pages.old) page.0) }
    ensures kept { Keeps P.Ground pages.old pages.new }
    ensures cause { HasCause (P.faults pages.old) (P.faults pages.new) result }
{
    let fault = match is_named(pages, alloc, page) {
        Ok(named) => return Ok(named),
        Err(PortFault::Disk) => return Err(PortFault::Disk),
        Err(PortFault::Memory) => return Err(PortFault::Memory),
        Err(fault) => fault,
    };
    match file_at(pages, alloc, page) {
        Ok(Some(_)) => Err(fault),
        Ok(None) => Ok(false),
        Err(fault) => Err(fault),
    }
}

/// Lends the body at a place. None exactly where no file has one there.
pub fn body_at<P: ReadPages>(
    pages: &mut P,
    alloc: Global,
    place: Place,
) -> Result<Option<&[u8]>, PortFault>
    requires { P.ready pages.old }
    ensures found { IfOk result (λ found. P.tells pages.old
        → HasFileOf P.Ground pages.old place.page.0
        → MatchOption found ((body : List ℕ) → HasSomeBody P.Ground pages.old place body
        → ⊥) (λ body. HasSomeBody P.Ground pages.old place body.now)) }
    ensures stands { IfOk result (λ found. P.tells pages.old
        → IfSome found (λ body. slice_index_or
        (slots_of (P.image pages.old place.page.0)) place.slot None ≡ Some body.now)) }
    ensures none { IfOk result (λ found. IfNone found (P.tells pages.old
        → IsFoundIn (P.geometry pages.old) (P.image pages.old) place.page → (body : List ℕ)
        → slice_index_or (slots_of (P.image pages.old place.page.0)) place.slot None ≡ Some body
        → ⊥)) }
    ensures sound { IfErr result (λ fault. IsDamage fault → P.tells pages.old
        → HasFileOf P.Ground pages.old place.page.0 → ⊥) }
    ensures fault { IfErr result (λ fault. P.tells pages.old
        → IsBelongingFault (P.geometry pages.old) (P.image pages.old) place.page.0 fault) }
    ensures way { OnOk result (P.tells pages.old
        → IsBelonging (P.geometry pages.old) (P.image pages.old) place.page.0) }
    ensures page { OnOk result (P.tells pages.old → (index : Index) (body : List ℕ)
        → HasBody P.Ground pages.old index place body
        → length (P.image pages.old place.page.0) ≡ (P.geometry pages.old).page_size) }
    ensures* after { sem 𝓛 (Rests P.row pages.entry (λ new. Keeps P.Ground pages.old new
        × HasCause (P.faults pages.old) (P.faults new) result)) }
{
    match is_of_file(pages, alloc, place.page) {
        Ok(true) => {}
        Ok(false) => return Ok(None),
        Err(fault) => return Err(fault),
    }
    let page = pages.get(alloc, place.page)?;
    Ok(body_on(page, place.slot))
}

/// Lends what stands at a place, none where its page is no page of a file. Whether a file has the page isn't looked at.
pub fn body_there<P: ReadPages>(
    pages: &mut P,
    alloc: Global,
    place: Place,
) -> Result<Option<&[u8]>, PortFault>
    requires { P.ready pages.old }
    ensures found { IfOk result (λ found. P.tells pages.old → (index : Index) (body : List ℕ)
        → HasBody P.Ground pages.old index place body
        → option_map (λ there. there.now) found ≡ Some body) }
    ensures stands { IfOk result (λ found. P.tells pages.old
        → IfSome found (λ body. slice_index_or
        (slots_of (P.image pages.old place.page.0)) place.slot None ≡ Some body.now)) }
    ensures none { IfOk result (λ found. IfNone found (P.tells pages.old
        → IsFilesPage (P.geometry pages.old) place.page.0 → IsPage (P.image pages.old place.page.0)
        → (body : List ℕ)
        → slice_index_or (slots_of (P.image pages.old place.page.0)) place.slot None ≡ Some body
        → ⊥)) }
    ensures no_damage { IfErr result (λ fault. IsDamage fault → ⊥) }
    ensures* after { sem 𝓛 (Rests P.row pages.entry (λ new. Keeps P.Ground pages.old new
        × HasCause (P.faults pages.old) (P.faults new) result)) }
{
    if !may_be_of_file(pages, place.page) {
        return Ok(None);
    }
    let page = pages.get(alloc, place.page)?;
    Ok(body_on(page, place.slot))
}

/// The first place of a file from a slot of a page on.
fn first_from<P: ReadPages>(
    pages: &mut P,
    alloc: Global,
    index: &Index,
    key: u32,
    slot: u32,
) -> Result<Option<Place>, PortFault>
    requires ready { P.ready pages.old }
    requires usable { IsUsable index.now.file_no index.now }
    ensures first { IfOk result (λ found. P.tells pages.old → HasFile P.Ground pages.old index.now
        → FirstFrom (bodies_of (P.image pages.old) index.now) key slot found) }
    ensures sound { IfErr result (λ fault. IsDamage fault → P.tells pages.old
        → HasFile P.Ground pages.old index.now → ⊥) }
    ensures fault { IfErr result (λ fault. P.tells pages.old
        → IsLookFault (P.geometry pages.old) every_page (P.image pages.old) index.now key fault) }
    ensures way { IfOk result (λ found. P.tells pages.old
        → IsLook (P.geometry pages.old) (P.image pages.old) index.now key (page_in found)) }
    ensures kept { Keeps P.Ground pages.old pages.new }
    ensures cause { HasCause (P.faults pages.old) (P.faults pages.new) result }
{
    let mut low = key;
    let mut first = slot;
    'looked: loop {
        let page = match at_least(pages, alloc, index, PageNo(low)) {
            Ok(None) => return Ok(None),
            Ok(Some(page)) => page,
            Err(fault) => return Err(fault),
        };
        let from = slot_from(page, low, first);
        match live_slot(pages, alloc, page, index.file_no, from) {
            Ok(Some(slot)) => return Ok(Some(Place { page, slot })),
            Ok(None) => {}
            Err(fault) => return Err(fault),
        }
        low = page.0 + 1;
        first = 0;
    }
}

/// The slot from which a page is looked at: the named one on the page with the number, the first one on another.
fn slot_from(page: PageNo, key: u32, slot: u32) -> u32
    ensures same { page.0 ≡ key → result ≡ slot }
    ensures other { page.0 ≢ key → result ≡ 0 }
{
    if page.0 == key { slot } else { 0 }
}

/// The place of a file that comes behind a place, or its first one. None exactly at the end.
pub fn next_place<P: ReadPages>(
    pages: &mut P,
    alloc: Global,
    file_no: u32,
    after: Option<Place>,
) -> Result<Option<Place>, PortFault>
    requires { P.ready pages.old }
    ensures next { IfOk result (λ next. P.tells pages.old → (index : Index)
        → HasFile P.Ground pages.old index → index.file_no ≡ file_no
        → IsNext (bodies_of (P.image pages.old) index) after next) }
    ensures sound { IfErr result (λ fault. IsDamage fault → P.tells pages.old → (index : Index)
        → HasFile P.Ground pages.old index → index.file_no ≡ file_no → ⊥) }
    ensures fault { IfErr result (λ fault. P.tells pages.old
        → IsListedFault (P.image pages.old) file_no
        (λ index. IsLookFault (P.geometry pages.old) every_page (P.image pages.old) index
        (page_from after) fault) fault) }
    ensures way { IfOk result (λ next. P.tells pages.old
        → HasListed (P.image pages.old) file_no
        (λ index. IsLook (P.geometry pages.old) (P.image pages.old) index (page_from after)
        (page_in next))) }
    ensures kept { Keeps P.Ground pages.old pages.new }
    ensures cause { HasCause (P.faults pages.old) (P.faults pages.new) result }
{
    let index = match index_of(pages, alloc, file_no) {
        Ok(index) => index,
        Err(fault) => return Err(fault),
    };
    match after {
        None => first_from(pages, alloc, &index, 0, 0),
        Some(place) => first_from(
            pages,
            alloc,
            &index,
            place.page.0,
            u32::from(place.slot) + 1,
        ),
    }
}
