ghost use Rattle.std.specs.Prelude.{◌≡◌, ◌<◌, length, slice_get, Some, IfSome, IfNone};
ghost use Rattle.std.specs.Option.{option_map};
ghost use Rattle.object_files.specs.Catalog.{Catalog, CatalogOf, entry_bytes};
ghost use Rattle.object_files.specs.Edits.{IsCatalogPage};
ghost use Rattle.object_files.specs.Reads.{CatalogReads, catalog_on, entry_of};

use crate::reads::{is_catalog, name_of, number_of, spelled_at};
use crate::{COUNT, ENTRY_LEN, Entry, HEAD_LEN, LAST, LEVEL, NEXT_UNIQUE, ROOT};
use ex_base::{get_page, get_u16, get_u64};
use std::marker::Model;

/// A page that is the catalog, seen as its numbers and its entries.
#[derive(Drop)]
pub struct CatalogView<'a> {
    page: &'a [u8],
}

impl<'a> Model for CatalogView<'a> {
    ghost Value = { Catalog };

    ghost view = { λ v. catalog_on v.page.now };

    ghost invariant = { λ v. CatalogReads v.page.now };
}

impl<'a> CatalogView<'a> {
    /// The view of a page, exactly where it is the catalog.
    pub fn of(page: &'a [u8]) -> Option<CatalogView<'a>>
        ensures found { IfSome result (λ catalog. CatalogOf page.now catalog) }
        ensures none { IfNone result ((c : Catalog) → CatalogOf page.now c → ⊥) }
    {
        if !is_catalog(page) {
            return None;
        }
        Some(CatalogView { page })
    }

    /// The view of a page that is known to be the catalog, without a test.
    pub fn known(page: &'a [u8]) -> CatalogView<'a>
        requires { IsCatalogPage page.now }
        ensures { result ≡ catalog_on page.now }
    {
        CatalogView { page }
    }

    /// How many files there are.
    pub fn len(&self) -> u32
        ensures { result ≡ length self.now.entries }
    {
        u32::from(get_u16(self.page, COUNT))
    }

    pub fn entry(&self, index: u32) -> Entry<'a>
        requires { index < length self.now.entries }
        ensures { slice_get self.now.entries index ≡ Some (entry_of result) }
    {
        let at = HEAD_LEN + ENTRY_LEN * index as usize;
        Entry {
            name: name_of(self.page, at),
            level: self.page[at + LEVEL],
            root: get_page(self.page, at + ROOT),
            file_no: number_of(self.page, at),
        }
    }

    /// The bytes that spell a file's entry.
    pub fn spelled(&self, index: u32) -> &'a [u8]
        requires { index < length self.now.entries }
        ensures { option_map entry_bytes (slice_get self.now.entries index) ≡ Some result.now }
    {
        spelled_at(self.page, HEAD_LEN + ENTRY_LEN * index as usize)
    }

    /// The unique number that the next version gets.
    pub fn next_unique(&self) -> u64
        ensures { result ≡ self.now.next_unique }
    {
        get_u64(self.page, NEXT_UNIQUE)
    }

    /// The number of the last committed transaction.
    pub fn last_txn(&self) -> u64
        ensures { result ≡ self.now.last }
    {
        get_u64(self.page, LAST)
    }
}
