//! An index page as it is read, without a copy.
ghost use Rattle.std.specs.Prelude.{◌≡◌, ℕ, ◌+◌, ◌*◌, ◌<◌, ◌≤◌, List, length, slice_get, IfSome, IfNone, IfOk};
ghost use Rattle.file_index.specs.declared.Entry.{Entry};
ghost use Rattle.file_index.specs.Least.{IsFirstAbove};
ghost use Rattle.file_index.specs.IndexPage.{Indexed, indexed_on, entries_on, EntriesOf, RiseFrom};

use crate::reads::is_index_page;
use crate::{ENTRIES_AT, ENTRY_BYTES, Entry, FILE_AT, LEN_AT, LEVEL_AT, PAGE_AT};
use ex_base::{PageNo, get_u16, get_u32};
use std::alloc::{AllocError, Global};
use std::marker::Model;

/// A page that is an index page, seen as its level, its file's number and its entries.
#[derive(Drop)]
pub struct IndexView<'a> {
    page: &'a [u8],
}

impl<'a> Model for IndexView<'a> {
    ghost Value = { Indexed };

    ghost view = { λ v. indexed_on v.page.now };

    ghost invariant = { λ v. (1 ≤ length (entries_on v.page.now))
        × (16 + 8 * length (entries_on v.page.now) ≤ length v.page.now)
        × RiseFrom 0 (entries_on v.page.now) };
}

impl<'a> IndexView<'a> {
    /// The view of a page, exactly where it is an index page.
    pub fn of(page: &'a [u8]) -> Option<IndexView<'a>>
        ensures found { IfSome result
            (λ view. EntriesOf page.now view.level view.file_no view.entries) }
        ensures on { IfSome result (λ view. view ≡ indexed_on page.now) }
        ensures none { IfNone result ((level file_no : ℕ) (entries : List Entry)
            → EntriesOf page.now level file_no entries → ⊥) }
    {
        if !is_index_page(page) {
            return None;
        }
        Some(IndexView { page })
    }

    /// The level: 1 over pages of the file.
    pub fn level(&self) -> u8
        ensures { result ≡ self.now.level }
    {
        self.page[LEVEL_AT]
    }

    /// The number of the file whose pages it leads to.
    pub fn file_no(&self) -> u32
        ensures { result ≡ self.now.file_no }
    {
        get_u32(self.page, FILE_AT)
    }

    /// The number of entries.
    pub fn len(&self) -> u32
        ensures len { result ≡ length self.now.entries }
        ensures some { 1 ≤ result }
    {
        u32::from(get_u16(self.page, LEN_AT))
    }

    /// The entry at an index.
    pub fn entry(&self, index: u32) -> Entry
        requires { index < length self.now.entries }
        ensures { slice_get self.now.entries index ≡ Some result }
    {
        let at = ENTRIES_AT + ENTRY_BYTES * index as usize;
        Entry {
            key: get_u32(self.page, at),
            page: PageNo(get_u32(self.page, at + PAGE_AT)),
        }
    }

    /// The first entry behind the first one whose key is above the key, by bisection. Where there is none, how many there are.
    pub(crate) fn first_above(&self, key: u32) -> u32
        requires { 1 ≤ length self.now.entries }
        ensures { IsFirstAbove key self.now.entries result }
    {
        // A use of the field gives the proof that the keys rise.
        let _ = &self.page;
        let mut low = 1;
        let mut high = self.len();
        while low < high {
            let middle = low + (high - low) / 2;
            if key < self.entry(middle).key {
                high = middle;
            } else {
                low = middle + 1;
            }
        }
        low
    }

    /// The entries, as a list of their own.
    pub fn to_entries(&self, alloc: Global) -> Result<Vec<Entry>, AllocError>
        ensures { IfOk result (λ entries. entries.items ≡ self.now.entries) }
    {
        let len = self.len();
        let mut entries = Vec::with_capacity(alloc, len as usize)?;
        for index in 0..len {
            entries.push_reserved(self.entry(index));
        }
        Ok(entries)
    }
}
