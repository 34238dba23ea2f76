ghost use Rattle.std.specs.Prelude.{◌≡◌, ◌+◌, ◌*◌, ◌≤◌, length, IfSome, IfNone, slice_index_or, None};
ghost use Rattle.std.specs.Option.{option_map};
ghost use Rattle.slotted_pages.specs.FilePage.{FilePage, SlotsOf, room_of};
ghost use Rattle.slotted_pages.specs.Reads.{IsPage, Viewed, viewed_on, PageReads};

use crate::reads::{is_file_page, len_in, lens_end, offset_in};
use crate::{COUNT, FIELD_LEN, FILE_NO};
use ex_base::{get_u16, get_u32};
use std::marker::Model;

/// A page that is a file page, seen as its size, its file and its slots.
#[derive(Drop)]
pub struct SlottedView<'a> {
    page: &'a [u8],
}

impl<'a> Model for SlottedView<'a> {
    ghost Value = { Viewed };

    ghost view = { λ v. viewed_on v.page.now };

    ghost invariant = { λ v. PageReads v.page.now };
}

impl<'a> SlottedView<'a> {
    /// The view of a page, exactly where it is a file page.
    pub fn of(page: &'a [u8]) -> Option<SlottedView<'a>>
        ensures found { IfSome result (λ view. (view.size ≡ length page.now)
            × SlotsOf page.now view.page) }
        ensures none { IfNone result ((p : FilePage) → SlotsOf page.now p → ⊥) }
    {
        if !is_file_page(page) {
            return None;
        }
        Some(SlottedView { page })
    }

    /// The view of a page that is known to be a file page, without a test.
    pub fn known(page: &'a [u8]) -> SlottedView<'a>
        requires { IsPage page.now }
        ensures { result ≡ viewed_on page.now }
    {
        SlottedView { page }
    }

    /// How many slots the page has, vacant ones included.
    pub fn slots(&self) -> u16
        ensures { result ≡ length self.now.page.slots }
    {
        get_u16(self.page, COUNT)
    }

    /// The body in a slot, none where it is vacant or past the last.
    pub fn body(&self, slot: u16) -> Option<&'a [u8]>
        ensures { option_map (λ body. body.now) result
            ≡ slice_index_or self.now.page.slots slot None }
    {
        if slot >= get_u16(self.page, COUNT) {
            return None;
        }
        let len = len_in(self.page, slot as usize);
        if len == 0 {
            return None;
        }
        let at = offset_in(self.page, slot as usize);
        Some(&self.page[at..at + len])
    }

    /// The number of the file that the page belongs to.
    pub fn file_no(&self) -> u32
        ensures { result ≡ self.now.page.file_no }
    {
        get_u32(self.page, FILE_NO)
    }

    /// The bytes that more bodies may take. A new slot takes 4 of them.
    pub fn room(&self) -> u32
        ensures { result ≡ room_of self.now.size self.now.page.slots }
    {
        let n = get_u16(self.page, COUNT) as usize;
        (self.page.len() - FIELD_LEN * n - lens_end(self.page, n)) as u32
    }
}
