//! Fields that name a page or a place, or nothing.
ghost use Rattle.std.specs.Prelude.{◌≡◌, ◌+◌, ◌≤◌, length};
ghost use Rattle.ex_base.specs.Bytes.{written};
ghost use Rattle.ex_base.specs.Fields.{page_field, place_field, page_in, place_in};

use crate::fields::{get_u16, get_u32, put_u16, put_u32};
use crate::names::{PageNo, Place};

/// The page that a field of four bytes names: none where the number is 0.
pub fn get_page(bytes: &[u8], at: usize) -> Option<PageNo>
    requires { at + 4 ≤ length bytes.now }
    ensures { result ≡ page_in bytes.now at }
{
    let number = get_u32(bytes, at);
    if number == 0 {
        None
    } else {
        Some(PageNo(number))
    }
}

/// Writes the field of four bytes that names a page, or none.
pub fn put_page(bytes: &mut [u8], at: usize, page: Option<PageNo>)
    requires { at + 4 ≤ length bytes.old }
    ensures { bytes.new ≡ written bytes.old at (page_field page) }
{
    match page {
        None => put_u32(bytes, at, 0),
        Some(page) => put_u32(bytes, at, page.0),
    }
}

/// The place that a field of six bytes names: none where all are zero.
pub fn get_place(bytes: &[u8], at: usize) -> Option<Place>
    requires { at + 6 ≤ length bytes.now }
    ensures { result ≡ place_in bytes.now at }
{
    let page = get_u32(bytes, at);
    let slot = get_u16(bytes, at + 4);
    if page == 0 && slot == 0 {
        None
    } else {
        Some(Place {
            page: PageNo(page),
            slot,
        })
    }
}

/// Writes the field of six bytes that names a place, or none.
pub fn put_place(bytes: &mut [u8], at: usize, place: Option<Place>)
    requires { at + 6 ≤ length bytes.old }
    ensures { bytes.new ≡ written bytes.old at (place_field place) }
{
    match place {
        None => bytes[at..at + 6].fill(0),
        Some(place) => {
            put_u32(bytes, at, place.page.0);
            put_u16(bytes, at + 4, place.slot);
        }
    }
}
