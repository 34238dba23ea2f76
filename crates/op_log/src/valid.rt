//! Which records are records of the log.
ghost use Rattle.std.specs.Prelude.{◌≡◌, ◌↔◌, ◌+◌, ◌-◌, ◌≤◌, ◌<◌, IsTrue, Some, Option, map, Contains};
ghost use Rattle.std.specs.List.{AllByRecursion};
ghost use Rattle.ex_base.specs.Area.{area_end, catalog_no};
ghost use Rattle.op_log.specs.Records.{IsLogRecord, page_of, number_of};
ghost use Rattle.op_log.specs.Decoding.{RisesIn, IsApart, Shaped, NumberFollows};

use crate::record::LogRecord;
use ex_base::{Geometry, PageNo};
use page_entries::PageEntry;

fn goes_on(before: u32, end: u32, page: u32) -> bool
    ensures { IsTrue result ↔ ((before < page) × (page < end)) }
{
    before < page && page < end
}

fn entries_rise(end: u32, entries: &[PageEntry]) -> bool
    ensures { IsTrue result ↔ RisesIn (catalog_no - 1) end (map page_of entries.now) }
{
    let mut before = PageNo::CATALOG.0 - 1;
    for entry in entries {
        if !goes_on(before, end, entry.page.0) {
            return false;
        }
        before = entry.page.0;
    }
    true
}

fn numbers_rise(end: u32, pages: &[PageNo]) -> bool
    ensures { IsTrue result ↔ RisesIn (catalog_no - 1) end (map number_of pages.now) }
{
    let mut before = PageNo::CATALOG.0 - 1;
    for page in pages {
        if !goes_on(before, end, page.0) {
            return false;
        }
        before = page.0;
    }
    true
}

fn has_page(entries: &[PageEntry], page: u32) -> bool
    ensures { IsTrue result ↔ Contains (map page_of entries.now) page }
{
    for entry in entries {
        if entry.page.0 == page {
            return true;
        }
    }
    false
}

fn lie_apart(entries: &[PageEntry], pages: &[PageNo]) -> bool
    ensures { IsTrue result ↔ AllByRecursion (IsApart entries.now) pages.now }
{
    for page in pages {
        if has_page(entries, page.0) {
            return false;
        }
    }
    true
}

/// Whether what has the shape of a record is one.
pub fn is_valid(geometry: &Geometry, item: &LogRecord) -> bool
    requires { Shaped geometry.now item.now }
    ensures { IsTrue result ↔ IsLogRecord geometry.now item.now }
{
    let end = PageNo::CATALOG.0 + geometry.pages;
    if !entries_rise(end, item.pages.as_slice()) {
        return false;
    }
    if !numbers_rise(end, item.freed.as_slice()) {
        return false;
    }
    if !lie_apart(item.pages.as_slice(), item.freed.as_slice()) {
        return false;
    }
    has_page(item.pages.as_slice(), PageNo::CATALOG.0)
}

/// Whether a transaction's number is the next after the last one, where there is one.
pub fn follows(last: Option<u64>, txn: u64) -> bool
    ensures { IsTrue result ↔ NumberFollows last txn }
{
    match last {
        None => true,
        Some(before) => before < txn && txn - before == 1,
    }
}
