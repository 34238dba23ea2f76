//! Rows in rising order of their page numbers.
ghost use Rattle.std.specs.Prelude.{◌≡◌, ◌≢◌, ◌≤◌, ◌<◌, ◌+◌, ℕ, [], length, slice_get, slice_index_or, IsOk, IsSome, MatchOption, OnOk, OnErr, Some, nat_eq, option_copied, vec_capacity, is_some, if◌then◌else◌};
ghost use Rattle.std.specs.Map.{lookup};
ghost use Rattle.std.specs.Bool.{OnTrue, OnFalse};
ghost use Rattle.meta_pages.specs.Entries.{imaged};
ghost use Rattle.meta_pages.specs.Overlays.{images_most};
ghost use Rattle.meta_pages.specs.Rows.{place, with_row, without_row, kept_rows, named, IsRising};

use ex_base::Image;
use std::alloc::{AllocError, Global};

// How many rows come before a page.
fn place_of<T>(rows: &[(u32, T)], page: u32) -> usize
    requires { IsRising rows.now }
    ensures value { result ≡ place page rows.now }
    ensures within { result ≤ length rows.now }
{
    let mut low = 0;
    let mut high = rows.len();
    while low < high {
        let middle = low + (high - low) / 2;
        if rows[middle].0 < page {
            low = middle + 1;
        } else {
            high = middle;
        }
    }
    low
}

// Whether the row at a place is that of a page.
fn is_at<T>(rows: &[(u32, T)], page: u32, at: usize) -> bool
    ensures there { OnTrue result ((at < length rows.now) × ((d : ℕ × T)
        → (slice_index_or rows.now at d).0 ≡ page)) }
    ensures absent { OnFalse result ((d : ℕ × T) → at < length rows.now
        → (slice_index_or rows.now at d).0 ≢ page) }
{
    at < rows.len() && rows[at].0 == page
}

// What a page has.
pub fn find_row<T>(rows: &[(u32, T)], page: u32) -> Option<&T>
    requires { IsRising rows.now }
    ensures { option_copied result ≡ lookup (nat_eq page) rows.now }
{
    let at = place_of(rows, page);
    if is_at(rows, page, at) {
        Some(&rows[at].1)
    } else {
        None
    }
}

// The page at an index among those that have an image, with that image. None past the end.
pub fn image_row(rows: &[(u32, Option<Image>)], index: usize) -> Option<(u32, &[u8])>
    ensures { MatchOption result (length (imaged rows.now)
        ≤ index) (λ row. slice_get (imaged rows.now) index ≡ Some (row.0, row.1.now)) }
{
    let mut ahead = index;
    for row in rows {
        if let Some(image) = &row.1 {
            if ahead == 0 {
                return Some((row.0, image.as_slice()));
            }
            ahead -= 1;
        }
    }
    None
}

// Puts a row in its place. Where there is no memory, nothing changes.
pub fn put_row<T: Drop>(rows: &mut Vec<(u32, T)>, page: u32, value: T) -> Result<(), AllocError>
    requires { IsRising rows.old.items }
    ensures ok { OnOk result (rows.new.items ≡ with_row page value rows.old.items) }
    ensures err { OnErr result (rows.new.items ≡ rows.old.items) }
    ensures capacity { vec_capacity rows.old ≤ vec_capacity rows.new }
    ensures room { length rows.old.items
        + (if is_some (lookup (nat_eq page) rows.old.items) then 0 else 1) ≤ vec_capacity rows.old
        → IsOk result }
{
    let at = place_of(rows, page);
    if is_at(rows, page, at) {
        rows[at] = (page, value);
    } else {
        rows.insert(at, (page, value))?;
    }
    Ok(())
}

// Takes a row out, where there is one.
pub fn take_row<T: Drop>(rows: &mut Vec<(u32, T)>, page: u32)
    requires { IsRising rows.old.items }
    ensures rows { rows.new.items ≡ without_row page rows.old.items }
    ensures capacity { vec_capacity rows.old ≤ vec_capacity rows.new }
{
    let at = place_of(rows, page);
    if is_at(rows, page, at) {
        drop(rows.remove(at));
    }
}

// Puts each working image into the committed ones, and takes out the pages that were given back. The images are moved.
pub fn keep_rows(committed: &mut Vec<(u32, Image)>, working: &mut Vec<(u32, Option<Image>)>)
    requires room { images_most ≤ vec_capacity committed.old }
    requires named { named committed.old.items working.old.items ≤ images_most }
    requires rising { IsRising committed.old.items }
    requires working_rising { IsRising working.old.items }
    ensures committed { committed.new.items ≡ kept_rows committed.old.items working.old.items }
    ensures working { working.new.items ≡ [] }
    ensures capacity { vec_capacity committed.old ≤ vec_capacity committed.new }
{
    while let Some((page, image)) = working.pop() {
        match image {
            Some(image) => {
                if put_row(committed, page, image).is_err() {
                    unreachable!();
                }
            }
            None => take_row(committed, page),
        }
    }
}
