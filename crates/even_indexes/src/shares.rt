//! The pages of a level over the entries below it.
ghost use Rattle.std.specs.Prelude.{◌≡◌, ◌≤◌, ◌<◌, ◌+◌, ◌^◌, length, slice_index};
ghost use Rattle.std.specs.List.{AllByRecursion};
ghost use Rattle.ex_base.specs.Even.{evenly};
ghost use Rattle.file_index.specs.IndexPage.{HasEntryFields, index_page};
ghost use Rattle.file_index.specs.Nodes.{first_key};
ghost use Rattle.even_indexes.specs.Levels.{before, pages_over, share_at};

use file_index::Entry;
use file_index::write::write_index;

/// Where the entries of an index page begin.
const ENTRIES_AT: usize = 16;

/// The bytes of an entry.
const ENTRY_BYTES: usize = 8;

/// How many index pages of `size` bytes stand over so many entries.
#[tactic(auto, unfolding(ex_base::specs::Even::least_parts))]
pub fn pages_over(size: usize, entries: usize) -> usize
    requires size { (512 ≤ size) × (size ≤ 8192) }
    requires entries { entries < 2 ^ 32 }
    ensures count { result ≡ pages_over size entries }
    ensures few { result ≤ entries }
{
    let most = (size - ENTRIES_AT) / ENTRY_BYTES;
    (entries + (most - 1)) / most
}

// Entries of a level that stand side by side: where they begin, and how many they are.
#[derive(Clone, Copy)]
struct Share {
    from: usize,
    len: usize,
}

// The share at a place, where a total stands evenly in so many parts.
fn share_of(parts: usize, total: usize, index: usize) -> Share
    requires index { index < parts }
    requires total { (parts ≤ total) × (total < 2 ^ 32) }
    ensures from { result.from ≡ before parts total index }
    ensures len { result.len ≡ slice_index (evenly parts total) index }
    ensures fits { (result.from < total) × (result.from + result.len ≤ total) }
{
    let each = total / parts;
    let more = total % parts;
    if index < more {
        Share {
            from: index * (each + 1),
            len: each + 1,
        }
    } else {
        Share {
            from: index * each + more,
            len: each,
        }
    }
}

/// Writes the index page of a level that has the share at this place of the entries below, and answers with the key by which an entry names it.
pub fn write_share(level: u8, file_no: u32, below: &[Entry], index: usize, out: &mut [u8]) -> u32
    requires size { (512 ≤ length out.old) × (length out.old ≤ 8192) }
    requires below { (1 ≤ length below.now) × (length below.now < 2 ^ 32) }
    requires index { index < pages_over (length out.old) (length below.now) }
    ensures page { out.new
        ≡ index_page (length out.old) level file_no (share_at (length out.old) below.now index) }
    ensures key { result ≡ first_key (share_at (length out.old) below.now index) }
    ensures fields { AllByRecursion HasEntryFields (share_at (length out.old) below.now index) }
{
    let parts = pages_over(out.len(), below.len());
    let share = share_of(parts, below.len(), index);
    let entries = &below[share.from..share.from + share.len];
    write_index(level, file_no, entries, out);
    below[share.from].key
}
