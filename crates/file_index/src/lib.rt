//! The index of a file: a tree of page numbers over any port of logged pages. Its leaves are the pages of the file; an index page holds, for each page
//! below it, the least page of the file that it leads to. A file of one page has no index page. An index page begins with its kind, its level and the number
//! of its entries; four bytes of zero, the file's number and four bytes of zero follow, then the entries, and zeros to the end of the page.
#![tactic(auto)]

mod adding;
mod least;
mod named;
mod nodes;
mod reads;
mod removing;
mod rows;
mod spreading;
mod step;
mod storing;
pub mod view;
pub mod write;

pub use adding::{a_whole_index_has_at_most_five_levels, add};
use ex_base::PageNo;
pub use least::at_least;
pub use named::{Named, checked};
pub use nodes::{may_be_written, page_buffer};
pub use removing::remove;

/// The first byte of an index page.
const INDEX_KIND: u8 = 4;

/// Where the level stands, a byte of at least 1.
const LEVEL_AT: usize = 1;

/// Where the number of entries stands, two bytes.
const LEN_AT: usize = 2;

/// Where the first four bytes of zero stand.
const GAP_AT: usize = 4;

/// Where the file's number stands, four bytes.
const FILE_AT: usize = 8;

/// Where the second four bytes of zero stand.
const SECOND_GAP_AT: usize = 12;

/// Where the entries begin.
const ENTRIES_AT: usize = 16;

/// The bytes of an entry: a key and a page number of four bytes each.
const ENTRY_BYTES: usize = 8;

/// Where the page number stands in an entry.
const PAGE_AT: usize = 4;

/// A page below an index page, and the least page of the file that it leads to.
#[derive(Clone, Copy, Debug, PartialEq, Eq)]
pub struct Entry {
    /// The number of the least page of the file that the entry leads to. At level 1 it is the page itself.
    pub key: u32,
    /// At level 1 a page of the file, above an index page one level lower.
    pub page: PageNo,
}
