//! How many pages the files of a stream need.
ghost use Rattle.std.specs.Prelude.{◌≡◌, ◌+◌, ◌<◌, ◌≤◌, ◌^◌};
ghost use Rattle.object_records.specs.Record.{IsContent};
ghost use Rattle.object_records.specs.Reads.{content_of};
ghost use Rattle.history_model.specs.FilePages.{record_size};
ghost use Rattle.history_counts.specs.Pages.{no_needs, needs_with_file, needs_with_record, pages_by};

use object_records::{LARGE_LEN, Payload, body_len};

/// The bytes of a slot.
const SLOT: u32 = 4;

/// The bytes of a page's head.
const PAGE_HEAD: u32 = 16;

/// The pages of an index, of which one is needed for so many pages of a file.
const PAGES_OF_INDEX: u64 = 16;

/// The pages that each file needs besides.
const PAGES_OF_FILE: u64 = 4;

/// The bytes of the record of a version with this content.
pub fn record_len(content: Payload<'_>) -> u32
    requires { IsContent (content_of content) }
    ensures { result ≡ record_size (content_of content.entry) }
{
    match content {
        Payload::Small(bytes) => body_len(bytes.len() as u32),
        Payload::Large(_) => LARGE_LEN as u32,
    }
}

/// How many pages the files so far need, the last of which may get more records: each record goes to the file's last page where it fits with its slot, and else to
/// a new page.
#[derive(Clone, Copy, Debug, PartialEq, Eq)]
pub struct PageNeeds {
    /// What is needed beside the last file's pages and those of its index.
    pub others: u64,
    /// How many pages the records of the last file fill.
    pub filled: u64,
    /// How many bytes are free in the last of them.
    pub room: u32,
}

impl PageNeeds {
    /// No file needs any.
    pub fn none() -> PageNeeds
        ensures { result ≡ no_needs }
    {
        PageNeeds {
            others: 0,
            filled: 0,
            room: 0,
        }
    }

    /// How many pages are needed.
    pub fn pages(&self) -> u64
        requires { pages_by self.now < 2 ^ 63 }
        ensures { result ≡ pages_by self.now }
    {
        self.others + (self.filled + self.filled / PAGES_OF_INDEX)
    }

    /// With one more file, which has no version yet.
    pub fn with_file(&self) -> PageNeeds
        requires { pages_by self.now < 2 ^ 63 }
        ensures { result ≡ needs_with_file self.now }
    {
        PageNeeds {
            others: self.pages() + PAGES_OF_FILE,
            filled: 0,
            room: 0,
        }
    }

    /// With one more record of so many bytes in the last file.
    pub fn with_record(&self, page_size: u32, len: u32) -> PageNeeds
        requires few { pages_by self.now < 2 ^ 63 }
        requires fits { len + 20 ≤ page_size }
        ensures { result ≡ needs_with_record page_size self.now len }
    {
        if len + SLOT <= self.room {
            PageNeeds {
                others: self.others,
                filled: self.filled,
                room: self.room - (len + SLOT),
            }
        } else {
            PageNeeds {
                others: self.others,
                filled: self.filled + 1,
                room: page_size - PAGE_HEAD - (len + SLOT),
            }
        }
    }
}
