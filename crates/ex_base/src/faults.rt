//! Why a call of a port, or of a function over one, fails.
ghost use Rattle.std.specs.Prelude.{◌≡◌};
ghost use Rattle.ex_base.specs.Seen.{node_seen, file_page_seen, record_seen, index_seen, header_seen};

use crate::names::PageNo;
use std::alloc::AllocError;

/// What a page shows of itself, or what the page that names it says of it.
#[derive(Clone, Copy, Debug, PartialEq, Eq)]
pub struct Seen {
    /// The kind of the page, as its first byte says it; 0 for a page outside its grammar.
    pub kind: u8,
    pub level: u8,
    pub total: u64,
}

impl Seen {
    /// The kind of the catalog's page.
    pub const CATALOG_KIND: u8 = 1;
    /// The kind of an inner node.
    pub const NODE_KIND: u8 = 2;
    /// The kind of a page of a file.
    pub const FILE_PAGE_KIND: u8 = 3;
    /// The kind under which a record is asked for.
    pub const RECORD_KIND: u8 = 4;
    /// The kind under which an index page is asked for, whose level and least key are meant.
    pub const INDEX_KIND: u8 = 6;
    /// The kind under which the header of a large record is asked for.
    pub const HEADER_KIND: u8 = 7;
    /// The kind under which a leaf is asked for. A leaf's bytes have no kind of their own.
    pub const LEAF_KIND: u8 = 8;

    /// A page that isn't read, or that isn't what it should be.
    pub const NOTHING: Seen = Seen {
        kind: 0,
        level: 0,
        total: 0,
    };
    /// The catalog.
    pub const CATALOG: Seen = Seen {
        kind: Seen::CATALOG_KIND,
        level: 0,
        total: 0,
    };
    /// A leaf.
    pub const LEAF: Seen = Seen {
        kind: Seen::LEAF_KIND,
        level: 0,
        total: 0,
    };

    /// A node of a level that spells so many bytes.
    pub fn node(level: u8, total: u64) -> Seen
        ensures { result ≡ node_seen level total }
    {
        Seen {
            kind: Seen::NODE_KIND,
            level,
            total,
        }
    }

    /// A page of the file with this number.
    pub fn file_page(file_no: u32) -> Seen
        ensures { result ≡ file_page_seen file_no }
    {
        Seen {
            kind: Seen::FILE_PAGE_KIND,
            level: 0,
            total: u64::from(file_no),
        }
    }

    /// A record in this slot.
    pub fn record(slot: u16) -> Seen
        ensures { result ≡ record_seen slot }
    {
        Seen {
            kind: Seen::RECORD_KIND,
            level: 0,
            total: u64::from(slot),
        }
    }

    /// An index page of a level, with the least key that its parent gives, or 0 for a root.
    pub fn index(level: u8, key: u64) -> Seen
        ensures { result ≡ index_seen level key }
    {
        Seen {
            kind: Seen::INDEX_KIND,
            level,
            total: key,
        }
    }

    /// The header of a large record, with the height and the bytes of its tree.
    pub fn header(height: u8, size: u64) -> Seen
        ensures { result ≡ header_seen height size }
    {
        Seen {
            kind: Seen::HEADER_KIND,
            level: height,
            total: size,
        }
    }
}

/// Why a call failed.
#[derive(Clone, Copy, Debug, PartialEq, Eq)]
pub enum PortFault {
    /// The disk failed: its count of faults rose.
    Disk,
    /// No memory was there.
    Memory,
    /// What a read gave isn't what the page that names it says. `want` and `got` differ.
    Damaged { page: PageNo, want: Seen, got: Seen },
}

impl From<AllocError> for PortFault {
    ghost use Rattle.ex_base.specs.declared.faults.PortFault.TheVariants.{Memory};

    ghost from_gives = { λ e r. r ≡ Memory };

    fn from(_error: AllocError) -> PortFault {
        PortFault::Memory
    }
}
