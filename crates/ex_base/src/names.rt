//! What every layer names: pages, areas, places, versions of objects, notes of updates and roots of trees.
use crate::notes::NoteKind;

/// The number of a page of the volume, counted from its start.
#[derive(Clone, Copy, Debug, PartialEq, Eq, PartialOrd, Ord)]
pub struct PageNo(pub u32);

impl PageNo {
    /// The catalog's page. The page area begins with it, behind the superblock and the 256 pages of the log.
    pub const CATALOG: PageNo = PageNo(257);
}

/// One of the two areas of a volume that have units to give.
#[derive(Clone, Copy, Debug, PartialEq, Eq)]
pub enum Area {
    /// Single pages: the catalog, pages of files and of their indexes, and inner nodes of trees.
    Page,
    /// Segments of `seg_len` pages each: the leaves of trees.
    Segment,
}

/// Where a record lies: a page of a file and a slot of it.
#[derive(Clone, Copy, Debug, PartialEq, Eq)]
pub struct Place {
    pub page: PageNo,
    pub slot: u16,
}

/// The identifier of a version of an object: where its record was placed, and a number that no other version has.
#[derive(Clone, Copy, Debug, PartialEq, Eq)]
pub struct Oid {
    pub page: PageNo,
    pub slot: u16,
    pub unique: u64,
}

impl Oid {
    /// What notes of updates that are of no object say in place of an identifier.
    pub const NONE: Oid = Oid {
        page: PageNo(0),
        slot: 0,
        unique: 0,
    };
}

/// What one accepted update did, as the log tells it.
#[derive(Clone, Copy, Debug, PartialEq, Eq)]
pub struct OpNote {
    pub kind: NoteKind,
    pub oid: Oid,
    pub first: u64,
    pub second: u64,
}

/// The root of an object's tree. A root of size 0 has no page.
#[derive(Clone, Copy, Debug, PartialEq, Eq)]
pub struct Root {
    /// The level of the root's page: 0 for a leaf.
    pub height: u8,
    pub page: Option<PageNo>,
    /// The bytes of the object.
    pub size: u64,
}

impl Root {
    /// The root of an object without bytes.
    pub const EMPTY: Root = Root {
        height: 0,
        page: None,
        size: 0,
    };
}

/// An index: its root, the root's level and the file's number.
#[derive(Clone, Copy, Debug, PartialEq, Eq)]
pub struct Index {
    /// The top index page, or the one page of the file at level 0; none of a file without pages.
    pub root: Option<PageNo>,
    /// How many index pages stand over each page of the file.
    pub level: u8,
    pub file_no: u32,
}
