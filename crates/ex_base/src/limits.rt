//! The limits of a log, a transaction, an object and a tree.

/// The pages of the log, behind the superblock.
pub const LOG_PAGES: u32 = 256;

/// The most updates that one transaction accepts, and so the most notes of a record of the log.
pub const UPDATES_MOST: usize = 512;

/// The most logged pages that one transaction changes, takes or gives back.
pub const TOUCHED_MOST: u32 = 128;

/// The most bytes of an object.
pub const OBJECT_MOST: u64 = 1_099_511_627_775;

/// The greatest height of a tree.
pub const HEIGHT_MOST: u8 = 64;

/// The least number of pairs of a root that is a node.
pub const ROOT_LEAST: u32 = 2;

/// The greatest level of an index.
pub const INDEX_LEVEL_MOST: u8 = 5;

/// The bytes of the largest page.
pub const PAGE_SIZE_MOST: usize = 8192;
