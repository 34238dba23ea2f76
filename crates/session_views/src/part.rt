//! The parts of a volume.

/// A part of a volume, in the order in which an opening tests them.
#[derive(Clone, Copy, Debug, PartialEq, Eq)]
pub enum Part {
    /// The superblock, and the disk's size.
    Super,
    /// The records of the log.
    Log,
    /// The page of the files, and the last transaction's number.
    Catalog,
    /// Which pages are a file's.
    File,
    /// The pages of the files.
    Page,
    /// The records on them, and how versions hang together.
    Body,
    /// The nodes of the trees of large versions.
    Node,
    /// Their counts, and how full leaves and nodes are.
    Balance,
    /// The unique numbers.
    Unique,
}
