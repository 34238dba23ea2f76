//! Why a volume isn't opened.
use crate::part::Part;

/// Why a volume wasn't opened.
#[derive(Clone, Copy, Debug, PartialEq, Eq)]
pub enum OpenFault {
    /// No memory was there.
    Memory,
    /// The disk failed: its count of faults rose.
    Disk,
    /// What was read stands for no table; this is the first part that fails.
    BadVolume { part: Part },
}
