//! Why a stream isn't sent whole.
use ex_base::{PageNo, Seen};

/// Why a stream wasn't sent whole.
#[derive(Clone, Copy, Debug, PartialEq, Eq)]
pub enum DumpFault {
    /// The sink failed.
    Output,
    /// The disk failed.
    Disk,
    /// An allocation was refused.
    Memory,
    /// A page isn't what names it.
    Damaged { page: PageNo, want: Seen, got: Seen },
}
