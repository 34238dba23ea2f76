//! Why a session stops.
use ex_base::{PageNo, Seen};

/// Why a session stopped.
#[derive(Clone, Copy, Debug, PartialEq, Eq)]
pub enum Stop {
    /// No memory was there.
    Memory,
    /// The disk failed: its count of faults rose.
    Disk,
    /// What a read gave isn't what the page that names it says. `want` and `got` differ.
    Damaged { page: PageNo, want: Seen, got: Seen },
    /// An earlier call of the session met one of the others.
    Down,
}
