//! What a command of the script does to its object.
ghost use Rattle.std.specs.Prelude.{◌≡◌, ◌≤◌, ◌<◌, ◌^◌};
ghost use Rattle.generated.specs.Commands.{edit_of, size_after};

/// An append has fewer bytes than this.
const APPEND_BELOW: u64 = 3000;

/// An insert has fewer.
const INSERT_BELOW: u64 = 500;

/// A replace has fewer.
const REPLACE_BELOW: u64 = 1000;

/// A delete has fewer.
const DELETE_BELOW: u64 = 2000;

/// A read has fewer.
const READ_BELOW: u64 = 200;

/// What a command does to its object, in bytes.
#[derive(Clone, Copy, Debug, PartialEq, Eq)]
pub enum Edit {
    /// Puts `count` bytes behind the last.
    Append { count: u64 },
    /// Puts `count` bytes in before the one at `at`.
    Insert { at: u64, count: u64 },
    /// Puts `count` bytes over those from `at` on.
    Replace { at: u64, count: u64 },
    /// Takes away `count` bytes from `at` on.
    Delete { at: u64, count: u64 },
    /// Freezes the version.
    Freeze,
    /// Reads `count` bytes from `at` on.
    Read { at: u64, count: u64 },
}

impl Edit {
    /// What is done to an object of so many bytes: by the draw for the kind, the position drawn, and the draw for how many bytes.
    pub(crate) fn of(kind: u64, at: u64, amount: u64, size: u64) -> Edit
        requires { at ≤ size }
        ensures { result ≡ edit_of kind at amount size }
    {
        let behind = size - at;
        match kind {
            0..=4 => Edit::Append {
                count: amount % APPEND_BELOW,
            },
            5..=8 => Edit::Insert {
                at,
                count: amount % INSERT_BELOW,
            },
            9..=11 => Edit::Replace {
                at,
                count: behind.min(amount % REPLACE_BELOW),
            },
            12 | 13 => Edit::Delete {
                at,
                count: behind.min(amount % DELETE_BELOW),
            },
            14 => Edit::Freeze,
            _ => Edit::Read {
                at,
                count: behind.min(amount % READ_BELOW),
            },
        }
    }

    /// The bytes of an object of `size` bytes after it.
    pub(crate) fn size_after(&self, size: u64) -> u64
        requires { size_after self.now size < 2 ^ 64 }
        ensures { result ≡ size_after self.now size }
    {
        match self {
            Edit::Append { count } => size + *count,
            Edit::Insert { count, .. } => size + *count,
            Edit::Delete { count, .. } => size.saturating_sub(*count),
            Edit::Replace { .. } | Edit::Freeze | Edit::Read { .. } => size,
        }
    }
}
