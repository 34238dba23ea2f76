//! How wide the counts of a node are.
ghost use Rattle.std.specs.Prelude.{◌≡◌, ◌+◌, ◌≤◌, length};
ghost use Rattle.ex_base.specs.Fields.{number_at};
ghost use Rattle.trees.specs.Node.{kind_of, count_len, pair_len, width_on};

use ex_base::{get_u32, get_u64};

/// The bytes of a page number, which stands behind the count in a pair.
const PAGE_BYTES: usize = 4;

/// How wide the counts of a node are.
#[derive(Clone, Copy, Debug, PartialEq, Eq)]
pub enum Width {
    /// Four bytes, as the nodes of older volumes have them.
    Narrow,
    /// Eight bytes, as all nodes are written.
    Wide,
}

impl Width {
    /// The width in which a page is read, which its first byte says.
    pub fn of(page: &[u8]) -> Width
        requires { 1 ≤ length page.now }
        ensures { result ≡ width_on page.now }
    {
        if page[0] == Width::Wide.kind() {
            Width::Wide
        } else {
            Width::Narrow
        }
    }

    /// The first byte of a page whose counts are so wide.
    pub fn kind(self) -> u8
        ensures { result ≡ kind_of self }
    {
        match self {
            Width::Narrow => 2,
            Width::Wide => 5,
        }
    }

    /// The bytes of a count.
    pub fn count_len(self) -> usize
        ensures { result ≡ count_len self }
    {
        match self {
            Width::Narrow => 4,
            Width::Wide => 8,
        }
    }

    /// The bytes of a pair: a count and a page number.
    pub fn pair_len(self) -> usize
        ensures { result ≡ pair_len self }
    {
        self.count_len() + PAGE_BYTES
    }

    /// The count that begins at a place.
    pub fn count(self, bytes: &[u8], at: usize) -> u64
        requires { at + count_len self ≤ length bytes.now }
        ensures { result ≡ number_at (count_len self) bytes.now at }
    {
        match self {
            Width::Narrow => u64::from(get_u32(bytes, at)),
            Width::Wide => get_u64(bytes, at),
        }
    }
}
