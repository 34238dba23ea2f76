//! The units that stand on a page as children, whether the page is a node or not.
ghost use Rattle.std.specs.Prelude.{◌≡◌, ◌<◌, ◌≤◌, Some, length, slice_get};
ghost use Rattle.trees.specs.Node.{width_on};
ghost use Rattle.trees.specs.Names.{names_on};

use crate::width::Width;
use crate::{LEN_AT, PAIRS_AT};
use ex_base::{PageNo, get_u16, get_u32};

/// How many units a page names: as many as it says, and no more than it has room for.
pub fn names_len(page: &[u8]) -> usize
    requires { 8 ≤ length page.now }
    ensures { result ≡ length (names_on page.now) }
{
    let room = (page.len() - PAIRS_AT) / Width::of(page).pair_len();
    (get_u16(page, LEN_AT) as usize).min(room)
}

/// The unit that a page names at an index, where its counts are so wide.
pub fn name_at(page: &[u8], width: Width, index: usize) -> PageNo
    requires index { index < length (names_on page.now) }
    requires width { width ≡ width_on page.now }
    ensures { slice_get (names_on page.now) index ≡ Some result.0 }
{
    let at = PAIRS_AT + width.pair_len() * index;
    PageNo(get_u32(page, at + width.count_len()))
}
