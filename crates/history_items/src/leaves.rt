//! The item of a leaf: its length, and its bytes.
ghost use Rattle.std.specs.Prelude.{◌≡◌, ◌+◌, ◌<◌, ◌≤◌, ◌^◌, length, drop};
ghost use Rattle.history_model.specs.Stream.{leaf_item};
ghost use Rattle.history_items.specs.Needs.{need_of_leaf};

use ex_base::{Geometry, get_u32, put_u32};

/// Where a leaf's bytes begin in its item.
pub const LEAF_HEAD: usize = 4;

/// How many bytes the item of a leaf needs that begins with these. None where no such item does.
pub fn leaf_need(bytes: &[u8], geometry: &Geometry) -> Option<usize>
    ensures { result ≡ need_of_leaf geometry.now bytes.now }
{
    if bytes.len() < LEAF_HEAD {
        return Some(LEAF_HEAD);
    }
    let len = get_u32(bytes, 0);
    if len < 1 || len > geometry.leaf_bytes() {
        return None;
    }
    let whole = LEAF_HEAD + len as usize;
    if bytes.len() <= whole {
        Some(whole)
    } else {
        None
    }
}

/// Makes an item of the bytes of a leaf, which stand behind room for their length.
pub fn write_leaf_len(out: &mut [u8])
    requires head { 4 ≤ length out.old }
    requires few { length out.old < 2 ^ 32 }
    ensures { out.new ≡ leaf_item (drop 4 out.old) }
{
    put_u32(out, 0, (out.len() - LEAF_HEAD) as u32);
}
