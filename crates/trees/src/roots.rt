//! What the calls on trees ask of a root.
ghost use Rattle.std.specs.Prelude.{◌↔◌, IsTrue};
ghost use Rattle.trees.specs.Roots.{IsRootFor};

use ex_base::{Geometry, HEIGHT_MOST, OBJECT_MOST, Root};

/// Whether a root is one that the calls on trees take: of size 0 with no page and height 0, or with a page and numbers in their limits.
pub fn is_root_for(geometry: &Geometry, root: &Root) -> bool
    ensures { IsTrue result ↔ IsRootFor geometry.now root.now }
{
    if root.page.is_none() {
        return root.size == 0 && root.height == 0;
    }
    if root.size == 0 || root.size > OBJECT_MOST || root.height > HEIGHT_MOST {
        return false;
    }
    root.height != 0 || root.size <= geometry.leaf_bytes() as u64
}
