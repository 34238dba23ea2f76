//! The references that a node's pairs make.
ghost use Rattle.std.specs.Prelude.{◌≡◌, ℕ, length};
ghost use Rattle.trees.specs.Names.{names_on};
ghost use Rattle.ex_base.specs.Ports.{with_refs, times};
ghost use Rattle.page_alloc.specs.UnitSet.{used_at, refs_at};
ghost use Rattle.tree_store.specs.Stored.{IsCounted};

use ex_base::Geometry;
use page_alloc::Units;
use trees::names::{name_at, names_len};
use trees::width::Width;

/// Adds a reference to each used unit that a node names, as often as the node names it.
pub fn count_names(units: &mut Units, geometry: &Geometry, bytes: &[u8])
    requires page { length bytes.now ≡ geometry.now.page_size }
    requires counted { IsCounted geometry.now units.old }
    ensures refs { (p : ℕ) → refs_at units.new p
        ≡ with_refs (used_at units.old p) (refs_at units.old p) (times p (names_on bytes.now)) }
    ensures used { used_at units.new ≡ used_at units.old }
    ensures counted { IsCounted geometry.now units.new }
{
    let width = Width::of(bytes);
    for index in 0..names_len(bytes) {
        let page = name_at(bytes, width, index);
        if geometry.names_unit(page) {
            units.add_ref(page);
        }
    }
}
