//! How many pairs stand in each node.
ghost use Rattle.std.specs.Prelude.{◌≡◌, ◌<◌, ◌≤◌, ◌*◌, slice_index};
ghost use Rattle.ex_base.specs.Even.{evenly};
ghost use Rattle.trees.specs.Split.{nodes_for};

/// The least number of nodes that hold so many pairs.
#[tactic(auto, unfolding(ex_base::specs::Even::least_parts))]
pub fn split_parts(pairs: u32, fan: u32) -> u32
    requires fan { fan ≤ 340 }
    ensures { result ≡ nodes_for fan pairs }
{
    let most = 2 * fan as u64 + 1;
    ((pairs as u64 + (most - 1)) / most) as u32
}

/// How many stand in the part at an index, where a total stands evenly in so many parts, of which none has more than `most`.
pub(crate) fn even_part(parts: u32, total: u64, index: u32, most: u32) -> u32
    requires index { index < parts }
    requires fits { total ≤ parts * most }
    ensures { result ≡ slice_index (evenly parts total) index }
{
    let each = total / parts as u64;
    if (index as u64) < total % parts as u64 {
        (each + 1) as u32
    } else {
        each as u32
    }
}
