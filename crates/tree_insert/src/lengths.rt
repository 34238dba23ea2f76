// Counting the leaves of a tree, and the lengths of its first ones.
ghost use Rattle.std.specs.Prelude.{◌≡◌, ℕ, List, [], ◌∷◌, ◌++◌, ◌≤◌, ◌<◌, ◌^◌, length, take, drop, nat_eq, OnOk, IfOk, IfErr};
ghost use Rattle.std.specs.HashMap.{get};
ghost use Rattle.ex_base.specs.Ports.{Keeps, HasCause, IsDamage};
ghost use Rattle.ex_base.specs.Sizes.{leaf_bytes};
ghost use Rattle.trees.specs.Shape.{joined, leaves_of};
ghost use Rattle.trees.specs.Trees.{RootSpells, root_shape, shape_on};
ghost use Rattle.trees.specs.Damage.{IsWalkFault, IsRootFault, IsWhole, AnyPage, IsSoundWay, IsSoundRoot};
ghost use Rattle.trees.specs.Rows.{AreTrees};
ghost use Rattle.tree_insert.specs.Counts.{AreBounded, AreCounted, AreSound};
ghost use Rattle.trees.specs.Roots.{IsRootFor};

use ex_base::{PortFault, ROOT_LEAST, ReadBlocks, Root};
use std::alloc::Global;
use std::collections::HashMap;
use trees::{Part, put, row_of};

/// The leaves of a node that was counted, as it was named then.
#[derive(Clone, Copy)]
struct Counted {
    level: u8,
    size: u64,
    leaves: u64,
}

/// The leaves of a tree, each as often as the tree names it. Nodes that were counted are looked up, so that a node that is named often is read once.
fn count_leaves<B: ReadBlocks>(
    blocks: &mut B,
    alloc: Global,
    known: &mut HashMap<u32, Counted>,
    level: u8,
    least: u32,
    tree: Part,
) -> Result<u64, PortFault>
    requires ready { B.ready blocks.old }
    requires some { 1 ≤ tree.size }
    requires bounded { AreBounded (get nat_eq known.old) }
    ensures bounded { OnOk result (AreBounded (get nat_eq known.new)) }
    ensures most { IfOk result (λ leaves. leaves ≤ tree.size) }
    ensures known { OnOk result (B.tells blocks.old
        → AreCounted (B.geometry blocks.old) (B.unit blocks.old) (get nat_eq known.old)
        → AreCounted (B.geometry blocks.old) (B.unit blocks.old) (get nat_eq known.new)) }
    ensures count { IfOk result (λ leaves. B.tells blocks.old
        → AreCounted (B.geometry blocks.old) (B.unit blocks.old) (get nat_eq known.old) → (l : ℕ)
        → level ≡ l → AreTrees (B.geometry blocks.old) (B.unit blocks.old) l (tree ∷ [])
        → leaves ≡ length (joined l (shape_on (B.unit blocks.old) l tree.page.0 tree.size))) }
    ensures ways { OnOk result (B.tells blocks.old → (B.geometry blocks.old).fan ≤ least
        → AreSound (B.geometry blocks.old) (B.unit blocks.old) (get nat_eq known.old)
        → AreSound (B.geometry blocks.old) (B.unit blocks.old) (get nat_eq known.new)) }
    ensures way { OnOk result (B.tells blocks.old → least ≤ (B.geometry blocks.old).fan
        → AreSound (B.geometry blocks.old) (B.unit blocks.old) (get nat_eq known.old) → (byte : ℕ)
        → IsSoundWay (B.geometry blocks.old) (B.unit blocks.old) AnyPage level least (tree
        ∷ []) byte byte) }
    ensures fault { IfErr result (λ fault. B.tells blocks.old
        → IsWalkFault (B.geometry blocks.old) (B.unit blocks.old) level least (tree ∷ []) fault) }
    ensures kept { Keeps B.Ground blocks.old blocks.new }
    ensures cause { HasCause (B.faults blocks.old) (B.faults blocks.new) result }
{
    if level == 0 {
        return Ok(1);
    }
    if let Some(counted) = known.get(&tree.page.0).copied() {
        if counted.level == level && counted.size == tree.size {
            return Ok(counted.leaves);
        }
    }
    let below = row_of(blocks, alloc, level, tree, least)?;
    let fan = blocks.geometry().fan;
    let mut leaves = 0;
    for child in &below {
        leaves += count_leaves(blocks, alloc, known, level - 1, fan, *child)?;
    }
    let counted = Counted {
        level,
        size: tree.size,
        leaves,
    };
    match known.insert(tree.page.0, counted) {
        Ok(_) => Ok(leaves),
        Err(_) => Err(PortFault::Memory),
    }
}

/// Puts the lengths of a tree's leaves behind others, until there are so many.
fn first_lengths<B: ReadBlocks>(
    blocks: &mut B,
    alloc: Global,
    level: u8,
    least: u32,
    tree: Part,
    most: usize,
    lengths: &mut Vec<u32>,
) -> Result<(), PortFault>
    requires ready { B.ready blocks.old }
    requires leaf { level ≡ 0 → tree.size ≤ leaf_bytes (B.geometry blocks.old) }
    requires most { length lengths.old.items ≤ most }
    ensures most { OnOk result (length lengths.new.items ≤ most) }
    ensures lengths { OnOk result (B.tells blocks.old → (l : ℕ) → level ≡ l
        → AreTrees (B.geometry blocks.old) (B.unit blocks.old) l (tree ∷ [])
        → lengths.new.items ≡ take most (lengths.old.items
        ++ joined l (shape_on (B.unit blocks.old) l tree.page.0 tree.size))) }
    ensures fault { IfErr result (λ fault. B.tells blocks.old
        → IsWalkFault (B.geometry blocks.old) (B.unit blocks.old) level least (tree ∷ []) fault) }
    ensures kept { Keeps B.Ground blocks.old blocks.new }
    ensures cause { HasCause (B.faults blocks.old) (B.faults blocks.new) result }
{
    if lengths.len() >= most {
        return Ok(());
    }
    if level == 0 {
        put(lengths, tree.size as u32)?;
        return Ok(());
    }
    let below = row_of(blocks, alloc, level, tree, least)?;
    let fan = blocks.geometry().fan;
    for child in &below {
        first_lengths(blocks, alloc, level - 1, fan, *child, most, lengths)?;
    }
    Ok(())
}

/// The number of leaves of a root's tree, each counted as often as the tree names it. The front of `first` is filled with the lengths of the first
/// leaves in order, as many as there are or as it holds. A node is read once for each level, however often it is named.
pub fn leaf_lengths<B: ReadBlocks>(
    blocks: &mut B,
    alloc: Global,
    root: &Root,
    first: &mut [u32],
) -> Result<u64, PortFault>
    requires ready { B.ready blocks.old }
    requires root { IsRootFor (B.geometry blocks.old) root.now }
    ensures count { IfOk result (λ leaves. B.tells blocks.old → (bytes : List ℕ)
        → RootSpells (B.geometry blocks.old) (B.unit blocks.old) root.now bytes
        → leaves ≡ length (leaves_of (root_shape (B.unit blocks.old) root.now))) }
    ensures lengths { OnOk result (B.tells blocks.old → (bytes : List ℕ)
        → RootSpells (B.geometry blocks.old) (B.unit blocks.old) root.now bytes
        → first.new ≡ take (length first.old) (leaves_of (root_shape (B.unit blocks.old) root.now))
        ++ drop (length (leaves_of (root_shape (B.unit blocks.old) root.now))) first.old) }
    ensures way { OnOk result (B.tells blocks.old → (byte : ℕ)
        → IsSoundRoot (B.geometry blocks.old) (B.unit blocks.old) AnyPage root.now byte byte) }
    ensures fault { IfErr result (λ fault. B.tells blocks.old
        → IsRootFault (B.geometry blocks.old) (B.unit blocks.old) root.now fault) }
    ensures sound { IfErr result (λ fault. B.tells blocks.old
        → IsWhole (B.geometry blocks.old) (B.unit blocks.old) root.now → IsDamage fault → ⊥) }
    ensures kept { Keeps B.Ground blocks.old blocks.new }
    ensures cause { HasCause (B.faults blocks.old) (B.faults blocks.new) result }
{
    let Some(page) = root.page else {
        return Ok(0);
    };
    let tree = Part {
        size: root.size,
        page,
    };
    let mut lengths = Vec::new(alloc);
    let most = first.len();
    first_lengths(
        blocks,
        alloc,
        root.height,
        ROOT_LEAST,
        tree,
        most,
        &mut lengths,
    )?;
    first[..lengths.len()].copy_from_slice(&lengths);
    let mut known = HashMap::new(alloc);
    count_leaves(blocks, alloc, &mut known, root.height, ROOT_LEAST, tree)
}
