// How many nodes lead to high units.
ghost use Rattle.std.specs.Prelude.{◌≡◌, ◌≢◌, ◌||◌, ◌∷◌, [], ◌≤◌, ℕ, Bool, List, Some, None, length, IfOk, IfErr, OnOk};
ghost use Rattle.std.specs.List.{AllByRecursion};
ghost use Rattle.ex_base.specs.declared.names.Root.{Root as RootOf};
ghost use Rattle.ex_base.specs.Ports.{Keeps, HasCause, IsDamage};
ghost use Rattle.trees.specs.Damage.{IsWalkFault, IsWhole};
ghost use Rattle.trees.specs.Owners.{page_here};
ghost use Rattle.trees.specs.Trees.{RootNamed};
ghost use Rattle.compact.specs.High.{need_of};
ghost use Rattle.compact.specs.Found.{seen_in, with_node, AreFound, CanCount, StayListed};

use crate::leaves::is_high;
use ex_base::{PageNo, PortFault, ROOT_LEAST, ReadBlocks, Root};
use std::alloc::{AllocError, Global};
use std::collections::HashMap;
use trees::{Part, row_of};

/// The nodes that were seen, each with whether it leads to a high leaf, and a list of those that do.
#[derive(Drop)]
struct Found {
    seen: HashMap<u32, bool>,
    above: Vec<u32>,
}

impl Found {
    /// Nothing was seen.
    fn start(alloc: Global) -> Found
        ensures seen { (page : ℕ) → seen_in result page ≡ None }
        ensures above { result.above.items ≡ [] }
    {
        Found {
            seen: HashMap::new(alloc),
            above: Vec::new(alloc),
        }
    }

    /// A node was seen. What is known of it stays.
    fn note(&mut self, page: PageNo, high: bool) -> Result<(), AllocError>
        ensures known { OnOk result ((h : Bool) → seen_in self.old page.0 ≡ Some h
            → self.new ≡ self.old) }
        ensures here { OnOk result (seen_in self.old page.0 ≡ None
            → seen_in self.new page.0 ≡ Some high) }
        ensures others { OnOk result ((q : ℕ) → q ≢ page.0
            → seen_in self.new q ≡ seen_in self.old q) }
        ensures above { OnOk result (seen_in self.old page.0 ≡ None
            → self.new.above.items ≡ with_node high self.old.above.items page.0) }
        ensures grows { OnOk result (StayListed self.old.above.items self.new.above.items) }
    {
        if self.seen.contains_key(&page.0) {
            return Ok(());
        }
        if high {
            self.above.push(page.0)?;
        }
        match self.seen.insert(page.0, high) {
            Ok(_) => Ok(()),
            Err(_) => Err(AllocError),
        }
    }
}

/// Whether one of two facts holds.
fn either(one: bool, other: bool) -> bool
    ensures { result ≡ (one || other) }
{
    one || other
}

/// Whether the tree of a level has a high leaf. Its nodes that lead to one are listed. A node is read once, however often it is named.
fn find_high<B: ReadBlocks>(
    blocks: &mut B,
    alloc: Global,
    level: u8,
    least: u32,
    tree: Part,
    dense: u32,
    found: &mut Found,
) -> Result<bool, PortFault>
    requires ready { B.ready blocks.old }
    ensures found { IfOk result (λ high. B.tells blocks.old → (l : ℕ) → level ≡ l
        → (nodes : List ℕ) → CanCount (B.geometry blocks.old) dense (B.unit blocks.old) l
        (tree.page.0 ∷ []) (seen_in found.old) found.old.above.items nodes
        → AreFound (B.geometry blocks.old) dense (B.unit blocks.old) l (tree.page.0 ∷ []) high
        (seen_in found.new) found.new.above.items nodes) }
    ensures grows { OnOk result (StayListed found.old.above.items found.new.above.items) }
    ensures fault { IfErr result (λ fault. B.tells blocks.old
        → IsWalkFault (B.geometry blocks.old) (B.unit blocks.old) level least (tree ∷ []) fault) }
    ensures kept { Keeps B.Ground blocks.old blocks.new }
    ensures cause { HasCause (B.faults blocks.old) (B.faults blocks.new) result }
{
    if level == 0 {
        return Ok(is_high(&blocks.geometry(), dense, tree.page));
    }
    if let Some(high) = found.seen.get(&tree.page.0).copied() {
        return Ok(high);
    }
    let below = row_of(blocks, alloc, level, tree, least)?;
    let fan = blocks.geometry().fan;
    let mut high = false;
    for child in &below {
        let other = find_high(blocks, alloc, level - 1, fan, *child, dense, found)?;
        high = either(high, other);
    }
    found.note(tree.page, high)?;
    Ok(high)
}

/// Counts the nodes of a root's tree that lead to a high leaf.
fn find_root<B: ReadBlocks>(
    blocks: &mut B,
    alloc: Global,
    root: &Root,
    dense: u32,
    found: &mut Found,
) -> Result<bool, PortFault>
    requires ready { B.ready blocks.old }
    ensures found { IfOk result (λ high. B.tells blocks.old → (nodes : List ℕ)
        → CanCount (B.geometry blocks.old) dense (B.unit blocks.old) root.now.height
        (page_here root.now.page) (seen_in found.old) found.old.above.items nodes
        → AreFound (B.geometry blocks.old) dense (B.unit blocks.old) root.now.height
        (page_here root.now.page) high (seen_in found.new) found.new.above.items nodes) }
    ensures grows { OnOk result (StayListed found.old.above.items found.new.above.items) }
    ensures sound { IfErr result (λ fault. B.tells blocks.old
        → IsWhole (B.geometry blocks.old) (B.unit blocks.old) root.now → IsDamage fault → ⊥) }
    ensures kept { Keeps B.Ground blocks.old blocks.new }
    ensures cause { HasCause (B.faults blocks.old) (B.faults blocks.new) result }
{
    let Some(page) = root.page else {
        return Ok(false);
    };
    let tree = Part {
        size: root.size,
        page,
    };
    find_high(blocks, alloc, root.height, ROOT_LEAST, tree, dense, found)
}

/// How many nodes of the trees of these roots lead to a high unit, each counted once.
pub fn high_nodes<B: ReadBlocks>(
    alloc: Global,
    blocks: &mut B,
    roots: &[Root],
    dense: u32,
) -> Result<u64, PortFault>
    requires ready { B.ready blocks.old }
    ensures count { IfOk result (λ count. B.tells blocks.old
        → AllByRecursion (λ (root : RootOf).
        RootNamed (B.geometry blocks.old) (B.unit blocks.old) root.height root.page) roots.now
        → count ≡ need_of (B.geometry blocks.old) dense (B.unit blocks.old) roots.now) }
    ensures sound { IfErr result (λ fault. B.tells blocks.old
        → AllByRecursion (IsWhole (B.geometry blocks.old) (B.unit blocks.old)) roots.now
        → IsDamage fault → ⊥) }
    ensures kept { Keeps B.Ground blocks.old blocks.new }
    ensures cause { HasCause (B.faults blocks.old) (B.faults blocks.new) result }
{
    let mut found = Found::start(alloc);
    for root in roots {
        find_root(blocks, alloc, root, dense, &mut found)?;
    }
    Ok(found.above.len() as u64)
}
