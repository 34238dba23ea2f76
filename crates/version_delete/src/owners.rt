//! An owner is taken away from a tree.
ghost use Rattle.std.specs.Prelude.{◌≡◌, ◌+◌, ◌≤◌, ℕ, List, [], ◌∷◌, true, false, OnOk, IfErr};
ghost use Rattle.ex_base.specs.Ports.{HasCause};
ghost use Rattle.ex_base.specs.declared.names.Area.TheVariants.{Page};
ghost use Rattle.trees.specs.Owners.{root_pages};
ghost use Rattle.trees.specs.Counted.{HasCounts};
ghost use Rattle.version_delete.specs.Released.{AreApart, Gives, Released, Blames, BlamesAlways, LosesLast};
ghost use Rattle.trees.specs.Damage.{AnyPart, IsLeafFault, root_row};
ghost use Rattle.trees.specs.Made.{pages_of};

use crate::steps::Steps;
use ex_base::{CountBlocks, PageNo, PortFault, ROOT_LEAST, Root};
use std::alloc::Global;
use std::sync::ledger::Ledger;
use trees::{Part, names_node, no_leaf, no_node, row_of};

/// Takes an owner away from a leaf. Where none is left it is given back.
#[inline(always)]
fn release_leaf<B: CountBlocks>(blocks: &mut B, page: PageNo) -> Result<(), PortFault>
    requires ready { B.ready blocks.old }
    requires counts { HasCounts B.Ground blocks.old }
    requires apart { AreApart B.Ground blocks.old }
    ensures released { OnOk result (Released B.Ground blocks.old blocks.new 0 (page.0 ∷ [])) }
    ensures gives { Gives B.Ground blocks.old blocks.new }
    ensures pages { B.free blocks.new Page ≡ B.free blocks.old Page }
    ensures idle { B.idle blocks.old blocks.new }
    ensures fault { IfErr result (λ fault. IsLeafFault (B.geometry blocks.old) page fault) }
    ensures cause { HasCause (B.faults blocks.old) (B.faults blocks.new) result }
{
    if !blocks.geometry().names_leaf(page) {
        return Err(no_leaf(page));
    }
    if blocks.drop_ref(page) {
        blocks.give_unit(page);
    }
    Ok(())
}

/// Takes an owner away from each leaf of a row.
fn release_leaves<B: CountBlocks>(blocks: &mut B, row: &[Part]) -> Result<(), PortFault>
    requires ready { B.ready blocks.old }
    requires counts { HasCounts B.Ground blocks.old }
    requires apart { AreApart B.Ground blocks.old }
    ensures released { OnOk result (Released B.Ground blocks.old blocks.new 0 (pages_of row.now)) }
    ensures gives { Gives B.Ground blocks.old blocks.new }
    ensures pages { B.free blocks.new Page ≡ B.free blocks.old Page }
    ensures fault { IfErr result (λ fault. AnyPart (λ leaf.
        IsLeafFault (B.geometry blocks.old) leaf.page fault) row.now) }
    ensures cause { HasCause (B.faults blocks.old) (B.faults blocks.new) result }
{
    for leaf in row {
        match release_leaf(blocks, leaf.page) {
            Ok(()) => {}
            Err(fault) => return Err(fault),
        }
    }
    Ok(())
}

/// Gives up a node whose last owner was taken away: its unit is given back, and each unit that it names has an owner less. `before` is any state in which it
/// still had that owner.
#[cycle(giving)]
fn give_up<B: CountBlocks, L: Ledger>(
    blocks: &mut B,
    alloc: Global,
    level: u8,
    least: u32,
    tree: Part,
    steps: &mut Steps<L>,
) -> Result<(), PortFault>
    requires ready { B.ready blocks.old }
    requires counts { HasCounts B.Ground blocks.old }
    requires apart { AreApart B.Ground blocks.old }
    requires node { 1 ≤ level }
    requires used { B.used blocks.old tree.page.0 ≡ true }
    requires unnamed { B.refs blocks.old tree.page.0 ≡ 0 }
    requires unlogged { B.held blocks.old tree.page.0 ≡ false }
    ensures released { OnOk result ((before : B)
        → LosesLast B.Ground before blocks.old tree.page.0
        → Released B.Ground before blocks.new level (tree.page.0 ∷ [])) }
    ensures gives { (before : B) → LosesLast B.Ground before blocks.old tree.page.0
        → Gives B.Ground before blocks.new }
    ensures cost { OnOk result (steps.new + B.free blocks.old Page ≡ steps.old
        + B.free blocks.new Page) }
    ensures rises { steps.old + 1 ≤ steps.new }
    ensures fault { IfErr result (λ fault. (before : B)
        → LosesLast B.Ground before blocks.old tree.page.0
        → Blames B.Ground before level least (tree ∷ []) fault) }
    ensures way { IfErr result (λ fault. (before : B)
        → LosesLast B.Ground before blocks.old tree.page.0
        → BlamesAlways B.Ground before level least (tree ∷ []) fault) }
    ensures cause { HasCause (B.faults blocks.old) (B.faults blocks.new) result }
{
    steps.tick();
    let below = match row_of(blocks, alloc, level, tree, least) {
        Ok(below) => below,
        Err(fault) => return Err(fault),
    };
    blocks.give_unit(tree.page);
    if level == 1 {
        match release_leaves(blocks, &below) {
            Ok(()) => return Ok(()),
            Err(fault) => return Err(fault),
        }
    }
    let fan = blocks.geometry().fan;
    for child in &below {
        match release(blocks, alloc, level - 1, fan, *child, steps) {
            Ok(()) => {}
            Err(fault) => return Err(fault),
        }
    }
    Ok(())
}

/// Takes an owner away from the tree of a level. Where none is left it is given up. Most nodes have another owner, so that an owner less of each child of
/// a node costs no call.
#[cycle(giving)]
#[inline(always)]
fn release<B: CountBlocks, L: Ledger>(
    blocks: &mut B,
    alloc: Global,
    level: u8,
    least: u32,
    tree: Part,
    steps: &mut Steps<L>,
) -> Result<(), PortFault>
    requires ready { B.ready blocks.old }
    requires counts { HasCounts B.Ground blocks.old }
    requires apart { AreApart B.Ground blocks.old }
    ensures released { OnOk result (Released B.Ground blocks.old blocks.new level (tree.page.0
        ∷ [])) }
    ensures gives { Gives B.Ground blocks.old blocks.new }
    ensures cost { OnOk result (steps.new + B.free blocks.old Page ≡ steps.old
        + B.free blocks.new Page) }
    ensures rises { steps.old ≤ steps.new }
    ensures idle { steps.new ≡ steps.old → B.idle blocks.old blocks.new }
    ensures fault { IfErr result (λ fault. Blames B.Ground blocks.old level least (tree
        ∷ []) fault) }
    ensures way { IfErr result (λ fault. BlamesAlways B.Ground blocks.old level least (tree
        ∷ []) fault) }
    ensures cause { HasCause (B.faults blocks.old) (B.faults blocks.new) result }
{
    if level == 0 {
        return release_leaf(blocks, tree.page);
    }
    if !names_node(&blocks.geometry(), tree.page) {
        return Err(no_node(tree.page, level, tree.size));
    }
    if !blocks.drop_ref(tree.page) {
        return Ok(());
    }
    give_up(blocks, alloc, level, least, tree, steps)
}

/// Takes an owner away from the tree of a root. Each node that is read is given back, and where none was read the disk wasn't called.
pub fn release_tree<B: CountBlocks, L: Ledger>(
    blocks: &mut B,
    alloc: Global,
    root: &Root,
    steps: &mut Steps<L>,
) -> Result<(), PortFault>
    requires ready { B.ready blocks.old }
    requires counts { HasCounts B.Ground blocks.old }
    requires apart { AreApart B.Ground blocks.old }
    ensures released { OnOk result (Released B.Ground blocks.old blocks.new root.now.height
        (root_pages (root.now ∷ []))) }
    ensures gives { Gives B.Ground blocks.old blocks.new }
    ensures cost { OnOk result (steps.new + B.free blocks.old Page ≡ steps.old
        + B.free blocks.new Page) }
    ensures rises { steps.old ≤ steps.new }
    ensures idle { steps.new ≡ steps.old → B.idle blocks.old blocks.new }
    ensures fault { IfErr result (λ fault. Blames B.Ground blocks.old root.now.height 2
        (root_row root.now) fault) }
    ensures way { IfErr result (λ fault. BlamesAlways B.Ground blocks.old root.now.height 2
        (root_row root.now) fault) }
    ensures cause { HasCause (B.faults blocks.old) (B.faults blocks.new) result }
{
    match root.page {
        None => Ok(()),
        Some(page) => release(
            blocks,
            alloc,
            root.height,
            ROOT_LEAST,
            Part {
                size: root.size,
                page,
            },
            steps,
        ),
    }
}
