// The step over leaves: a run of leaves in a row gives way to others.
ghost use Rattle.std.specs.Prelude.{◌≡◌, ◌⊎◌, ◌≤◌, ◌<◌, ◌+◌, ◌-◌, ◌^◌, ◌++◌, ℕ, length, take, drop, OnOk, IfOk, IfErr};
ghost use Rattle.std.specs.List.{AllByRecursion};
ghost use Rattle.ex_base.specs.Area.{NamesLeaf};
ghost use Rattle.ex_base.specs.Even.{sum_of};
ghost use Rattle.ex_base.specs.Sizes.{leaf_bytes};
ghost use Rattle.ex_base.specs.Ports.{Keeps, HasCause};
ghost use Rattle.trees.specs.Damage.{IsSoundWay, IsWalkFault};
ghost use Rattle.trees.specs.Counted.{Counted};
ghost use Rattle.trees.specs.Rows.{row_size, row_bytes, AreTrees, FitLeaves};
ghost use Rattle.ex_base.specs.declared.names.Area.TheVariants.{Segment};
ghost use Rattle.trees.specs.Made.{Extends, Spent, Holds, Took, Stays, pages_of, sizes_of, changed};

use crate::read::read_row;
use crate::rows::{Part, put};
use ex_base::{Blocks, PortFault, ReadBlocks, put_bytes};
use std::alloc::Global;

/// The least number of children of the nodes below a row of leaves. There are none.
const NO_NODES: u32 = 0;

/// Where the bytes that a command gives go, and how many old bytes they replace there.
#[derive(Clone, Copy)]
pub struct Change {
    pub at: u64,
    pub cut: u64,
}

/// Copies the bytes from a position on.
fn copy_part(bytes: &[u8], at: u64, out: &mut [u8])
    requires { length out.old ≤ length bytes.now - at }
    ensures { out.new ≡ take (length out.old) (drop at bytes.now) }
{
    if out.is_empty() {
        return;
    }
    let at = at as usize;
    out.copy_from_slice(&bytes[at..at + out.len()]);
}

/// Fills a leaf with given bytes from a position on, and then with the bytes of a run of leaves.
fn fill_behind<B: ReadBlocks>(
    blocks: &mut B,
    alloc: Global,
    run: &[Part],
    from: u64,
    given: &[u8],
    inside: u64,
    out: &mut [u8],
) -> Result<(), PortFault>
    requires ready { B.ready blocks.old }
    requires leaves { FitLeaves (B.geometry blocks.old) 0 run.now }
    requires sizes { from + inside < 2 ^ 64 }
    requires range { length out.old ≤ length given.now + (row_size run.now - from) - inside }
    ensures bytes { OnOk result (B.tells blocks.old
        → AreTrees (B.geometry blocks.old) (B.unit blocks.old) 0 run.now
        → out.new ≡ take (length out.old) (drop inside (given.now
        ++ drop from (row_bytes (B.unit blocks.old) 0 run.now)))) }
    ensures way { OnOk result (B.tells blocks.old → (byte : ℕ) → from ≤ byte
        → inside ≤ byte - from + length given.now
        → byte - from + length given.now < inside + length out.old
        → IsSoundWay (B.geometry blocks.old) (B.unit blocks.old)
        (NamesLeaf (B.geometry blocks.old)) 0 0 run.now byte byte) }
    ensures fault { IfErr result (λ fault. B.tells blocks.old
        → IsWalkFault (B.geometry blocks.old) (B.unit blocks.old) 0 0 run.now fault) }
    ensures kept { Keeps B.Ground blocks.old blocks.new }
    ensures cause { HasCause (B.faults blocks.old) (B.faults blocks.new) result }
{
    let n = (out.len() as u64).min((given.len() as u64).saturating_sub(inside)) as usize;
    copy_part(given, inside, &mut out[..n]);
    let behind = inside.saturating_sub(given.len() as u64);
    read_row(
        blocks,
        alloc,
        0,
        NO_NODES,
        run,
        from + behind,
        &mut out[n..],
    )
}

/// Puts given bytes at a place of a buffer and moves the bytes from there on behind them. Bytes that fall off its end are gone.
fn put_between(out: &mut [u8], at: usize, given: &[u8])
    requires { at + length given.now ≤ length out.old }
    ensures { out.new ≡ take at out.old ++ given.now
        ++ take (length out.old - at - length given.now) (drop at out.old) }
{
    let behind = at + given.len();
    let end = out.len() - given.len();
    out.copy_within(at..end, behind);
    put_bytes(out, at, given);
}

/// The given bytes from a position on, as many as a place has.
fn part_of(given: &[u8], from: u64, most: usize) -> &[u8]
    ensures { result.now ≡ take most (drop from given.now) }
{
    if from >= given.len() as u64 {
        return &[];
    }
    let rest = &given[from as usize..];
    &rest[..most.min(rest.len())]
}

/// Fills a leaf with the new bytes of a run of leaves from a position on, where given bytes come between old ones. The old ones are read together.
fn fill_once<B: ReadBlocks>(
    blocks: &mut B,
    alloc: Global,
    run: &[Part],
    place: u64,
    given: &[u8],
    at: u64,
    out: &mut [u8],
) -> Result<(), PortFault>
    requires ready { B.ready blocks.old }
    requires leaves { FitLeaves (B.geometry blocks.old) 0 run.now }
    requires change { place ≤ row_size run.now }
    requires sizes { row_size run.now + at < 2 ^ 64 }
    requires range { at + length out.old ≤ row_size run.now + length given.now }
    ensures bytes { OnOk result (B.tells blocks.old
        → AreTrees (B.geometry blocks.old) (B.unit blocks.old) 0 run.now
        → out.new ≡ take (length out.old)
        (drop at (changed (row_bytes (B.unit blocks.old) 0 run.now) place 0 given.now))) }
    ensures way { OnOk result (B.tells blocks.old → (byte new : ℕ)
        → Stays place 0 (length given.now) byte new → at ≤ new
        → new < at + length out.old → IsSoundWay (B.geometry blocks.old) (B.unit blocks.old)
        (NamesLeaf (B.geometry blocks.old)) 0 0 run.now byte byte) }
    ensures fault { IfErr result (λ fault. B.tells blocks.old
        → IsWalkFault (B.geometry blocks.old) (B.unit blocks.old) 0 0 run.now fault) }
    ensures kept { Keeps B.Ground blocks.old blocks.new }
    ensures cause { HasCause (B.faults blocks.old) (B.faults blocks.new) result }
{
    let before = (out.len() as u64).min(place.saturating_sub(at)) as usize;
    let inside = at.saturating_sub(place);
    let new = part_of(given, inside, out.len() - before);
    let from = at.min(place) + inside.saturating_sub(given.len() as u64);
    let old = out.len() - new.len();
    read_row(blocks, alloc, 0, NO_NODES, run, from, &mut out[..old])?;
    put_between(out, before, new);
    Ok(())
}

/// Fills a leaf with the new bytes of a run of leaves from a position on.
fn fill<B: ReadBlocks>(
    blocks: &mut B,
    alloc: Global,
    run: &[Part],
    change: Change,
    given: &[u8],
    at: u64,
    out: &mut [u8],
) -> Result<(), PortFault>
    requires ready { B.ready blocks.old }
    requires leaves { FitLeaves (B.geometry blocks.old) 0 run.now }
    requires change { change.at + change.cut ≤ row_size run.now }
    requires sizes { row_size run.now + at < 2 ^ 64 }
    requires range { at + length out.old ≤ row_size run.now - change.cut + length given.now }
    ensures bytes { OnOk result (B.tells blocks.old
        → AreTrees (B.geometry blocks.old) (B.unit blocks.old) 0 run.now
        → out.new ≡ take (length out.old)
        (drop at (changed (row_bytes (B.unit blocks.old) 0 run.now) change.at change.cut given.now))) }
    ensures way { OnOk result (B.tells blocks.old → (byte new : ℕ)
        → Stays change.at change.cut (length given.now) byte new → at ≤ new
        → new < at + length out.old → IsSoundWay (B.geometry blocks.old) (B.unit blocks.old)
        (NamesLeaf (B.geometry blocks.old)) 0 0 run.now byte byte) }
    ensures fault { IfErr result (λ fault. B.tells blocks.old
        → IsWalkFault (B.geometry blocks.old) (B.unit blocks.old) 0 0 run.now fault) }
    ensures kept { Keeps B.Ground blocks.old blocks.new }
    ensures cause { HasCause (B.faults blocks.old) (B.faults blocks.new) result }
{
    if change.cut == 0 {
        return fill_once(blocks, alloc, run, change.at, given, at, out);
    }
    let n = (out.len() as u64).min(change.at.saturating_sub(at)) as usize;
    read_row(blocks, alloc, 0, NO_NODES, run, at, &mut out[..n])?;
    let inside = at.saturating_sub(change.at);
    fill_behind(
        blocks,
        alloc,
        run,
        change.at + change.cut,
        given,
        inside,
        &mut out[n..],
    )
}

/// New leaves of these lengths, which hold the bytes of a run of leaves after a change.
pub fn write_leaves<B: Blocks>(
    blocks: &mut B,
    alloc: Global,
    buffer: &mut [u8],
    run: &[Part],
    change: Change,
    given: &[u8],
    lengths: &[u32],
) -> Result<Vec<Part>, PortFault>
    requires ready { B.ready blocks.old }
    requires leaves { FitLeaves (B.geometry blocks.old) 0 run.now }
    requires change { change.at + change.cut ≤ row_size run.now }
    requires buffer { length buffer.old ≡ leaf_bytes (B.geometry blocks.old) }
    requires lengths { AllByRecursion (λ n. (1 ≤ n) × (n ≤ length buffer.old)) lengths.now }
    requires sum { sum_of (λ n. n) lengths.now ≡ row_size run.now - change.cut + length given.now }
    requires limit { row_size run.now + length given.now < 2 ^ 63 }
    requires free { length lengths.now ≤ B.free blocks.old Segment }
    ensures extends { OnOk result (Extends B.Ground blocks.old blocks.new) }
    ensures sizes { IfOk result (λ row. sizes_of row.items ≡ lengths.now) }
    ensures named { IfOk result
        (λ row. AllByRecursion (λ part. NamesLeaf (B.geometry blocks.old) part.page.0) row.items) }
    ensures took { IfOk result (λ row. Took B.Ground blocks.old blocks.new (pages_of row.items)) }
    ensures spent { OnOk result (Spent B.Ground blocks.old blocks.new (length lengths.now) 0) }
    ensures counts { OnOk result (Counted B.Ground blocks.old blocks.new) }
    ensures bytes { IfOk result (λ row. B.tells blocks.old → Holds B.Ground blocks.old 0 run.now
        → row_bytes (B.unit blocks.new) 0 row.items
        ≡ changed (row_bytes (B.unit blocks.old) 0 run.now) change.at change.cut given.now) }
    ensures way { OnOk result (B.tells blocks.old → (byte : ℕ) → byte < row_size run.now
        → (byte < change.at) ⊎ (change.at + change.cut ≤ byte)
        → IsSoundWay (B.geometry blocks.old) (B.unit blocks.old)
        (NamesLeaf (B.geometry blocks.old)) 0 0 run.now byte byte) }
    ensures fault { IfErr result (λ fault. B.tells blocks.old
        → IsWalkFault (B.geometry blocks.old) (B.unit blocks.old) 0 0 run.now fault) }
    ensures leads { B.leads blocks.old blocks.new }
    ensures cause { HasCause (B.faults blocks.old) (B.faults blocks.new) result }
{
    let mut row = Vec::new(alloc);
    let mut at = 0;
    for size in lengths {
        let len = *size as usize;
        let out = &mut buffer[..len];
        fill(blocks, alloc, run, change, given, at, out)?;
        let page = blocks.new_leaf(&buffer[..len])?;
        let part = Part {
            size: *size as u64,
            page,
        };
        put(&mut row, part)?;
        at += *size as u64;
    }
    Ok(row)
}
