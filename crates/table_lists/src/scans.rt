//! The open scans of a session.

ghost use Rattle.std.specs.Prelude.{◌≡◌, ◌+◌, map, filter, not, find, min, bytes_eq, option_copied, IfOk};
ghost use Rattle.std.specs.List.{list_any};
ghost use Rattle.ex_base.specs.Bytes.{bytes_at};
ghost use Rattle.table_model.specs.Steps.{moved, next_bytes, rest};

use crate::edit::index_of;
use crate::find::same_bytes;
use ex_base::Items;
use std::alloc::{AllocError, Global};
use table_model::{Bytes, ScanRow};

/// The bytes from a position on, so many of them, or as many as there are.
pub fn part(bytes: &[u8], pos: u64, len: u32) -> &[u8]
    ensures { result.now ≡ bytes_at bytes.now pos len }
{
    let rest = &bytes[index_of(u128::from(pos), bytes.len())..];
    &rest[..index_of(u128::from(len), rest.len())]
}

/// Whether an open scan has the name.
pub fn is_scan(scans: &[ScanRow], name: &[u8]) -> bool
    ensures { result ≡ list_any (λ s. bytes_eq s.name name.now) scans.now }
{
    for scan in scans {
        if same_bytes(scan.name.as_slice(), name) {
            return true;
        }
    }
    false
}

/// The open scan that has the name.
pub fn scan_named<'a>(scans: &'a [ScanRow], name: &[u8]) -> Option<&'a ScanRow>
    ensures { option_copied result ≡ find (λ s. bytes_eq s.name name.now) scans.now }
{
    for scan in scans {
        if same_bytes(scan.name.as_slice(), name) {
            return Some(scan);
        }
    }
    None
}

/// A copy of the scan at another position.
fn scan_at(alloc: Global, scan: &ScanRow, pos: u64) -> Result<ScanRow, AllocError>
    ensures { IfOk result (λ copy. copy ≡ record scan.now { pos = pos }) }
{
    Ok(ScanRow {
        name: Items::of_bytes(alloc, scan.name.as_slice())?,
        bytes: Items::of_bytes(alloc, scan.bytes.as_slice())?,
        pos,
    })
}

/// The scans without the one of the name.
pub fn scans_without(
    alloc: Global,
    scans: &[ScanRow],
    name: &[u8],
) -> Result<Vec<ScanRow>, AllocError>
    ensures { IfOk result (λ kept. kept.items
        ≡ filter (λ s. not (bytes_eq s.name name.now)) scans.now) }
{
    let mut out = Vec::new(alloc);
    for scan in scans {
        if !same_bytes(scan.name.as_slice(), name) {
            out.push(scan_at(alloc, scan, scan.pos)?)?;
        }
    }
    Ok(out)
}

/// How many bytes the scan gives next, where `len` are asked for.
fn taken(scan: &ScanRow, len: u32) -> u32
    ensures { result ≡ min len (rest scan.now) }
{
    let rest = (scan.bytes.len() as u64).saturating_sub(scan.pos);
    if u64::from(len) < rest {
        len
    } else {
        rest as u32
    }
}

/// The position of the scan behind the bytes that it gives next, where `len` are asked for.
fn position_after(scan: &ScanRow, len: u32) -> u64
    ensures { result ≡ scan.now.pos + min len (rest scan.now) }
{
    let _size = scan.bytes.len();
    scan.pos + u64::from(taken(scan, len))
}

/// The scans with the one of the name moved past the bytes that it gives next.
pub fn scans_moved(
    alloc: Global,
    scans: &[ScanRow],
    name: &[u8],
    len: u32,
) -> Result<Vec<ScanRow>, AllocError>
    ensures { IfOk result (λ changed. changed.items ≡ map (moved name.now len) scans.now) }
{
    let mut out = Vec::new(alloc);
    for scan in scans {
        let pos = if same_bytes(scan.name.as_slice(), name) {
            position_after(scan, len)
        } else {
            scan.pos
        };
        out.push(scan_at(alloc, scan, pos)?)?;
    }
    Ok(out)
}

/// The next bytes of the scan of the name, where `len` are asked for; none where there is no such scan.
pub fn next_bytes(
    alloc: Global,
    scans: &[ScanRow],
    name: &[u8],
    len: u32,
) -> Result<Bytes, AllocError>
    ensures { IfOk result
        (λ bytes. bytes ≡ next_bytes (find (λ s. bytes_eq s.name name.now) scans.now) len) }
{
    match scan_named(scans, name) {
        Some(scan) => {
            let given = part(scan.bytes.as_slice(), scan.pos, taken(scan, len));
            Items::of_bytes(alloc, given)
        }
        None => Ok(Items::make(alloc)),
    }
}
