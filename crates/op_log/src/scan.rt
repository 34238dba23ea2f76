//! The log is read.
ghost use Rattle.std.specs.Prelude.{◌≡◌, ◌↔◌, ◌<◌, ◌≤◌, ℕ, List, [], length, Some, Err, IfOk, OnOk, OnErr, IsFalse};
ghost use Rattle.ex_base.specs.Sizes.{volume_bytes};
ghost use Rattle.ex_base.specs.Area.{log_at, log_size};
ghost use Rattle.disk_model.specs.Calls.{MakesCalls, MakesAtMost};
ghost use Rattle.disk_model.specs.Outside.{Rose, ReadsOnly};
ghost use Rattle.std.specs.List.{AllByRecursion};
ghost use Rattle.op_log.specs.Records.{IsLogRecord};
ghost use Rattle.op_log.specs.Log.{LogSpells, SaysLog, log_end};
ghost use Rattle.op_log.specs.Decoding.{IsBadAt};

use crate::decoding::decode;
use crate::found::LogRecords;
use crate::layout::{CLOSED, OPEN};
use crate::length::length_of;
use crate::valid::follows;
use disk_model::{Disk, Failed};
use ex_base::{Geometry, LOG_PAGES};
use std::alloc::{AllocError, Global};

/// Why the log was not read.
#[derive(Clone, Copy, Debug, PartialEq, Eq)]
pub enum LogFault {
    /// No memory was there.
    Memory,
    /// The disk failed: its count of faults rose.
    Disk,
    /// At this offset, the end of the records before it, a gate is open and no record follows.
    Bad { at: u64 },
}

impl From<AllocError> for LogFault {
    ghost use Rattle.op_log.specs.declared.scan.LogFault.TheVariants.{Memory};

    ghost from_gives = { λ _ fault. fault ≡ Memory };

    fn from(_: AllocError) -> LogFault {
        LogFault::Memory
    }
}

impl From<Failed> for LogFault {
    ghost use Rattle.op_log.specs.declared.scan.LogFault.TheVariants.{Disk};

    ghost from_gives = { λ _ fault. fault ≡ Disk };

    fn from(_: Failed) -> LogFault {
        LogFault::Disk
    }
}

fn read_records(alloc: Global, geometry: &Geometry, log: &[u8]) -> Result<LogRecords, LogFault>
    requires { length log.now ≡ log_size geometry.now }
    ensures inside { IfOk result (λ found. log_end found < log_size geometry.now) }
    ensures records { IfOk result (λ found. LogSpells geometry.now log.now found) }
    ensures bad { (at : ℕ) → result ≡ Err (LogFault.Bad at) → IsBadAt geometry.now log.now at }
    ensures no_disk { result ≡ Err LogFault.Disk → ⊥ }
{
    let mut found = LogRecords::make(alloc);
    let mut last: Option<u64> = None;
    let mut at: usize = 0;
    while log[at] == OPEN {
        let Some(item) = decode(alloc, geometry, &log[at + 1..])? else {
            return Err(LogFault::Bad { at: at as u64 });
        };
        if !follows(last, item.txn) {
            return Err(LogFault::Bad { at: at as u64 });
        }
        last = Some(item.txn);
        at += length_of(&item);
        found.push(item)?;
    }
    Ok(found)
}

fn empty_buffer(alloc: Global, geometry: &Geometry) -> Result<Vec<u8>, AllocError>
    ensures { IfOk result (λ buffer. length buffer.items ≡ log_size geometry.now) }
{
    vec![in alloc; 0u8; LOG_PAGES as usize * geometry.page_size as usize]
}

// Whether the log's first gate is open: no record counts behind a closed one. Its one byte is read.
fn is_open<D: Disk>(disk: &mut D, geometry: &Geometry) -> Result<bool, Failed>
    requires { volume_bytes geometry.now ≤ (D.outside disk.old).size }
    ensures only { ReadsOnly (D.outside disk.old) (D.outside disk.new) }
    ensures at_most_once { MakesAtMost 1 (D.outside disk.old) (D.outside disk.new) }
    ensures once { OnOk result (MakesCalls 1 (D.outside disk.old) (D.outside disk.new)) }
    ensures closed { IfOk result (λ is_open. (d : List ℕ) → (D.outside disk.old).disk ≡ Some d
        → (IsFalse is_open ↔ SaysLog geometry.now [] d)) }
    ensures cause { OnErr result (Rose (D.outside disk.old).disk_faults
        (D.outside disk.new).disk_faults) }
{
    let mut gate = [CLOSED];
    disk.read(geometry.page_size as u64, &mut gate)?;
    Ok(gate[0] == OPEN)
}

// The records of the log, which is read whole by one call of the disk.
fn read_log<D: Disk>(
    alloc: Global,
    disk: &mut D,
    geometry: &Geometry,
) -> Result<LogRecords, LogFault>
    requires { volume_bytes geometry.now ≤ (D.outside disk.old).size }
    ensures only { ReadsOnly (D.outside disk.old) (D.outside disk.new) }
    ensures at_most_once { MakesAtMost 1 (D.outside disk.old) (D.outside disk.new) }
    ensures once { OnOk result (MakesCalls 1 (D.outside disk.old) (D.outside disk.new)) }
    ensures each { IfOk result (AllByRecursion (IsLogRecord geometry.now)) }
    ensures inside { IfOk result (λ found. log_end found < log_size geometry.now) }
    ensures records { IfOk result (λ found. (d : List ℕ) → (D.outside disk.old).disk ≡ Some d
        → SaysLog geometry.now found d) }
    ensures bad { (at : ℕ) → result ≡ Err (LogFault.Bad at) → (d : List ℕ)
        → (D.outside disk.old).disk ≡ Some d
        → IsBadAt geometry.now (log_at geometry.now d) at }
    ensures disk { result ≡ Err LogFault.Disk
        → Rose (D.outside disk.old).disk_faults (D.outside disk.new).disk_faults }
{
    let mut log = empty_buffer(alloc, geometry)?;
    disk.read(geometry.page_size as u64, &mut log)?;
    read_records(alloc, geometry, &log)
}

/// The records of the log. Where its first gate is closed, that byte alone is read, and else the whole log behind it. `Bad` comes exactly where an open gate
/// at the end of the records before it is followed by no record; a log has a list of records or a bad offset, and never both.
pub fn scan_log<D: Disk>(
    alloc: Global,
    disk: &mut D,
    geometry: &Geometry,
) -> Result<LogRecords, LogFault>
    requires { volume_bytes geometry.now ≤ (D.outside disk.old).size }
    ensures only { ReadsOnly (D.outside disk.old) (D.outside disk.new) }
    ensures at_most_twice { MakesAtMost 2 (D.outside disk.old) (D.outside disk.new) }
    ensures once { IfOk result (λ found. (d : List ℕ) → (D.outside disk.old).disk ≡ Some d
        → found ≡ [] → MakesCalls 1 (D.outside disk.old) (D.outside disk.new)) }
    ensures each { IfOk result (AllByRecursion (IsLogRecord geometry.now)) }
    ensures inside { IfOk result (λ found. log_end found < log_size geometry.now) }
    ensures records { IfOk result (λ found. (d : List ℕ) → (D.outside disk.old).disk ≡ Some d
        → SaysLog geometry.now found d) }
    ensures bad { (at : ℕ) → result ≡ Err (LogFault.Bad at) → (d : List ℕ)
        → (D.outside disk.old).disk ≡ Some d
        → IsBadAt geometry.now (log_at geometry.now d) at }
    ensures disk { result ≡ Err LogFault.Disk
        → Rose (D.outside disk.old).disk_faults (D.outside disk.new).disk_faults }
{
    if !is_open(disk, geometry)? {
        return Ok(LogRecords::make(alloc));
    }
    read_log(alloc, disk, geometry)
}
