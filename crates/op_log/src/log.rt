//! Records are added to the log, and it is closed.
ghost use Rattle.std.specs.Prelude.{◌≡◌, ◌↔◌, ◌+◌, ◌<◌, ◌≤◌, ◌^◌, ◌++◌, [], ◌∷◌, ℕ, List, length, vec_capacity, Some, IsTrue, IfOk, IsOk, OnOk, OnErr};
ghost use Rattle.ex_base.specs.declared.geometry.Geometry.{Geometry};
ghost use Rattle.ex_base.specs.Sizes.{volume_bytes};
ghost use Rattle.ex_base.specs.Area.{log_size};
ghost use Rattle.disk_model.specs.Outside.{Rose, Leaves, Only};
ghost use Rattle.disk_model.specs.Calls.{MakesCalls, MakesAtMost};
ghost use Rattle.disk_model.specs.Changes.{ChangesWithin, InRange};
ghost use Rattle.op_log.specs.declared.record.LogRecord.{LogRecord};
ghost use Rattle.op_log.specs.Log.{HasLog, KeepsLog, SaysEither, AddsHere, DiskSays, Adding};
ghost use Rattle.op_log.specs.Records.{record_len};

use crate::encode::encode;
use crate::layout::{CLOSED, OPEN};
use crate::length::length_of;
use crate::record::LogRecord;
use disk_model::{Disk, Failed, write_settled};
use ex_base::{Geometry, LOG_PAGES};
use std::alloc::{AllocError, Global};
use std::marker::Model;

// Writes a record behind its closed gate, and then opens the gate.
fn write_record<D: Disk>(disk: &mut D, gate: u64, bytes: &[u8]) -> Result<(), Failed>
    requires end { gate + (length bytes.now + 1) < 2 ^ 64 }
    requires room { gate + (length bytes.now + 1) ≤ (D.outside disk.old).size }
    ensures changes { ChangesWithin (InRange gate (length bytes.now
        + 1)) (D.outside disk.old) (D.outside disk.new) }
    ensures at_most_four { MakesAtMost 4 (D.outside disk.old) (D.outside disk.new) }
    ensures four { OnOk result (MakesCalls 4 (D.outside disk.old) (D.outside disk.new)) }
    ensures cause { OnErr result (Rose (D.outside disk.old).disk_faults
        (D.outside disk.new).disk_faults) }
    ensures any_moment { (g : Geometry) (records : List LogRecord) (r : LogRecord)
        → Adding g records r gate bytes.now → HasLog g (D.outside disk.old)
        → KeepsLog g (D.outside disk.old) records
        → Leaves (D.outside disk.old) (D.outside disk.new) (SaysEither g records (records ++ r
        ∷ [])) }
    ensures leaves { (g : Geometry) (records : List LogRecord) (r : LogRecord) (held : List ℕ)
        → Adding g records r gate bytes.now → HasLog g (D.outside disk.old)
        → KeepsLog g (D.outside disk.old) records → (D.outside disk.old).disk ≡ Some held
        → Leaves (D.outside disk.old) (D.outside disk.new)
        (AddsHere g records r (InRange gate (length bytes.now
        + 1)) (D.outside disk.old).images held) }
    ensures says { OnOk result ((g : Geometry) (records : List LogRecord) (r : LogRecord)
        → Adding g records r gate bytes.now → HasLog g (D.outside disk.old)
        → DiskSays g (D.outside disk.old) records
        → DiskSays g (D.outside disk.new) (records ++ r ∷ [])) }
    ensures settled { OnOk result (IsTrue (D.outside disk.old).honest → (d : List ℕ)
        → (D.outside disk.new).disk ≡ Some d → Only d (D.outside disk.new).images) }
{
    write_settled(disk, gate + 1, bytes)?;
    write_settled(disk, gate, &[OPEN])
}

// Makes a buffer at least so long, in the memory that it has.
fn lengthen(buffer: &mut Vec<u8>, len: usize)
    requires { len ≤ vec_capacity buffer.old }
    ensures long { len ≤ length buffer.new.items }
    ensures capacity { vec_capacity buffer.old ≤ vec_capacity buffer.new }
{
    if buffer.len() < len {
        match buffer.resize(len, 0) {
            Ok(()) => {}
            Err(_) => unreachable!(),
        }
    }
}

/// The log's end and the number of its records, and a buffer for the next record. The buffer has memory for the whole log from the start, and is as long
/// as the longest record so far.
#[derive(Drop)]
pub struct OpLog {
    geometry: Geometry,
    buffer: Vec<u8>,
    end: u32,
    count: u32,
}

impl Model for OpLog {
    ghost use Rattle.std.specs.Prelude.{◌<◌, ◌≤◌, vec_capacity};
    ghost use Rattle.ex_base.specs.Area.{log_size};
    ghost use Rattle.op_log.specs.State.{LogState};

    ghost Value = { LogState };

    ghost view = { λ a. record { geometry = a.geometry; end = a.end; count = a.count } };

    ghost invariant = { λ a. (log_size a.geometry ≤ vec_capacity a.buffer) × (a.end < log_size a.geometry) × (a.count ≤ a.end) };
}

impl OpLog {
    ghost use Rattle.op_log.specs.Records.{record_len, IsLogRecord};
    ghost use Rattle.op_log.specs.Log.{KeepsLog, DiskSays, SaysLog, SaysEither, AddsHere};
    ghost use Rattle.op_log.specs.State.{Prolongs};
    ghost use Rattle.op_log.specs.declared.record.LogRecord.{LogRecord};

    /// A log without a record, with the memory for a record of the log's whole size.
    pub fn make(alloc: Global, geometry: &Geometry) -> Result<OpLog, AllocError>
        ensures { IfOk result
            (λ log. log ≡ record { geometry = geometry.now; end = 0; count = 0 }) }
    {
        let size = LOG_PAGES as usize * geometry.page_size as usize;
        Ok(OpLog {
            geometry: *geometry,
            buffer: Vec::with_capacity(alloc, size)?,
            end: 0,
            count: 0,
        })
    }

    /// Sets the end, in bytes from the log's front, and the number of the records that count.
    pub fn adopt(&mut self, end: u32, count: u32)
        requires inside { end < log_size self.old.geometry }
        requires count { count ≤ end }
        ensures { self.new ≡ record self.old { end = end; count = count } }
    {
        self.end = end;
        self.count = count;
    }

    /// Whether the record and the next gate lie inside the log.
    pub fn fits(&self, item: &LogRecord) -> bool
        ensures { IsTrue result
            ↔ (self.now.end + record_len item.now < log_size self.now.geometry) }
    {
        length_of(item) < LOG_PAGES as usize * self.geometry.page_size as usize - self.end as usize
    }

    /// Adds a record: its body goes behind its gate, which is still closed, with a closed gate behind it, and is synced. Then the one byte of its gate
    /// is written and synced: two writes and two syncs. Where the disk fails, the log's end stands, and the record counts or doesn't.
    pub fn append<D: Disk>(&mut self, disk: &mut D, item: &LogRecord) -> Result<(), Failed>
        requires room { volume_bytes self.old.geometry ≤ (D.outside disk.old).size }
        requires fits { self.old.end + record_len item.now < log_size self.old.geometry }
        requires record { IsLogRecord self.old.geometry item.now }

        // The homes of the pages and the units stay.
        ensures changes { ChangesWithin (InRange (self.old.geometry.page_size
            + self.old.end) (record_len item.now + 1)) (D.outside disk.old) (D.outside disk.new) }
        ensures cause { OnErr result (Rose (D.outside disk.old).disk_faults
            (D.outside disk.new).disk_faults) }
        ensures at_most_four { MakesAtMost 4 (D.outside disk.old) (D.outside disk.new) }
        ensures four { OnOk result (MakesCalls 4 (D.outside disk.old) (D.outside disk.new)) }
        ensures counts { OnOk result (self.new ≡ record self.old {
          end = self.old.end
              + record_len item.now;
          count = self.old.count + 1;
        }) }
        ensures failed { OnErr result (self.new ≡ self.old) }

        // A crash at any moment leaves the old list or the one with the record.
        ensures any_moment { (records : List LogRecord) → Prolongs self.old records item.now
            → KeepsLog self.old.geometry (D.outside disk.old) records
            → Leaves (D.outside disk.old) (D.outside disk.new) (SaysEither self.old.geometry records
            (records ++ item.now ∷ [])) }

        // Where it leaves the one with the record, all that was written before is settled.
        ensures leaves { (records : List LogRecord) (held : List ℕ)
            → Prolongs self.old records item.now
            → KeepsLog self.old.geometry (D.outside disk.old) records
            → (D.outside disk.old).disk ≡ Some held
            → Leaves (D.outside disk.old) (D.outside disk.new)
            (AddsHere self.old.geometry records item.now
            (InRange (self.old.geometry.page_size + self.old.end) (record_len item.now
            + 1)) (D.outside disk.old).images held) }

        // The list then has one record more, and a crash leaves that one.
        ensures says { OnOk result ((records : List LogRecord) → Prolongs self.old records item.now
            → DiskSays self.old.geometry (D.outside disk.old) records
            → DiskSays self.old.geometry (D.outside disk.new) (records ++ item.now ∷ [])) }
        ensures keeps { OnOk result ((records : List LogRecord) → Prolongs self.old records item.now
            → KeepsLog self.old.geometry (D.outside disk.old) records
            → KeepsLog self.old.geometry (D.outside disk.new) (records ++ item.now ∷ [])) }
        ensures after { OnOk result ((records : List LogRecord) → Prolongs self.old records item.now
            → KeepsLog self.old.geometry (D.outside disk.old) records
            → (d : List ℕ) → (D.outside disk.new).images d
            → SaysLog self.old.geometry (records ++ item.now ∷ []) d) }
        ensures settled { OnOk result (IsTrue (D.outside disk.old).honest → (d : List ℕ)
            → (D.outside disk.new).disk ≡ Some d → Only d (D.outside disk.new).images) }
    {
        let len = length_of(item);
        let gate = self.geometry.page_size as u64 + self.end as u64;
        lengthen(&mut self.buffer, len);
        encode(&mut self.buffer, item, len);
        write_record(disk, gate, &self.buffer[..len])?;
        self.end += len as u32;
        self.count += 1;
        Ok(())
    }

    /// Closes the first gate by a write and a sync, so that no record counts. Without a record it makes no call on the disk.
    pub fn close_all<D: Disk>(&mut self, disk: &mut D) -> Result<(), Failed>
        requires room { volume_bytes self.old.geometry ≤ (D.outside disk.old).size }
        ensures changes { ChangesWithin (InRange self.old.geometry.page_size 1) (D.outside disk.old)
            (D.outside disk.new) }
        ensures cause { OnErr result (Rose (D.outside disk.old).disk_faults
            (D.outside disk.new).disk_faults) }
        ensures no_call { self.old.count ≡ 0 → disk.new ≡ disk.old }
        ensures at_most_twice { MakesAtMost 2 (D.outside disk.old) (D.outside disk.new) }
        ensures twice { OnOk result (0 < self.old.count
            → MakesCalls 2 (D.outside disk.old) (D.outside disk.new)) }
        ensures no_fault { self.old.count ≡ 0 → IsOk result }
        ensures counts { OnOk result (self.new ≡ record self.old { end = 0; count = 0 }) }
        ensures failed { OnErr result (self.new ≡ self.old) }

        // A crash at any moment leaves the old list or none.
        ensures any_moment { (records : List LogRecord) → self.old.count ≡ length records
            → KeepsLog self.old.geometry (D.outside disk.old) records
            → Leaves (D.outside disk.old) (D.outside disk.new)
            (SaysEither self.old.geometry records []) }

        // No record counts then, and a crash leaves none.
        ensures says { OnOk result ((records : List LogRecord) → self.old.count ≡ length records
            → DiskSays self.old.geometry (D.outside disk.old) records
            → DiskSays self.old.geometry (D.outside disk.new) []) }
        ensures keeps { OnOk result ((records : List LogRecord) → self.old.count ≡ length records
            → KeepsLog self.old.geometry (D.outside disk.old) records
            → KeepsLog self.old.geometry (D.outside disk.new) []) }
        ensures after { OnOk result ((records : List LogRecord) → self.old.count ≡ length records
            → KeepsLog self.old.geometry (D.outside disk.old) records
            → (d : List ℕ) → (D.outside disk.new).images d → SaysLog self.old.geometry [] d) }
        ensures settled { OnOk result (0 < self.old.count → IsTrue (D.outside disk.old).honest
            → (d : List ℕ) → (D.outside disk.new).disk ≡ Some d
            → Only d (D.outside disk.new).images) }
    {
        if self.count == 0 {
            self.end = 0;
            return Ok(());
        }
        write_settled(disk, self.geometry.page_size as u64, &[CLOSED])?;
        self.end = 0;
        self.count = 0;
        Ok(())
    }

    /// How many records count.
    pub fn count(&self) -> u32
        ensures { result ≡ self.now.count }
    {
        self.count
    }
}
