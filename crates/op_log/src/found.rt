//! The records that a log holds.
ghost use Rattle.std.specs.Prelude.{◌≡◌, ◌+◌, ◌<◌, ◌^◌, ◌++◌, [], ◌∷◌, OnOk, OnErr};

use crate::length::length_of;
use crate::record::LogRecord;
use std::alloc::{AllocError, Global};
use std::marker::Model;

/// The records of a log, in order.
#[derive(Drop)]
pub struct LogRecords {
    items: Vec<LogRecord>,
    end: u32,
}

impl Model for LogRecords {
    ghost use Rattle.std.specs.Prelude.{◌≡◌, List};
    ghost use Rattle.op_log.specs.declared.record.LogRecord.{LogRecord};

    ghost Value = { List LogRecord };

    ghost use Rattle.op_log.specs.Log.{log_end};

    ghost view = { λ a. a.items.items };

    ghost invariant = { λ a. a.end ≡ log_end a.items.items };
}

impl LogRecords {
    ghost use Rattle.op_log.specs.Log.{log_end};
    ghost use Rattle.op_log.specs.Records.{record_len};

    /// No record.
    pub fn make(alloc: Global) -> LogRecords
        ensures { result ≡ [] }
    {
        LogRecords {
            items: Vec::new(alloc),
            end: 0,
        }
    }

    /// Puts a record last. Where there is no memory, nothing changes.
    pub fn push(&mut self, item: LogRecord) -> Result<(), AllocError>
        requires { log_end self.old + record_len item < 2 ^ 32 }
        ensures ok { OnOk result (self.new ≡ self.old ++ item ∷ []) }
        ensures err { OnErr result (self.new ≡ self.old) }
    {
        let len = length_of(&item);
        self.items.push(item)?;
        self.end += len as u32;
        Ok(())
    }

    /// The offset after the last record, in bytes from the log's front: 0 where there is none.
    pub fn end(&self) -> u32
        ensures { result ≡ log_end self.now }
    {
        self.end
    }

    pub fn as_slice(&self) -> &[LogRecord]
        ensures { result.now ≡ self.now }
    {
        self.items.as_slice()
    }
}
