//! A log has one reading.
ghost use Rattle.std.specs.Prelude.{◌≡◌, ℕ, List};
ghost use Rattle.ex_base.specs.declared.geometry.Geometry.{Geometry};
ghost use Rattle.op_log.specs.declared.record.LogRecord.{LogRecord};
ghost use Rattle.op_log.specs.Log.{LogSpells};
ghost use Rattle.op_log.specs.Decoding.{IsBadAt};

/// A log has at most one list of records.
pub fn one_list_of_records()
    ensures { (g : Geometry) (log : List ℕ) (records others : List LogRecord)
        → LogSpells g log records → LogSpells g log others → records ≡ others }
{}

/// A log that is bad at some offset has no list of records.
pub fn bad_log_has_no_list()
    ensures { (g : Geometry) (log : List ℕ) (at : ℕ) (records : List LogRecord) → IsBadAt g log at
        → LogSpells g log records → ⊥ }
{}

/// A log is bad at one offset at most.
pub fn one_bad_offset()
    ensures { (g : Geometry) (log : List ℕ) (at other : ℕ) → IsBadAt g log at → IsBadAt g log other
        → at ≡ other }
{}
