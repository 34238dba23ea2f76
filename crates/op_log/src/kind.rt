//! The kinds of records.

/// How a record tells the forms of its entries. The number beside each kind stands for it in the log.
#[derive(Clone, Copy, Debug, PartialEq, Eq)]
pub enum RecordKind {
    /// Each entry is an image, and no form stands before its fields.
    Images = 1,
    /// The form of each entry stands before its fields.
    Forms = 2,
}

impl RecordKind {
    ghost use Rattle.std.specs.Prelude.{◌≡◌, MatchOption};
    ghost use Rattle.op_log.specs.declared.kind.RecordKind.{RecordKind};
    ghost use Rattle.op_log.specs.Kinds.{number_of_kind};

    /// The number that stands for the kind.
    pub fn number(self) -> u8
        ensures { result ≡ number_of_kind self }
    {
        self as u8
    }

    /// The kind that a number stands for, where there is one.
    pub fn of_number(number: u8) -> Option<RecordKind>
        ensures { MatchOption result ((kind : RecordKind)
            → ¬ number_of_kind kind ≡ number) (λ kind. number_of_kind kind ≡ number) }
    {
        match number {
            1 => Some(RecordKind::Images),
            2 => Some(RecordKind::Forms),
            _ => None,
        }
    }
}
