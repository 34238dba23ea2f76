//! The kinds of notes that updates leave for the log.

/// What an update did. The number beside each kind stands for it in the log.
#[derive(Clone, Copy, Debug, PartialEq, Eq)]
pub enum NoteKind {
    /// A file was made.
    FileMade = 1,
    /// A file was removed.
    FileRemoved = 2,
    /// An object was made.
    ObjectMade = 3,
    /// An object was removed.
    ObjectRemoved = 4,
    /// Bytes were put in: the position and how many.
    Inserted = 5,
    /// Bytes were put at the end: the size before and how many.
    Appended = 6,
    /// Bytes were put over others: the position and how many.
    Replaced = 7,
    /// Bytes were taken out: the position and how many.
    Deleted = 8,
    /// A version was frozen.
    Frozen = 9,
    /// A frozen version was removed.
    Dropped = 10,
    /// A current version was derived from a frozen one.
    Derived = 11,
}

impl NoteKind {
    ghost use Rattle.std.specs.Prelude.{◌≡◌, MatchOption};
    ghost use Rattle.ex_base.specs.declared.notes.NoteKind.{NoteKind};
    ghost use Rattle.ex_base.specs.NoteKinds.{kind_number};

    /// Every kind.
    pub const ALL: [NoteKind; 11] = [
        NoteKind::FileMade,
        NoteKind::FileRemoved,
        NoteKind::ObjectMade,
        NoteKind::ObjectRemoved,
        NoteKind::Inserted,
        NoteKind::Appended,
        NoteKind::Replaced,
        NoteKind::Deleted,
        NoteKind::Frozen,
        NoteKind::Dropped,
        NoteKind::Derived,
    ];

    /// The number that stands for the kind.
    pub fn number(self) -> u8
        ensures { result ≡ kind_number self }
    {
        self as u8
    }

    /// The kind that a number stands for, where there is one.
    pub fn of_number(number: u8) -> Option<NoteKind>
        ensures { MatchOption result ((kind : NoteKind)
            → ¬ kind_number kind ≡ number) (λ kind. kind_number kind ≡ number) }
    {
        for kind in NoteKind::ALL {
            if kind.number() == number {
                return Some(kind);
            }
        }
        None
    }
}
