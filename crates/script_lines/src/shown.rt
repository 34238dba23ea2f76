//! What is taken of a script: a line, or why there is none.
ghost use Rattle.std.specs.Prelude.{◌≡◌, ◌≤◌};

/// Why no line comes. Nothing is to be taken after it.
#[derive(Clone, Copy, Debug, PartialEq, Eq)]
pub enum LineFault {
    /// The source failed.
    Read,
    /// More bytes came than count, and no whole line is left among those that do.
    TooMuch,
}

/// The line that was taken last.
#[derive(Clone, Copy, Debug)]
pub enum LineRef<'a> {
    /// Its bytes, without the line feed and without one carriage return before that.
    Line(&'a [u8]),
    /// It has more than 1,048,576 bytes before its line feed.
    Long,
    /// There is none: the script is at its end.
    End,
}

/// What a line was found to be.
#[derive(Clone, Copy)]
pub(crate) enum Kind {
    Whole,
    Long,
    End,
}

/// The line that was taken last. One that is given whole stands from `from` up to `to` in the buffer.
#[derive(Clone, Copy)]
pub(crate) struct Shown {
    pub(crate) kind: Kind,
    pub(crate) from: usize,
    pub(crate) to: usize,
    ghost ordered: { from ≤ to },
    ghost inside: { to ≤ 1114112 },
}

impl Shown {
    /// A line that stands there.
    pub(crate) fn whole(from: usize, to: usize) -> Shown
        requires ordered { from ≤ to }
        requires inside { to ≤ 1114112 }
        ensures kind { result.kind ≡ Kind.Whole }
        ensures place { (result.from ≡ from) × (result.to ≡ to) }
    {
        Shown {
            kind: Kind::Whole,
            from,
            to,
        }
    }

    /// A line that is too long.
    pub(crate) fn long() -> Shown
        ensures { result.kind ≡ Kind.Long }
    {
        Shown {
            kind: Kind::Long,
            from: 0,
            to: 0,
        }
    }

    /// No line.
    pub(crate) fn end() -> Shown
        ensures { result.kind ≡ Kind.End }
    {
        Shown {
            kind: Kind::End,
            from: 0,
            to: 0,
        }
    }
}
