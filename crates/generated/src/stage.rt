//! Which line of the script comes next.
ghost use Rattle.std.specs.Prelude.{◌≡◌, ◌≤◌, ◌<◌, ◌+◌, ◌∷◌, ◌-◌, ◌++◌, drop, length, MatchOption};

/// A command whose number is a multiple of this, but the first, begins a transaction.
const TRANSACTION_LINES: u32 = 100;

/// One of six lines, by its number from 0 on.
#[derive(Clone, Copy, Debug, PartialEq, Eq)]
pub struct LineNo {
    at: u8,
    ghost within: { at < 6 },
}

/// Which line comes next.
#[derive(Clone, Copy, Debug, PartialEq, Eq)]
pub enum Stage {
    /// One of the lines that make the objects.
    Head(LineNo),
    /// The commit before a command.
    Commit,
    /// The begin before a command.
    Begin,
    /// A command.
    Command,
    /// One of the lines at the end.
    Tail(LineNo),
    /// None.
    Over,
}

impl LineNo {
    ghost use Rattle.generated.specs.Script.{head_lines, tail_lines};

    pub(crate) fn first() -> LineNo
        ensures { result.at ≡ 0 }
    {
        LineNo { at: 0 }
    }

    /// The number of the line behind it, where there is one.
    pub(crate) fn next(self) -> Option<LineNo>
        ensures { MatchOption result (self.at ≡ 5) (λ no. no.at ≡ self.at + 1) }
    {
        if self.at == 5 {
            None
        } else {
            Some(LineNo { at: self.at + 1 })
        }
    }

    /// The line of that number at the head of the script.
    pub(crate) fn head_line(self) -> &'static [u8]
        ensures { drop self.at head_lines ≡ result.now ∷ drop (self.at + 1) head_lines }
    {
        match self.at {
            0 => b"begin",
            1 => b"file gen",
            2 => b"create gen as @g0",
            3 => b"create gen as @g1",
            4 => b"create gen as @g2",
            _ => b"create gen as @g3",
        }
    }

    /// The line of that number at its end.
    pub(crate) fn tail_line(self) -> &'static [u8]
        ensures { drop self.at tail_lines ≡ result.now ∷ drop (self.at + 1) tail_lines }
    {
        match self.at {
            0 => b"digest @g0",
            1 => b"digest @g1",
            2 => b"digest @g2",
            3 => b"digest @g3",
            4 => b"space",
            _ => b"commit",
        }
    }
}

impl Stage {
    ghost use Rattle.std.specs.Prelude.{ℕ};
    ghost use Rattle.generated.specs.Commands.{Basis};
    ghost use Rattle.generated.specs.Script.{commands_from, tail_lines};
    ghost use Rattle.generated.specs.Coming.{IsAtCommand, lines_at};

    /// Where the script goes on before the command of that number, of so many in all.
    pub(crate) fn before(index: u32, count: u32) -> Stage
        requires { index ≤ count }
        ensures lines { (basis : Basis) → lines_at result index count basis
            ≡ commands_from (count - index) index basis ++ tail_lines }
        ensures room { IsAtCommand result → index < count }
    {
        if index == count {
            Stage::Tail(LineNo::first())
        } else if index > 0 && index % TRANSACTION_LINES == 0 {
            Stage::Commit
        } else {
            Stage::Command
        }
    }
}
