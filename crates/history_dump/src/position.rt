//! Where a stream goes on.

/// Which item of a stream comes next. An index may be that behind the last one: then it is the first item of the kind that follows.
#[derive(Clone, Copy)]
pub(crate) enum Position {
    Head,
    Leaf(u32),
    Node(u32),
    File(u32),
    /// A version, by its index among those of a file; `next` is the index of the file behind that one.
    Version { next: u32, at: usize },
    End,
}

impl Position {
    ghost use Rattle.history_dump.specs.Positions.{IsBelow, is_end, position_after};
    ghost use Rattle.std.specs.Prelude.{◌≡◌};

    /// Whether it is the end.
    pub(crate) fn is_end(self) -> bool
        ensures { result ≡ is_end self }
    {
        match self {
            Position::End => true,
            _ => false,
        }
    }

    /// What comes behind the item at a position.
    pub(crate) fn after(self) -> Position
        requires { IsBelow self }
        ensures { result ≡ position_after self }
    {
        match self {
            Position::Head => Position::Leaf(0),
            Position::Leaf(at) => Position::Leaf(at + 1),
            Position::Node(at) => Position::Node(at + 1),
            Position::File(at) => Position::Version {
                next: at + 1,
                at: 0,
            },
            Position::Version { next, at } => Position::Version { next, at: at + 1 },
            Position::End => Position::End,
        }
    }
}
