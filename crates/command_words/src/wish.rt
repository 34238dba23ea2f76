//! What a command line asks for.
use ex_base::Geometry;

/// What a command line asks for.
#[derive(Clone, Copy, Debug, PartialEq, Eq)]
pub enum Wish {
    /// To make a volume of this geometry.
    Format(Geometry),
    /// To open a volume and to step the lines of a script of at most so many bytes.
    Run { most: u64 },
    /// To open a volume and to count what it holds.
    Check,
    /// To open a volume and to step so many generated commands on it.
    Gen { seed: u64, count: u32 },
    /// To open a volume and to step the lines of a schedule of at most so many bytes.
    Clients { most: u64 },
    /// To open a volume and to write its whole history as a stream.
    Dump,
    /// To open a volume that is empty and to read a stream of a history into it.
    Load,
    /// To open a volume and to move its trees to the lowest units of the segment area.
    Pack,
}
