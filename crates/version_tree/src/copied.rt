//! What a call tells that makes a version by a copy of another.
use ex_base::{Oid, Root};

/// A version that was made as a copy of another.
#[derive(Debug, Clone, Copy, PartialEq, Eq)]
pub struct Copied {
    /// The new version.
    pub oid: Oid,
    /// The root of the tree that both have from then on, if they are large: it has one owner more.
    pub come: Option<Root>,
}
