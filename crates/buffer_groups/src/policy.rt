//! Which frame of a full group gives way.

/// Which frame gives way to a page that has none, where every frame is used.
#[derive(Clone, Copy, Debug, PartialEq, Eq)]
pub enum Policy {
    /// The frame whose page was fetched the longest time ago.
    Lru,
    /// The frame whose page was fetched last.
    Mru,
}
