//! What is known of a volume before its first version is moved.

/// What is read before the first version is moved, and stays: installs change neither the catalog nor the number of units in use.
#[derive(Drop)]
pub struct Start {
    /// The bytes of the catalog's page.
    pub catalog: Vec<u8>,
    /// The number of the last transaction.
    pub last: u64,
    /// How many units of the segment area are in use.
    pub segs: u32,
    /// How many pages are free.
    pub pages: u32,
}
