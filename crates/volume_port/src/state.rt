//! All that is kept of an open volume between two calls.
use crate::logged::LoggedPages;
use buffer_groups::Groups;
use ex_base::Geometry;
use meta_pages::Meta;
use op_log::OpLog;
use page_alloc::{Filled, Units};

/// All that is kept of an open volume between two calls on its disk. What holds of its parts is said by `AreReady`, and what a port leaves of them by `Moved`.
#[derive(Drop)]
pub struct VolumeState {
    /// The sizes of the volume.
    pub geometry: Geometry,
    /// The log, and how many of its records count.
    pub log: OpLog,
    /// The images of logged pages: those of the open transaction, and those of the log.
    pub meta: Meta,
    /// The logged pages of the working state.
    pub pages: LoggedPages,
    /// Whether the committed state has a logged page, by its number.
    pub kept: Filled<bool>,
    /// Which units are in use, and how often each is named.
    pub units: Units,
    /// The frames in memory, group by group: `main` is the first.
    pub groups: Groups,
}
