//! What C calls. An open handle is passed to one call at a time, with the image as the handle's last call left it.
pub(crate) mod asked;
pub(crate) mod edits;
pub(crate) mod files;
pub(crate) mod life;
pub(crate) mod lists;
pub(crate) mod numbers;
pub(crate) mod objects;
pub(crate) mod scan_calls;
pub(crate) mod turns;
pub(crate) mod version_calls;
