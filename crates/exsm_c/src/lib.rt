//! exsm for C: one export for each call of the library, over one handle.
#![tactic(auto)]

mod codes;
mod exports;
mod handle;
mod making;
mod open;
mod passed;
mod steps;
mod told;

pub use exports::asked::{exsm_core_asked, exsm_core_call, exsm_core_made};
pub use exports::edits::{
    exsm_core_append, exsm_core_delete, exsm_core_fill, exsm_core_insert, exsm_core_replace,
};
pub use exports::files::{exsm_core_file, exsm_core_files, exsm_core_list, exsm_core_unfile};
pub use exports::life::{
    exsm_core_close, exsm_core_line, exsm_core_make, exsm_core_open, exsm_core_text,
    exsm_core_text_len, exsm_core_why,
};
pub use exports::lists::{exsm_core_name_at, exsm_core_oid_at};
pub use exports::numbers::{exsm_core_check, exsm_core_log, exsm_core_space};
pub use exports::objects::{
    exsm_core_create, exsm_core_destroy, exsm_core_digest, exsm_core_read, exsm_core_size,
    exsm_core_stat,
};
pub use exports::scan_calls::{exsm_core_end, exsm_core_group, exsm_core_next, exsm_core_scan};
pub use exports::turns::{
    exsm_core_abort, exsm_core_begin, exsm_core_checkpoint, exsm_core_commit,
};
pub use exports::version_calls::{
    exsm_core_derive, exsm_core_drop, exsm_core_freeze, exsm_core_versions,
};
pub use handle::Handle;
pub use passed::{AskedCall, Counts, Identifier, Shape, Sizes, Units, Why};
