//! The log of commits. Records stand one behind the other from the log's front on, each behind a gate of one byte. A record counts where its gate is
//! 1 and all records before it count, so a commit is done at the moment at which the one byte of its gate is on the disk.
#![tactic(auto)]

mod decoding;
mod encode;
mod entries;
mod found;
mod kind;
mod laws;
mod layout;
mod length;
mod log;
mod record;
mod scan;
mod valid;

pub use decoding::decode;
pub use found::LogRecords;
pub use kind::RecordKind;
pub use laws::{bad_log_has_no_list, one_bad_offset, one_list_of_records};
pub use log::OpLog;
pub use record::{LogRecord, Notes, PageList};
pub use scan::{LogFault, scan_log};
