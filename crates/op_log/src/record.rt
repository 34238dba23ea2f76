//! What one commit did, as the log tells it.
use crate::kind::RecordKind;
use ex_base::{Items, OpNote, PageNo};
use page_entries::Entries;

/// A note for each update, in the order in which they were accepted.
pub type Notes = Items<OpNote>;

/// The pages that a commit gave back, in rising order.
pub type PageList = Items<PageNo>;

/// What one commit did.
#[derive(Drop)]
pub struct LogRecord {
    pub kind: RecordKind,
    /// The number of the transaction, one more than that of the record before.
    pub txn: u64,
    pub notes: Notes,
    /// What it says of the pages that the commit changed, in rising order of these.
    pub pages: Entries,
    pub freed: PageList,
}
