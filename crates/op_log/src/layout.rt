//! The numbers of the log's format.

/// The gate of a record that counts. Any other gate is closed.
pub const OPEN: u8 = 1;

/// The gate that is written where no record counts.
pub const CLOSED: u8 = 0;

/// The bytes of a record's head, its gate not included: the kind, the length, the transaction's number, and how many notes, entries and freed pages
/// follow.
pub const HEAD_LEN: usize = 19;

/// The bytes of a note: its kind, an OID and two numbers.
pub const NOTE_LEN: usize = 31;

/// The bytes of a page number.
pub const NUMBER_LEN: usize = 4;

/// The bytes of an entry's form.
pub const FORM_LEN: usize = 1;
