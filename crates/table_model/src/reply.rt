//! What a step answers.
ghost use Rattle.std.specs.Prelude.{◌≡◌};
ghost use Rattle.table_model.specs.Refusals.{full_of};

use crate::machine::Lengths;
use crate::table::{Bytes, Name};
use ex_base::{Area, Items, Oid};

/// Names of files, in byte order.
pub type Names = Items<Name>;

/// Identifiers of versions.
pub type OidList = Items<Oid>;

/// Why a line was refused. The refusals have the numbers 1 to 25, in this order. Of those that apply the first one is given, but
/// that a busy session is told behind the limit of a line's bytes.
#[derive(Clone, Copy, Debug, PartialEq, Eq)]
pub enum Refusal {
    /// The line is over its limit.
    LineLong,
    /// The line is no command.
    Syntax,
    /// The line gives or asks for more bytes than one line may.
    DataLimit,
    /// No transaction is open.
    NoTxn,
    /// A transaction is open.
    TxnOpen,
    /// The `@name` isn't bound.
    NoName,
    /// The name to be bound is that of a bound name, an open scan or a group.
    NameTaken,
    /// No file has the name.
    NoFile,
    /// A file has the name.
    FileExists,
    /// The catalog has room for no further file.
    FilesFull,
    /// No live version has the identifier.
    NoObject,
    /// The version is frozen.
    Frozen,
    /// The version is a current one.
    Current,
    /// The file has an object.
    NotEmpty,
    /// The version has an older one from which no other is derived.
    HasVersions,
    /// No open scan has the name.
    NoScan,
    /// No group has the name.
    NoGroup,
    /// The bytes that are named end behind the object's end.
    Range,
    /// The object would be longer than an object may be.
    TooLarge,
    /// As many scans are open, or groups were made, as may be.
    TooMany { scans: bool },
    /// The next number of a version, or of a commit, is the last one of 64 bits, which stays unused.
    IdsSpent,
    /// The transaction has as many updates, or would touch more pages, than one may.
    LongTxn { updates: u32, touched: u32 },
    /// The command may need more units of the area than are free.
    Full { area: Area, need: u64, free: u64 },
    /// So many versions are derived from this one, two or more.
    Branches { derived: u64 },
    /// The transaction of another client is open. A session of one client never answers it.
    Busy { client: u8 },
}

impl Refusal {
    /// Why an update that may take `need` units of an area, of which `free` are free, is refused. None where they are enough.
    pub fn of_units(area: Area, need: u64, free: u64) -> Option<Refusal>
        ensures { result ≡ full_of area need free }
    {
        if free < need {
            return Some(Refusal::Full { area, need, free });
        }
        None
    }
}

/// What a line is answered: a reply for each command, two for `stat`, and one for a refusal.
#[derive(Drop)]
pub enum Reply {
    /// The number that the transaction's commit will have.
    Begin {
        number: u64,
    },
    /// The number of the commit.
    Commit {
        number: u64,
    },
    Abort,
    Checkpoint,
    /// The records of the log that count.
    Log {
        records: u32,
    },
    File {
        name: Name,
    },
    Unfile {
        name: Name,
    },
    Files {
        names: Names,
    },
    /// The current versions of the file, in order of their unique numbers.
    List {
        oids: OidList,
    },
    Create {
        oid: Oid,
    },
    Destroy {
        oid: Oid,
    },
    Size {
        size: u64,
    },
    /// The version is one record of so many bytes.
    StatSmall {
        size: u64,
    },
    /// The version is a tree: its bytes, height and leaves, and the bytes of its first leaves.
    StatLarge {
        size: u64,
        height: u8,
        leaves: u64,
        first: Lengths,
    },
    /// The SHA-256 of the bytes.
    Digest {
        hash: [u8; 32],
    },
    Read {
        bytes: Bytes,
    },
    /// The new size, as of the further edits.
    Insert {
        size: u64,
    },
    Append {
        size: u64,
    },
    Replace {
        size: u64,
    },
    Delete {
        size: u64,
    },
    /// The frozen version.
    Freeze {
        oid: Oid,
    },
    /// The version that was derived.
    Derive {
        oid: Oid,
    },
    /// The versions of the object, each one before those that are derived from it.
    Versions {
        oids: OidList,
    },
    DropVersion {
        oid: Oid,
    },
    Group {
        name: Name,
    },
    /// The bytes that the scan will give.
    Scan {
        name: Name,
        size: u64,
    },
    Next {
        bytes: Bytes,
    },
    Close {
        name: Name,
    },
    /// The units in use, and all that there are, of the page area and of the segment area.
    Space {
        pages: u32,
        of_pages: u32,
        segs: u32,
        of_segs: u32,
    },
    No(Refusal),
}
