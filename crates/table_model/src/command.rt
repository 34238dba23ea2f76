//! A command: what the words of a line ask for.

/// The version of an object that a command names.
#[derive(Clone, Copy)]
pub enum Subject<'a> {
    /// The name that is bound to it, without its `@`.
    Name(&'a [u8]),
    /// The numbers of its identifier. One that is out of its field's range names no version.
    Number { page: u64, slot: u64, unique: u64 },
}

/// The bytes that a command gives.
#[derive(Clone, Copy)]
pub enum Given<'a> {
    /// A data word spells them: `hex:` and digits, or `rep:COUNT:BYTE`.
    Word(&'a [u8]),
    /// They stand here themselves.
    Bytes(&'a [u8]),
}

/// One command. The words of one that was read from a line are slices of that.
#[derive(Clone, Copy)]
pub enum Command<'a> {
    /// Opens a transaction.
    Begin,
    /// Makes the working state the committed one.
    Commit,
    /// Drops the working state.
    Abort,
    /// Writes logged pages home and empties the log.
    Checkpoint,
    /// Tells how many records the log has.
    Log,
    /// Lists the names of the files.
    Files,
    /// Tells how many units are in use.
    Space,
    /// Makes an empty file.
    File {
        name: &'a [u8],
    },
    /// Removes a file without objects.
    Unfile {
        name: &'a [u8],
    },
    /// Lists the objects of a file.
    List {
        name: &'a [u8],
    },
    /// Makes an empty object at the end of a file, and binds the name to it, where there is one.
    Create {
        file: &'a [u8],
        bind: Option<&'a [u8]>,
    },
    /// Removes a current version, and its object with the last one.
    Destroy {
        x: Subject<'a>,
    },
    /// Tells the bytes of a version.
    Size {
        x: Subject<'a>,
    },
    /// Tells how a version lies on the volume.
    Stat {
        x: Subject<'a>,
    },
    /// Tells the SHA-256 of a version's bytes.
    Digest {
        x: Subject<'a>,
    },
    /// Lists the versions of an object: each one before those that are derived from it.
    Versions {
        x: Subject<'a>,
    },
    /// Removes a frozen version.
    DropVersion {
        x: Subject<'a>,
    },
    /// Gives `len` bytes from `pos` on.
    Read {
        x: Subject<'a>,
        pos: u64,
        len: u32,
    },
    /// Puts bytes in before the byte at `pos`.
    Insert {
        x: Subject<'a>,
        pos: u64,
        given: Given<'a>,
    },
    /// Puts bytes at the end.
    Append {
        x: Subject<'a>,
        given: Given<'a>,
    },
    /// Puts bytes over those from `pos` on.
    Replace {
        x: Subject<'a>,
        pos: u64,
        given: Given<'a>,
    },
    /// Removes `len` bytes from `pos` on.
    Delete {
        x: Subject<'a>,
        pos: u64,
        len: u64,
    },
    /// Keeps the bytes of a current version as a frozen one, and binds the name to that, where there is one.
    Freeze {
        x: Subject<'a>,
        bind: Option<&'a [u8]>,
    },
    /// Makes a current version with the bytes of a frozen one, derived from that, and binds the name to it, where there is one.
    Derive {
        x: Subject<'a>,
        bind: Option<&'a [u8]>,
    },
    /// Makes a group of buffer frames. `mru`: its most recent frame is given up first.
    Group {
        name: &'a [u8],
        frames: u32,
        mru: bool,
    },
    /// Opens a scan of a version's bytes as they are now. Without a group it is in `main`.
    Scan {
        x: Subject<'a>,
        name: &'a [u8],
        group: Option<&'a [u8]>,
    },
    /// Gives the next bytes of a scan, at most `len` of them.
    Next {
        name: &'a [u8],
        len: u32,
    },
    /// Closes a scan.
    Close {
        name: &'a [u8],
    },
}
