//! How the program ends.
ghost use Rattle.std.specs.Prelude.{◌≡◌, ◌≢◌, ◌↔◌, Some};
ghost use Rattle.std.specs.Process.{exit_status};
ghost use Rattle.command_line.specs.Status.{code_of, status_name, part_name};

use ex_base::{Area, PageNo, Seen};
use session_views::Part;
use std::fmt;
use std::io::ErrorKind;
use std::process::ExitCode;

/// How a command ends.
#[derive(Clone, Copy, Debug, PartialEq, Eq)]
pub enum Status {
    /// The command did all that it was asked for.
    Done,
    /// The words are no command line of the program.
    Usage,
    /// The script could not be read.
    ScriptFault,
    /// The output could not be written.
    OutputFault,
    /// The disk failed.
    DiskFault,
    /// The disk holds no volume. `part` is the first part that fails.
    BadVolume { part: Part },
    /// No memory was there.
    Memory,
    /// A page that was read isn't what the page that names it says.
    Damaged { page: PageNo, want: Seen, got: Seen },
    /// The disk to be formatted holds a volume.
    AlreadyVolume,
    /// The disk to be formatted has fewer bytes than the volume needs.
    TooSmall { have: u64, need: u64 },
    /// The script has more than `max` bytes.
    ScriptLong { max: u64 },
    /// The volume that a dump is to be loaded into isn't empty.
    NotEmpty,
    /// The stream is no dump.
    BadDump,
    /// The dump is of a volume of other sizes. `field` is the first that differs: the page size (1), the length of a segment (2) or the fan (3).
    Misfit { field: u8, dump: u32, volume: u32 },
    /// The volume has fewer free units in the area than the dump needs.
    NoRoom { area: Area, need: u64, free: u64 },
    /// The volume has fewer free pages than an object needs to be moved.
    NoPages { need: u64, free: u64 },
}

impl Status {
    /// The exit status of the program: 0 where the command did all, and 2 to 16 in the order above else.
    pub fn code(&self) -> u8
        ensures { result ≡ code_of self.now }
    {
        match self {
            Status::Done => 0,
            Status::Usage => 2,
            Status::ScriptFault => 3,
            Status::OutputFault => 4,
            Status::DiskFault => 5,
            Status::BadVolume { .. } => 6,
            Status::Memory => 7,
            Status::Damaged { .. } => 8,
            Status::AlreadyVolume => 9,
            Status::TooSmall { .. } => 10,
            Status::ScriptLong { .. } => 11,
            Status::NotEmpty => 12,
            Status::BadDump => 13,
            Status::Misfit { .. } => 14,
            Status::NoRoom { .. } => 15,
            Status::NoPages { .. } => 16,
        }
    }
}

impl Status {
    /// The status where the words of the command line couldn't be read: want of memory where that was the reason, and else wrong words.
    pub fn of_unread_words(reason: ErrorKind) -> Status
        ensures memory { (result ≡ Status.Memory) ↔ (reason ≡ ErrorKind.OutOfMemory) }
        ensures usage { reason ≢ ErrorKind.OutOfMemory → result ≡ Status.Usage }
    {
        match reason {
            ErrorKind::OutOfMemory => Status::Memory,
            _ => Status::Usage,
        }
    }

    /// What the program ends with.
    pub fn exit_code(&self) -> ExitCode
        ensures { exit_status result ≡ code_of self.now }
    {
        ExitCode::from(self.code())
    }
}

impl fmt::Display for Status {
    ghost output = { λ s. Some (status_name s) };

    fn fmt<W: fmt::Write>(&self, f: &mut fmt::Formatter<W>) -> fmt::Result {
        match self {
            Status::Done => f.write_str("done"),
            Status::Usage => f.write_str("usage"),
            Status::ScriptFault => f.write_str("script fault"),
            Status::OutputFault => f.write_str("output fault"),
            Status::DiskFault => f.write_str("disk fault"),
            Status::BadVolume { part } => {
                let name = part_name(*part);
                write!(f, "bad volume {name}")
            }
            Status::Memory => f.write_str("memory"),
            Status::Damaged { .. } => f.write_str("damaged"),
            Status::AlreadyVolume => f.write_str("already a volume"),
            Status::TooSmall { .. } => f.write_str("too small"),
            Status::ScriptLong { .. } => f.write_str("script long"),
            Status::NotEmpty => f.write_str("not empty"),
            Status::BadDump => f.write_str("bad dump"),
            Status::Misfit { .. } => f.write_str("misfit"),
            Status::NoRoom { .. } => f.write_str("no room"),
            Status::NoPages { .. } => f.write_str("no pages"),
        }
    }
}

/// A part's name, as the program prints it.
pub fn part_name(part: Part) -> &'static str
    ensures { result.now ≡ part_name part }
{
    match part {
        Part::Super => "super",
        Part::Log => "log",
        Part::Catalog => "catalog",
        Part::File => "file",
        Part::Page => "page",
        Part::Body => "body",
        Part::Node => "node",
        Part::Balance => "balance",
        Part::Unique => "unique",
    }
}
