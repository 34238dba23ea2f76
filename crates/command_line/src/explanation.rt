//! What the program says of how it ended, on the standard error.
ghost use Rattle.std.specs.Prelude.{◌≡◌, ◌≢◌, Some, MatchOption};
ghost use Rattle.command_line.specs.Texts.{status_line};

use crate::misfit::misfit_of;
use crate::seen::Damage;
use crate::shown::Shown;
use crate::status::{Status, part_name};
use crate::usage::Usage;
use command_words::CommandWord;
use ex_base::Area;
use session_views::Part;
use std::io::ErrorKind;
use std::{fmt, io};

/// The last line: the status's number and its name.
#[derive(Clone, Copy)]
pub struct StatusLine(pub Status);

impl StatusLine {
    /// The line, or none where all was done.
    pub fn of(status: Status) -> Option<StatusLine>
        ensures { MatchOption result (status ≡ Status.Done) (λ line. line.0 ≡ status
            × status ≢ Status.Done) }
    {
        match status {
            Status::Done => None,
            _ => Some(StatusLine(status)),
        }
    }
}

impl fmt::Display for StatusLine {
    ghost output = { λ line. Some (status_line line.0) };

    fn fmt<W: fmt::Write>(&self, f: &mut fmt::Formatter<W>) -> fmt::Result {
        let status = self.0;
        let code = status.code();
        write!(f, "exsm: status {code} {status}")
    }
}

/// Why a command line ended as it did: lines that stand before the last one.
#[derive(Clone, Copy)]
pub struct Explanation<'a> {
    /// The words of the command line, as far as they were read.
    pub words: &'a [String],
    /// The word that names the volume, where they are a command line.
    pub volume: Option<&'a str>,
    /// How it ended.
    pub status: Status,
    /// The system's reason, where a call failed. Words that couldn't be read have one.
    pub cause: Option<io::Error>,
}

impl fmt::Display for Explanation<'_> {
    fn fmt<W: fmt::Write>(&self, f: &mut fmt::Formatter<W>) -> fmt::Result {
        let word = self.volume();
        let volume = Shown(word);
        match self.status {
            Status::Done => Ok(()),
            Status::Usage => self.misuse(f),
            Status::ScriptFault => self.stream(f, "standard input"),
            Status::OutputFault => {
                self.stream(f, "standard output")?;
                f.write_str(self.kept())
            }
            Status::DiskFault => self.disk(f, volume),
            Status::BadVolume { part } => {
                let (name, meaning) = (part_name(part), meaning_of(part));
                write!(
                    f,
                    "exsm: {volume} holds no volume, or a damaged one: part {name}, {meaning}. It is as it was; exsm_volume.py {volume} save FOLDER saves what can be read"
                )
            }
            Status::Memory => f.write_str("exsm: no memory; commits that were answered stay"),
            Status::Damaged { page, want, got } => {
                let damage = Damage { page, want, got };
                write!(f, "exsm: {damage}")
            }
            _ => self.refusal(f, volume),
        }
    }
}

impl Explanation<'_> {
    fn command(&self) -> Option<CommandWord> {
        match self.words.first() {
            Some(word) => CommandWord::named(word.as_str()),
            None => None,
        }
    }

    fn volume(&self) -> &str {
        match self.volume {
            Some(word) => word,
            None => "the volume",
        }
    }

    fn misuse<W: fmt::Write>(&self, f: &mut fmt::Formatter<W>) -> fmt::Result {
        let command = self.command();
        if self.cause.is_some() {
            f.write_str("exsm: a word isn't UTF-8 text\n")?;
        } else {
            match self.words.split_first() {
                Some((first, rest)) => tell_misfit(f, first.as_str(), command, rest)?,
                None => f.write_str("exsm: no command\n")?,
            }
        }
        let usage = Usage(command);
        write!(f, "{usage}")
    }

    fn stream<W: fmt::Write>(&self, f: &mut fmt::Formatter<W>, name: &str) -> fmt::Result {
        match self.cause {
            Some(cause) => write!(f, "exsm: {name}: {cause}"),
            None => write!(f, "exsm: {name} failed"),
        }
    }

    // What the volume or the stream isn't that the command needs.
    fn refusal<W: fmt::Write>(&self, f: &mut fmt::Formatter<W>, volume: Shown<'_>) -> fmt::Result {
        match self.status {
            Status::AlreadyVolume => write!(
                f,
                "exsm: {volume} begins as a volume does; nothing was written. To make it anew, remove the file, or write zeros over the front of the device"
            ),
            Status::TooSmall { have: 0, need } => write!(
                f,
                "exsm: {volume} is empty, the volume needs {need} bytes; nothing was written. Remove the file: format makes it in its size"
            ),
            Status::TooSmall { have, need } => write!(
                f,
                "exsm: {volume} has {have} bytes, the volume needs {need}; nothing was written. Make a smaller volume, or remove it if it is a file"
            ),
            Status::ScriptLong { max } => write!(
                f,
                "exsm: the script has more than {max} bytes; the lines within them were answered"
            ),
            Status::NotEmpty => write!(
                f,
                "exsm: {volume} isn't empty; a dump is loaded into a volume that format just made. It is as it was"
            ),
            Status::BadDump => write!(
                f,
                "exsm: the standard input is no dump, or a damaged one; {volume} is as it was"
            ),
            Status::Misfit {
                field,
                dump,
                volume: has,
            } => {
                let size = size_name(field);
                write!(
                    f,
                    "exsm: the dump is of a volume with {size} {dump}, {volume} has {has}"
                )
            }
            Status::NoRoom { area, need, free } => {
                let units = units_name(area);
                write!(
                    f,
                    "exsm: the dump needs {need} {units}, {volume} has {free} free: make a larger one"
                )
            }
            Status::NoPages { need, free } => write!(
                f,
                "exsm: an object needs {need} free pages to be moved, {volume} has {free}; objects before it were moved, and everything is as it was"
            ),
            _ => Ok(()),
        }
    }

    // What stays where the output failed.
    fn kept(&self) -> &str {
        match self.command() {
            Some(CommandWord::Format) => "; the volume is made",
            Some(CommandWord::Dump) => "; what was sent is no whole dump",
            Some(CommandWord::Load) => "; the dump is loaded",
            Some(CommandWord::Pack) => "; the volume is packed",
            _ => "; commits whose reply was sent stay",
        }
    }

    fn disk<W: fmt::Write>(&self, f: &mut fmt::Formatter<W>, volume: Shown<'_>) -> fmt::Result {
        let Some(cause) = self.cause else {
            return write!(f, "exsm: {volume} failed");
        };
        write!(f, "exsm: {volume}: {cause}")?;
        match (self.command(), cause.kind()) {
            (Some(CommandWord::Format), ErrorKind::NotFound) => {
                f.write_str(" (its folder isn't there)")
            }
            (Some(CommandWord::Format), _) => Ok(()),
            (_, ErrorKind::NotFound) => f.write_str(" (exsm format makes a volume)"),
            (_, ErrorKind::PermissionDenied) => f.write_str(" (an opening also writes)"),
            _ => Ok(()),
        }
    }
}

// The line on the first word that doesn't fit. Where help is asked for there is none.
fn tell_misfit<W: fmt::Write>(
    f: &mut fmt::Formatter<W>,
    first: &str,
    command: Option<CommandWord>,
    rest: &[String],
) -> fmt::Result {
    let Some(command) = command else {
        return match first {
            "help" | "--help" | "-h" => Ok(()),
            _ => {
                let first = Shown(first);
                write!(f, "exsm: '{first}' is no command\n")
            }
        };
    };
    match misfit_of(command, rest) {
        Some(misfit) => write!(f, "exsm: {misfit}\n"),
        None => f.write_str("exsm: the words aren't in the command's grammar\n"),
    }
}

// What a volume is made with, by its place among the sizes of a dump.
fn size_name(field: u8) -> &'static str {
    match field {
        1 => "page size",
        2 => "seg len",
        _ => "fan",
    }
}

// What the units of an area are called.
fn units_name(area: Area) -> &'static str {
    match area {
        Area::Page => "pages",
        Area::Segment => "segs",
    }
}

// What stands in a part of a volume.
fn meaning_of(part: Part) -> &'static str {
    match part {
        Part::Super => "the first page, which names the sizes, or the size of the file or device",
        Part::Log => "the records of transactions",
        Part::Catalog => "the list of files",
        Part::File => "the list of a file's pages",
        Part::Page => "a page of a file",
        Part::Body => "the record of an object",
        Part::Node => "a node of an object's tree",
        Part::Balance => "the sizes in an object's tree",
        Part::Unique => "the numbers of objects",
    }
}
