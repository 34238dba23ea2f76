//! The system that a program runs on.
ghost use Rattle.std.specs.Prelude.{◌≡◌, ◌≢◌, IfOk, List, ℕ, None, Option};
ghost use Rattle.command_words.specs.Wishes.{texts};
ghost use Rattle.command_words.specs.declared.request.NamedFile.{NamedFile};
ghost use Rattle.disk_model.specs.Outside.{HasNoFaults};
ghost use Rattle.exsm_run.specs.Program.{IsCause};
ghost use Rattle.exsm_run.specs.declared.system.RunEnding.{RunEnding};

use crate::status::Status;
use command_words::NamedFile;
use disk_model::{Host, World};
use file_host::{FileHost, VolumeFile};
use std::alloc::AllocError;
use std::fs::File;
use std::io::{Eprint, Stdin, Stdout};
use std::{env, io};

/// How a command line ended, and the system's reason where a call failed.
#[derive(Clone, Copy)]
pub struct RunEnding {
    /// Whether all was done, or why not.
    pub status: Status,
    /// The system's reason, where a call of the system failed.
    pub cause: Option<io::Error>,
}

impl RunEnding {
    // No memory was there.
    pub(crate) const OF_NO_MEMORY: RunEnding = RunEnding {
        status: Status::Memory,
        cause: None,
    };
}

/// The system that a program runs on: the words that it was started with, its files, and the standard streams.
pub trait System: AllocGlobal + Eprint {
    /// The host over a file and the standard input and output.
    type Over: Host + Drop;

    /// The program was started with these words, behind its own name.
    ghost started: { Self → List (List ℕ) → Type 0 };

    /// The host was opened over this file, or over none.
    ghost opened: { Self → Option NamedFile → Self.Over → Type 0 };

    /// The ending has the system's reason for its status, as the host kept it.
    ghost told: { Self.Over → RunEnding → Type 0 };

    /// The words that the program was started with, without its own name.
    fn words(&self) -> io::Result<Vec<String>>
        ensures { IfOk result (λ words. started self.now (texts words.items)) };

    /// Opens the host over a file, or over none. An error says that no memory was there.
    fn open(&self, file: Option<NamedFile<'_>>) -> Result<Self::Over, AllocError>
        ensures { IfOk result (λ host. opened self.now file.entry host) };

    /// How a run on the host ended with a status.
    fn ending(&self, host: &Self::Over, status: Status) -> RunEnding
        ensures status { result.status ≡ status }
        ensures told { told host.now result };
}

impl System for HostRuntime {
    type Over = FileHost<VolumeFile<File, HostRuntime>, Stdin, Stdout>;

    ghost started = { λ system words. words ≡ words };

    ghost opened = { λ system file host.
        HasNoFaults (⟦<FileHost<VolumeFile<File, HostRuntime>, Stdin, Stdout> as World>⟧.outside host) };

    ghost told = { λ host ending. IsCause host.source.cause host.sink.cause host.disk.cause
        ending.status ending.cause };

    fn words(&self) -> io::Result<Vec<String>> {
        let mut words = Vec::new(self.alloc());
        for word in env::args(self)?.skip(1) {
            words.push(word)?;
        }
        Ok(words)
    }

    fn open(
        &self,
        file: Option<NamedFile<'_>>,
    ) -> Result<FileHost<VolumeFile<File, HostRuntime>, Stdin, Stdout>, AllocError> {
        let path = file.map(|file| file.path);
        let make = file.and_then(|file| file.make);
        FileHost::open(self.alloc(), *self, path, make, self.stdin(), self.stdout())
    }

    fn ending(
        &self,
        host: &FileHost<VolumeFile<File, HostRuntime>, Stdin, Stdout>,
        status: Status,
    ) -> RunEnding {
        let cause = cause_of(status, host);
        RunEnding { status, cause }
    }
}

// The system's reason for a status: that of the file, the input or the output, by which of them failed.
fn cause_of<V: Drop, I: Drop, O: Drop>(
    status: Status,
    host: &FileHost<V, I, O>,
) -> Option<io::Error>
    ensures { IsCause host.now.source.cause host.now.sink.cause host.now.disk.cause status
        result }
{
    match status {
        Status::ScriptFault => host.source_faults().cause,
        Status::OutputFault => host.sink_faults().cause,
        Status::DiskFault => host.disk_faults().cause,
        _ => None,
    }
}
