//! The host over a file, an input and an output. It tells nothing of their content; what it promises is about its counts of faults.
ghost use Rattle.std.specs.Prelude.{◌≡◌, ◌+◌, ◌<◌, ◌≤◌, ◌-◌, ◌^◌, length, IfOk, OnErr, OnOk, None};
ghost use Rattle.disk_model.specs.Outside.{HasNoFaults};
ghost use Rattle.ex_base.specs.Faults.{Rose};
ghost use Rattle.file_host.specs.Untold.{untold, untold_world};

use crate::faults::Faults;
use crate::lock::LockFile;
use crate::opening::{StoredFile, VolumeFile, open_volume_file};
use disk_model::{Disk, Failed, Host, Sink, Source, World};
use std::alloc::{AllocError, Global};
use std::fs::{Files, OpenFile};
use std::io;
use std::io::{ErrorKind, Read, Seek, Write};
use std::os::fd::AsRawFd;
use std::os::unix::fs::FileExt;

/// A host over a file `V`, an input `I` and an output `O`. Without a file each disk call fails. It keeps why calls failed.
#[derive(Drop)]
pub struct FileHost<V: Drop, I: Drop, O: Drop> {
    file: Option<V>,
    size: u64,
    input: I,
    output: O,
    disk: Faults,
    source: Faults,
    sink: Faults,
}

impl<F, R, I: Drop, O: Drop> FileHost<VolumeFile<F, R>, I, O>
where
    F: FileExt + OpenFile + Seek + LockFile + AsRawFd + Drop,
    R: Files<File = F> + Drop,
{
    /// Opens the volume file or block device at `path` for this run alone. One that isn't there is made where `make` gives a size, and filled with zero bytes to that
    /// size; it gets its name at the first sync at which it begins as a volume does, and is removed where it never gets it. Without a path, or where
    /// the file can't be opened, made or filled, or another run has it, each disk call fails, and the size is that of `make`, or 0.
    /// The file has no descriptor of a standard stream. Of these, one that is closed is held open while the host is: as an input it has ended, as an
    /// output it fails. An error says that no memory was there for the file's names.
    pub fn open(
        alloc: Global,
        files: R,
        path: Option<&str>,
        make: Option<u64>,
        input: I,
        output: O,
    ) -> Result<FileHost<VolumeFile<F, R>, I, O>, AllocError>
        ensures { IfOk result
            (λ host. HasNoFaults (⟦<FileHost<VolumeFile<F, R>, I, O> as World>⟧.outside host)) }
    {
        let Some(path) = path else {
            return Ok(FileHost::over(None, make.unwrap_or(0), input, output));
        };
        match open_volume_file(alloc, files, path, make) {
            Ok(file) => {
                let size = file.size();
                Ok(FileHost::over(Some(file), size, input, output))
            }
            Err(cause) if cause.kind() == ErrorKind::OutOfMemory => Err(AllocError),
            Err(cause) => {
                let mut host = FileHost::over(None, make.unwrap_or(0), input, output);
                host.disk = Faults::before(cause);
                Ok(host)
            }
        }
    }
}

impl<V: Drop, I: Drop, O: Drop> FileHost<V, I, O> {
    /// A host over these, with no fault so far.
    pub fn over(file: Option<V>, size: u64, input: I, output: O) -> FileHost<V, I, O>
        ensures size { (⟦<FileHost<V, I, O> as World>⟧.outside result).size ≡ size }
        ensures faults { HasNoFaults (⟦<FileHost<V, I, O> as World>⟧.outside result) }
    {
        FileHost {
            file,
            size,
            input,
            output,
            disk: Faults::none(),
            source: Faults::none(),
            sink: Faults::none(),
        }
    }

    /// How often the disk failed, and why at first.
    pub fn disk_faults(&self) -> Faults
        ensures { result ≡ self.now.disk }
    {
        self.disk
    }

    /// How often the input failed, and why at first.
    pub fn source_faults(&self) -> Faults
        ensures { result ≡ self.now.source }
    {
        self.source
    }

    /// How often the output failed, and why at first.
    pub fn sink_faults(&self) -> Faults
        ensures { result ≡ self.now.sink }
    {
        self.sink
    }
}

impl<V: Drop, I: Drop, O: Drop> World for FileHost<V, I, O> {
    ghost outside = { λ s. untold s.size s.disk.count s.source.count s.sink.count };

    ghost is_world = { λ s. untold_world s.size s.disk.count s.source.count s.sink.count };
}

impl<V: StoredFile + Drop, I: Drop, O: Drop> Disk for FileHost<V, I, O> {
    fn size(&self) -> u64 {
        self.size
    }

    fn faults(&self) -> u64 {
        self.disk.count
    }

    fn read(&mut self, at: u64, out: &mut [u8]) -> Result<(), Failed> {
        let done = match &self.file {
            Some(file) => file.read_exact_at(out, at),
            None => Err(missing()),
        };
        match done {
            Ok(()) => Ok(()),
            Err(cause) => self.disk.raise(cause),
        }
    }

    fn write(&mut self, at: u64, bytes: &[u8]) -> Result<(), Failed> {
        let done = match &self.file {
            Some(file) => file.write_all_at(bytes, at),
            None => Err(missing()),
        };
        match done {
            Ok(()) => Ok(()),
            Err(cause) => self.disk.raise(cause),
        }
    }

    fn sync(&mut self) -> Result<(), Failed> {
        let done = match &mut self.file {
            Some(file) => file.settle(),
            None => Err(missing()),
        };
        match done {
            Ok(()) => Ok(()),
            Err(cause) => self.disk.raise(cause),
        }
    }
}

// Why a call on a file that isn't there fails.
fn missing() -> io::Error {
    io::Error::from(ErrorKind::NotFound)
}

// What one read gives. An interrupted one is made again.
fn read_some<R: Read>(input: &mut R, out: &mut [u8]) -> io::Result<usize>
    ensures { IfOk result (λ n. n ≤ length out.old) }
{
    for _ in 0..u64::MAX {
        match input.read(out) {
            Ok(n) => return Ok(n),
            Err(cause) if cause.kind() == ErrorKind::Interrupted => {}
            Err(cause) => return Err(cause),
        }
    }
    Err(io::Error::from(ErrorKind::Interrupted))
}

// What one write accepted, at least one byte. An interrupted one is made again.
fn write_some<W: Write>(output: &mut W, bytes: &[u8]) -> io::Result<usize>
    ensures { IfOk result (λ n. 0 < n × n ≤ length bytes.now) }
{
    for _ in 0..u64::MAX {
        match output.write(bytes) {
            Ok(0) => return Err(io::Error::from(ErrorKind::WriteZero)),
            Ok(n) => return Ok(n),
            Err(cause) if cause.kind() == ErrorKind::Interrupted => {}
            Err(cause) => return Err(cause),
        }
    }
    Err(io::Error::from(ErrorKind::Interrupted))
}

impl<V: Drop, I: Read + Drop, O: Drop> Source for FileHost<V, I, O> {
    fn take(&mut self, out: &mut [u8]) -> Result<usize, Failed> {
        match read_some(&mut self.input, out) {
            Ok(n) => Ok(n),
            Err(cause) => {
                self.source.raise(cause)?;
                Ok(0)
            }
        }
    }
}

impl<V: Drop, I: Drop, O: Write + Drop> Sink for FileHost<V, I, O> {
    fn put(&mut self, bytes: &[u8]) -> Result<usize, Failed> {
        if bytes.is_empty() {
            return Ok(0);
        }
        match write_some(&mut self.output, bytes) {
            Ok(n) => Ok(n),
            Err(cause) => {
                self.sink.raise(cause)?;
                Ok(bytes.len())
            }
        }
    }
}

impl<V: StoredFile + Drop, I: Read + Drop, O: Write + Drop> Host for FileHost<V, I, O> {}
