//! A volume file is opened, or made.

use crate::lock::LockFile;
use crate::naming::Naming;
use crate::streams::{HeldStreams, hold_streams, keep_apart};
use ex_base::has_magic;
use std::alloc::Global;
use std::fs::{Files, OpenFile, OpenOptions};
use std::io;
use std::io::{ErrorKind, Seek, SeekFrom};
use std::os::fd::AsRawFd;
use std::os::unix::fs::{FileExt, FileTypeExt};

/// How many bytes the magic of a volume has.
const MAGIC_LEN: usize = 8;

/// The most bytes of a new file that are written with zeros, so that the file system has given room to them before the first commit. What lies behind
/// them is sparse.
const FILLED_MOST: u64 = 134_217_728;

/// How many zeros one call writes.
const ZEROS_LEN: usize = 65_536;

/// An open volume file that no other run has. One that was made has no name of its own yet, and is removed where it never gets one.
#[derive(Drop)]
pub struct VolumeFile<F: Drop, R: Files + Drop> {
    naming: Option<Naming<F, R>>,
    file: F,
    size: u64,
    streams: HeldStreams<F>,
}

/// What a host needs of its file: calls at a place of it, and that what was written outlasts a loss of power.
pub trait StoredFile: FileExt {
    /// Settles what was written, and the file's name.
    fn settle(&mut self) -> io::Result<()>;
}

impl<F: Drop, R: Files + Drop> VolumeFile<F, R> {
    /// The bytes of the file.
    pub fn size(&self) -> u64 {
        self.size
    }
}

impl<F: FileExt + OpenFile + Drop, R: Files<File = F> + Drop> FileExt for VolumeFile<F, R> {
    fn read_at(&self, buf: &mut [u8], offset: u64) -> io::Result<usize> {
        self.file.read_at(buf, offset)
    }

    fn write_at(&self, buf: &[u8], offset: u64) -> io::Result<usize> {
        self.file.write_at(buf, offset)
    }
}

impl<F: FileExt + OpenFile + Drop, R: Files<File = F> + Drop> StoredFile for VolumeFile<F, R> {
    /// A new file gets its name here, once it begins as a volume does: the magic is written last, so it is whole then.
    fn settle(&mut self) -> io::Result<()> {
        self.file.sync_data()?;
        let named = match &mut self.naming {
            Some(naming) if begins_as_volume(&self.file)? => {
                naming.settle()?;
                true
            }
            _ => false,
        };
        if named {
            self.naming = None;
        }
        Ok(())
    }
}

fn begins_as_volume<F: FileExt>(file: &F) -> io::Result<bool> {
    let mut first = [0u8; MAGIC_LEN];
    file.read_exact_at(&mut first, 0)?;
    Ok(has_magic(&first))
}

/// Opens the volume file or the block device at a path, to be read and written, for this run alone. Before it, each standard stream that is closed is
/// held open. One that is there is left as it is; one that isn't is made where `make` gives a size, and filled with zero bytes to that size. Fails where
/// it can't be opened, made or filled, where it is neither a file nor a block device, and where another run has it.
pub fn open_volume_file<F, R>(
    alloc: Global,
    files: R,
    path: &str,
    make: Option<u64>,
) -> io::Result<VolumeFile<F, R>>
where
    F: FileExt + OpenFile + Seek + LockFile + AsRawFd + Drop,
    R: Files<File = F> + Drop,
{
    let streams = hold_streams(&files);
    match OpenOptions::new().read(true).write(true).open(&files, path) {
        Ok(mut file) => {
            take(&file)?;
            let size = size_of(&mut file)?;
            Ok(VolumeFile {
                naming: None,
                file,
                size,
                streams,
            })
        }
        Err(cause) => match make {
            Some(size) if cause.kind() == ErrorKind::NotFound => {
                let (naming, file) = Naming::make(alloc, files, path)?;
                take(&file)?;
                file.set_len(size)?;
                fill_with_zeros(&file, size.min(FILLED_MOST))?;
                Ok(VolumeFile {
                    naming: Some(naming),
                    file,
                    size,
                    streams,
                })
            }
            _ => Err(cause),
        },
    }
}

// The bytes of a file, or those up to the end of a block device, which has no length of its own.
fn size_of<F: OpenFile + Seek>(file: &mut F) -> io::Result<u64> {
    let about = file.metadata()?;
    let kind = about.file_type();
    if kind.is_file() {
        Ok(about.len())
    } else if kind.is_block_device() {
        file.seek(SeekFrom::End(0))
    } else {
        Err(io::Error::other("it is neither a file nor a block device"))
    }
}

// Writes zeros over the first `size` bytes of a file.
fn fill_with_zeros<F: FileExt>(file: &F, size: u64) -> io::Result<()> {
    let zeros = [0u8; ZEROS_LEN];
    for at in (0..size).step_by(ZEROS_LEN) {
        let len = (size - at).min(ZEROS_LEN as u64) as usize;
        file.write_all_at(&zeros[..len], at)?;
    }
    Ok(())
}

// Takes the file for this run.
fn take<F: LockFile + AsRawFd>(file: &F) -> io::Result<()> {
    keep_apart(file)?;
    file.lock_at_once()
}
