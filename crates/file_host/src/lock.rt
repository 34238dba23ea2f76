//! One run at a time.

use std::fs::{File, TryLockError};
use std::io;
use std::io::ErrorKind;

/// A file that one run at a time may have.
pub trait LockFile {
    /// Locks the file for as long as it is open, and waits for nobody. An error of kind `WouldBlock` says that another run has it.
    fn lock_at_once(&self) -> io::Result<()>;
}

impl LockFile for File {
    fn lock_at_once(&self) -> io::Result<()> {
        match self.try_lock() {
            Ok(()) => Ok(()),
            Err(TryLockError::WouldBlock) => Err(io::Error::new(
                ErrorKind::WouldBlock,
                "another run has it open",
            )),
            Err(TryLockError::Error(cause)) => Err(cause),
        }
    }
}
