//! The descriptors of the standard streams are kept from every other file.

use std::fs::{Files, OpenFile, OpenOptions};
use std::io;
use std::os::fd::AsRawFd;

/// The greatest descriptor of a standard stream, that of the standard error.
const STANDARD_MOST: i32 = 2;

/// The file that a closed stream is held open on. It is opened to be read alone: a closed input then reads as ended, and a write to a closed output fails.
const NOTHING: &str = "/dev/null";

/// The standard streams that were closed, held open while this value is.
#[derive(Drop)]
pub struct HeldStreams<F: Drop> {
    first: Option<F>,
    second: Option<F>,
    third: Option<F>,
}

/// Holds each standard stream open that is closed, so that no file that is opened later gets its descriptor. A new file gets the lowest one that is
/// free, so three are enough.
pub fn hold_streams<F: AsRawFd + OpenFile + Drop, R: Files<File = F>>(files: &R) -> HeldStreams<F> {
    HeldStreams {
        first: hold_one(files),
        second: hold_one(files),
        third: hold_one(files),
    }
}

// A file on the lowest free descriptor, where that is one of a standard stream.
fn hold_one<F: AsRawFd + OpenFile + Drop, R: Files<File = F>>(files: &R) -> Option<F> {
    let file = OpenOptions::new().read(true).open(files, NOTHING).ok()?;
    if is_of_a_stream(&file) {
        Some(file)
    } else {
        None
    }
}

// The file has the descriptor of a standard stream.
fn is_of_a_stream<F: AsRawFd>(file: &F) -> bool {
    file.as_raw_fd() <= STANDARD_MOST
}

/// Refuses a file that has the descriptor of a standard stream: what is sent would be written into it, or it would be read as the script.
pub fn keep_apart<F: AsRawFd>(file: &F) -> io::Result<()> {
    if is_of_a_stream(file) {
        return Err(io::Error::other(
            "a standard stream is closed, and /dev/null can't be opened in its place",
        ));
    }
    Ok(())
}
