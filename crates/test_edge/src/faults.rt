//! Calls that are short, interrupted or refused.
ghost use Rattle.std.specs.Prelude.{◌≡◌, IfOk};

use disk_model::{Disk, Failed, Sink, Source};
use file_host::{FileHost, StoredFile};
use std::alloc::Global;
use std::cell::Cell;
use std::io;
use std::io::{ErrorKind, Read, Write};
use std::os::unix::fs::FileExt;
use std::test::Fail;

const SIZE: usize = 16;

/// An input that has ended.
const NOTHING: &[u8] = b"";

/// The system's number for a full disk.
const NO_SPACE: i32 = 28;

// A file in memory. Each call on it is interrupted first, and then moves one byte. A write at `full` or behind it is refused.
#[derive(Drop)]
struct SlowFile {
    bytes: Cell<[u8; SIZE]>,
    interrupted: Cell<bool>,
    full: usize,
}

impl SlowFile {
    fn make(full: usize) -> SlowFile {
        SlowFile {
            bytes: Cell::new([0u8; SIZE]),
            interrupted: Cell::new(false),
            full,
        }
    }

    // Fails every other time.
    fn interrupt(&self) -> io::Result<()> {
        let before = self.interrupted.get();
        self.interrupted.set(!before);
        if before {
            Ok(())
        } else {
            Err(io::Error::from(ErrorKind::Interrupted))
        }
    }
}

impl FileExt for SlowFile {
    fn read_at(&self, buf: &mut [u8], offset: u64) -> io::Result<usize> {
        self.interrupt()?;
        let bytes = self.bytes.get();
        match (buf.first_mut(), bytes.get(offset as usize)) {
            (Some(place), Some(byte)) => {
                *place = *byte;
                Ok(1)
            }
            _ => Ok(0),
        }
    }

    fn write_at(&self, buf: &[u8], offset: u64) -> io::Result<usize> {
        self.interrupt()?;
        let at = offset as usize;
        if at >= self.full {
            return Err(io::Error::from_raw_os_error(NO_SPACE));
        }
        let mut bytes = self.bytes.get();
        match (buf.first(), bytes.get_mut(at)) {
            (Some(byte), Some(place)) => {
                *place = *byte;
                self.bytes.set(bytes);
                Ok(1)
            }
            _ => Ok(0),
        }
    }
}

impl StoredFile for SlowFile {
    fn settle(&mut self) -> io::Result<()> {
        Ok(())
    }
}

// An input and output whose calls are interrupted at first, and then are at their end.
#[derive(Drop)]
struct Ended {
    interrupted: bool,
}

impl Ended {
    fn turn(&mut self) -> io::Result<usize>
        ensures { IfOk result (λ n. n ≡ 0) }
    {
        if self.interrupted {
            return Ok(0);
        }
        self.interrupted = true;
        Err(io::Error::from(ErrorKind::Interrupted))
    }
}

impl Read for Ended {
    fn read(&mut self, _buf: &mut [u8]) -> io::Result<usize> {
        self.turn()
    }
}

impl Write for Ended {
    fn write(&mut self, _buf: &[u8]) -> io::Result<usize> {
        self.turn()
    }

    fn flush(&mut self) -> io::Result<()> {
        Ok(())
    }
}

// An output that was sent nothing yet.
fn nothing_yet(alloc: Global) -> Vec<u8> {
    Vec::new(alloc)
}

#[test]
fn short_and_interrupted_calls_move_all_bytes(rt: HostRuntime) -> Result<(), Fail> {
    let file = SlowFile::make(SIZE);
    let mut host = FileHost::over(Some(file), SIZE as u64, NOTHING, nothing_yet(rt.alloc()));
    let mut bytes = [7u8; 6];
    assert!(rt; host.write(3, b"exsm") == Ok(()));
    assert!(rt; host.read(2, &mut bytes) == Ok(()));
    assert!(rt; bytes == *b"\0exsm\0");
    assert!(rt; host.disk_faults().count == 0);
    Ok(())
}

#[test]
fn a_refused_write_is_a_fault_of_the_disk_and_its_reason_stays(
    rt: HostRuntime,
) -> Result<(), Fail> {
    let file = SlowFile::make(5);
    let mut host = FileHost::over(
        Some(file),
        2 * SIZE as u64,
        NOTHING,
        nothing_yet(rt.alloc()),
    );
    assert!(rt; host.write(3, b"exsm") == Err(Failed));
    assert!(rt; host.read(SIZE as u64, &mut [0u8; 2]) == Err(Failed));
    let faults = host.disk_faults();
    assert!(rt; faults.count == 2);
    assert!(rt; faults.cause.and_then(|cause| cause.raw_os_error()) == Some(NO_SPACE));
    assert!(rt; host.source_faults().count == 0);
    assert!(rt; host.sink_faults().count == 0);
    Ok(())
}

#[test]
fn an_output_that_accepts_nothing_has_failed(rt: HostRuntime) -> Result<(), Fail> {
    let _ = rt;
    let input = Ended { interrupted: false };
    let output = Ended { interrupted: false };
    let mut host = FileHost::over(Some(SlowFile::make(0)), 0, input, output);
    assert!(rt; host.take(&mut [0u8; 4]) == Ok(0));
    assert!(rt; host.source_faults().count == 0);
    assert!(rt; host.put(b"") == Ok(0));
    assert!(rt; host.put(b"ok") == Err(Failed));
    let faults = host.sink_faults();
    assert!(rt; faults.count == 1);
    assert!(rt;
        faults
            .cause
            .is_some_and(|cause| cause.kind() == ErrorKind::WriteZero)
    );
    Ok(())
}
