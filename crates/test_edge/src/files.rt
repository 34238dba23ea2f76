//! The host over real files.

use disk_model::{Disk, Failed, Sink, Source};
use file_host::FileHost;
use std::alloc::Global;
use std::fs;
use std::io::ErrorKind;
use std::test::Fail;

const SIZE: u64 = 4096;

/// An input that has ended.
const NOTHING: &[u8] = b"";

const SCRIPT: &[u8] = b"log";

/// What a file of another run is called that isn't whole yet, and one that is made beside it.
const UNFINISHED: &str = ".exsm-new-0";

const TEMPORARY: &str = ".exsm-new-1";

// An output that was sent nothing yet.
fn nothing_yet(alloc: Global) -> Vec<u8> {
    Vec::new(alloc)
}

#[test]
fn a_file_that_is_not_there_is_a_fault(rt: HostRuntime) -> Result<(), Fail> {
    let name = "file_host_missing.tmp";
    let output = nothing_yet(rt.alloc());
    let mut host = FileHost::open(rt.alloc(), &rt, Some(name), None, NOTHING, output)?;
    assert!(rt; host.size() == 0);
    assert!(rt; host.sync() == Err(Failed));
    let faults = host.disk_faults();
    assert!(rt; faults.count == 1);
    assert!(rt;
        faults
            .cause
            .is_some_and(|cause| cause.kind() == ErrorKind::NotFound)
    );
    Ok(())
}

#[test]
fn a_new_file_has_its_name_once_it_is_whole(rt: HostRuntime) -> Result<(), Fail> {
    let name = "file_host_made.tmp";
    let _ = fs::remove_file(&rt, name);
    fs::write(&rt, UNFINISHED, b"of another run")?;
    let output = nothing_yet(rt.alloc());
    let mut host = FileHost::open(rt.alloc(), &rt, Some(name), Some(SIZE), SCRIPT, output)?;
    let mut bytes = [7u8; 4];
    assert!(rt; host.size() == SIZE);
    assert!(rt; host.read(SIZE - 4, &mut bytes) == Ok(()));
    assert!(rt; bytes == [0u8; 4]);
    assert!(rt; host.write(8, b"rest") == Ok(()));
    assert!(rt; host.sync() == Ok(()));
    assert!(rt; !fs::exists(&rt, name)?);
    assert!(rt; host.write(0, b"EXSMVOL1") == Ok(()));
    assert!(rt; !fs::exists(&rt, name)?);
    assert!(rt; host.sync() == Ok(()));
    assert!(rt; fs::exists(&rt, name)?);
    assert!(rt; !fs::exists(&rt, TEMPORARY)?);
    assert!(rt; fs::exists(&rt, UNFINISHED)?);

    let mut taken = [0u8; 8];
    assert!(rt; host.take(&mut taken) == Ok(3));
    assert!(rt; host.take(&mut taken) == Ok(0));
    assert!(rt; host.put(b"ok log 0") == Ok(8));
    fs::remove_file(&rt, UNFINISHED)?;
    fs::remove_file(&rt, name)?;
    Ok(())
}

#[test]
fn a_file_that_is_there_keeps_its_bytes_and_is_for_one_run(rt: HostRuntime) -> Result<(), Fail> {
    let name = "file_host_kept.tmp";
    fs::write(&rt, name, b"a file")?;
    let (first_output, second_output) = (nothing_yet(rt.alloc()), nothing_yet(rt.alloc()));
    let first = FileHost::open(
        rt.alloc(),
        &rt,
        Some(name),
        Some(SIZE),
        NOTHING,
        first_output,
    )?;
    assert!(rt; first.size() == 6);
    let mut second = FileHost::open(
        rt.alloc(),
        &rt,
        Some(name),
        Some(SIZE),
        NOTHING,
        second_output,
    )?;
    assert!(rt; second.size() == SIZE);
    assert!(rt; second.write(0, b"x") == Err(Failed));
    let faults = second.disk_faults();
    assert!(rt;
        faults
            .cause
            .is_some_and(|cause| cause.kind() == ErrorKind::WouldBlock)
    );
    drop(first);
    let output = nothing_yet(rt.alloc());
    let mut third = FileHost::open(rt.alloc(), &rt, Some(name), None, NOTHING, output)?;
    let mut bytes = [0u8; 6];
    assert!(rt; third.size() == 6);
    assert!(rt; third.read(0, &mut bytes) == Ok(()));
    assert!(rt; bytes == *b"a file");
    fs::remove_file(&rt, name)?;
    Ok(())
}
