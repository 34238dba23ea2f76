//! Scans and groups of buffer frames, for C.
ghost use Rattle.std.specs.Prelude.{◌≡◌, ◌≢◌, ⊤, length, min};
ghost use Rattle.exsm_c.specs.Answers.{Answers};
ghost use Rattle.exsm_c.specs.Owned.{IsLentBy};
ghost use Rattle.exsm_c.specs.Told.{BeginsWith, bytes_in, group_name, numbered, size_in, wanted};
ghost use Rattle.table_model.specs.Requests.{Close, Group, Next, Scan};

use crate::handle::Handle;
use crate::passed::Identifier;
use crate::steps::step;
use crate::told::{group_of, tell_done, tell_next, tell_size, wanted};
use std::alloc::Global;
use table_model::Command;

/// Makes a group of 1 to 1,024 buffer frames. `mru`: its most recent frame is given up first.
#[unsafe(no_mangle)]
pub extern "C" fn exsm_core_group(
    alloc: Global,
    handle: &mut Handle,
    image: &mut [u8],
    name: &[u8],
    frames: u32,
    mru: bool,
) -> u32
    requires { IsLentBy handle.old.value image.old }
    ensures answers { Answers handle.old.value handle.new.value image.old image.new
        (Group name.now frames mru) result
        (λ told. ⊤) }
{
    let told = step(alloc, handle, image, &Command::Group { name, frames, mru });
    tell_done(told)
}

/// Opens a scan of a version's bytes as they are now, in a group of frames, or in `main` where its name is empty, and tells how many it will give.
#[unsafe(no_mangle)]
pub extern "C" fn exsm_core_scan(
    alloc: Global,
    handle: &mut Handle,
    image: &mut [u8],
    x: &Identifier,
    name: &[u8],
    group: &[u8],
    size: &mut u64,
) -> u32
    requires { IsLentBy handle.old.value image.old }
    ensures answers { Answers handle.old.value handle.new.value image.old image.new
        (Scan (numbered x.now) name.now (group_name group.now)) result
        (λ told. size.new ≡ size_in told) }
    ensures same { result ≢ 0 → size.new ≡ size.old }
{
    let told = step(
        alloc,
        handle,
        image,
        &Command::Scan {
            x: x.subject(),
            name,
            group: group_of(group),
        },
    );
    tell_size(told, size)
}

/// Gives the next bytes of a scan, as many as `out` has room for, and tells how many they are: none at the end.
#[unsafe(no_mangle)]
pub extern "C" fn exsm_core_next(
    alloc: Global,
    handle: &mut Handle,
    image: &mut [u8],
    name: &[u8],
    out: &mut [u8],
    count: &mut usize,
) -> u32
    requires { IsLentBy handle.old.value image.old }
    ensures answers { Answers handle.old.value handle.new.value image.old image.new
        (Next name.now (wanted (length out.old))) result
        (λ told. BeginsWith out.new (bytes_in told)
        × (count.new ≡ min (length out.old) (length (bytes_in told)))) }
    ensures same { result ≢ 0 → out.new ≡ out.old }
    ensures same_count { result ≢ 0 → count.new ≡ count.old }
{
    let told = step(
        alloc,
        handle,
        image,
        &Command::Next {
            name,
            len: wanted(out.len()),
        },
    );
    tell_next(told, out, count)
}

/// Closes a scan.
#[unsafe(no_mangle)]
pub extern "C" fn exsm_core_end(
    alloc: Global,
    handle: &mut Handle,
    image: &mut [u8],
    name: &[u8],
) -> u32
    requires { IsLentBy handle.old.value image.old }
    ensures answers { Answers handle.old.value handle.new.value image.old image.new
        (Close name.now) result
        (λ told. ⊤) }
{
    let told = step(alloc, handle, image, &Command::Close { name });
    tell_done(told)
}
