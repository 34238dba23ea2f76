//! Objects, for C.
ghost use Rattle.std.specs.Prelude.{◌≡◌, ◌≢◌, ⊤, None, length};
ghost use Rattle.exsm_c.specs.Answers.{Answers};
ghost use Rattle.exsm_c.specs.Owned.{IsLentBy};
ghost use Rattle.exsm_c.specs.Told.{BeginsWith, bytes_in, identifier_in, numbered, shape_in, size_in, wanted};
ghost use Rattle.table_model.specs.Requests.{Create, Destroy, Digest, Read, Size, Stat};

use crate::handle::Handle;
use crate::passed::{Identifier, Shape};
use crate::steps::step;
use crate::told::{tell_bytes, tell_done, tell_identifier, tell_shape, tell_size, wanted};
use std::alloc::Global;
use table_model::Command;

/// Makes an empty object at the end of a file.
#[unsafe(no_mangle)]
pub extern "C" fn exsm_core_create(
    alloc: Global,
    handle: &mut Handle,
    image: &mut [u8],
    file: &[u8],
    made: &mut Identifier,
) -> u32
    requires { IsLentBy handle.old.value image.old }
    ensures answers { Answers handle.old.value handle.new.value image.old image.new
        (Create file.now None) result
        (λ told. made.new ≡ identifier_in told) }
    ensures same { result ≢ 0 → made.new ≡ made.old }
{
    let told = step(alloc, handle, image, &Command::Create { file, bind: None });
    tell_identifier(told, made)
}

/// Removes a current version, and its object with the last one.
#[unsafe(no_mangle)]
pub extern "C" fn exsm_core_destroy(
    alloc: Global,
    handle: &mut Handle,
    image: &mut [u8],
    x: &Identifier,
) -> u32
    requires { IsLentBy handle.old.value image.old }
    ensures answers { Answers handle.old.value handle.new.value image.old image.new
        (Destroy (numbered x.now)) result
        (λ told. ⊤) }
{
    let told = step(alloc, handle, image, &Command::Destroy { x: x.subject() });
    tell_done(told)
}

/// Tells the bytes of a version.
#[unsafe(no_mangle)]
pub extern "C" fn exsm_core_size(
    alloc: Global,
    handle: &mut Handle,
    image: &mut [u8],
    x: &Identifier,
    size: &mut u64,
) -> u32
    requires { IsLentBy handle.old.value image.old }
    ensures answers { Answers handle.old.value handle.new.value image.old image.new
        (Size (numbered x.now)) result
        (λ told. size.new ≡ size_in told) }
    ensures same { result ≢ 0 → size.new ≡ size.old }
{
    let told = step(alloc, handle, image, &Command::Size { x: x.subject() });
    tell_size(told, size)
}

/// Tells how a version lies on the volume.
#[unsafe(no_mangle)]
pub extern "C" fn exsm_core_stat(
    alloc: Global,
    handle: &mut Handle,
    image: &mut [u8],
    x: &Identifier,
    shape: &mut Shape,
) -> u32
    requires { IsLentBy handle.old.value image.old }
    ensures answers { Answers handle.old.value handle.new.value image.old image.new
        (Stat (numbered x.now)) result
        (λ told. shape.new ≡ shape_in told) }
    ensures same { result ≢ 0 → shape.new ≡ shape.old }
{
    let told = step(alloc, handle, image, &Command::Stat { x: x.subject() });
    tell_shape(told, shape)
}

/// Tells the SHA-256 of the bytes of a version: the first 32 bytes of `out`, which has as many at least.
#[unsafe(no_mangle)]
pub extern "C" fn exsm_core_digest(
    alloc: Global,
    handle: &mut Handle,
    image: &mut [u8],
    x: &Identifier,
    out: &mut [u8],
) -> u32
    requires { IsLentBy handle.old.value image.old }
    ensures answers { Answers handle.old.value handle.new.value image.old image.new
        (Digest (numbered x.now)) result
        (λ told. BeginsWith out.new (bytes_in told)) }
    ensures same { result ≢ 0 → out.new ≡ out.old }
{
    let told = step(alloc, handle, image, &Command::Digest { x: x.subject() });
    tell_bytes(told, out)
}

/// Fills `out` with the bytes of a version from `pos` on.
#[unsafe(no_mangle)]
pub extern "C" fn exsm_core_read(
    alloc: Global,
    handle: &mut Handle,
    image: &mut [u8],
    x: &Identifier,
    pos: u64,
    out: &mut [u8],
) -> u32
    requires { IsLentBy handle.old.value image.old }
    ensures answers { Answers handle.old.value handle.new.value image.old image.new
        (Read (numbered x.now) pos (wanted (length out.old))) result
        (λ told. BeginsWith out.new (bytes_in told)) }
    ensures same { result ≢ 0 → out.new ≡ out.old }
{
    let told = step(
        alloc,
        handle,
        image,
        &Command::Read {
            x: x.subject(),
            pos,
            len: wanted(out.len()),
        },
    );
    tell_bytes(told, out)
}
