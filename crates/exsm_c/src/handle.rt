//! An open volume behind a pointer that C keeps.
ghost use Rattle.std.specs.Prelude.{◌≡◌, Option, Some, None};
ghost use Rattle.exsm_c.specs.declared.open.Open.{Open};
ghost use Rattle.exsm_c.specs.Owned.{IsOpen, owned_at};

use crate::open::Open;
use loose::loose::Loose;
use std::alloc::Global;
use std::marker::Model;
use std::mem::replace;

/// An open volume behind a pointer, or none. The pointer is C's to keep, and nothing else.
#[repr(C)]
#[derive(Drop)]
pub struct Handle {
    at: *mut u8,
    alloc: Global,
    ghost value: { Option Open },
}

impl Model for Handle {
    ghost also_owns = { λ h. owned_at h.alloc h.at h.value };
}

/// The handle of an open volume.
fn seal(loose: Loose<Open, Global>) -> Handle
    ensures { result.value ≡ Some loose.value }
{
    let Loose { at, alloc } = loose;
    let at = at as *mut u8;
    Handle { at, alloc }
}

/// The volume of a handle.
fn unseal(handle: Handle) -> Loose<Open, Global>
    requires { IsOpen handle.value }
    ensures { handle.value ≡ Some result.value }
{
    let Handle { at, alloc } = handle;
    let at = at as *mut Open;
    Loose { at, alloc }
}

/// A handle of no volume: its pointer is null.
pub(crate) fn closed(alloc: Global) -> Handle
    ensures { result.value ≡ None }
{
    let at = std::ptr::null_mut();
    Handle { at, alloc }
}

/// Takes the volume out of a handle, which has none then.
pub(crate) fn take(alloc: Global, handle: &mut Handle) -> Box<Open>
    requires { IsOpen handle.old.value }
    ensures was { handle.old.value ≡ Some result.value }
    ensures now { handle.new.value ≡ None }
{
    unseal(replace(handle, closed(alloc))).into_box()
}

/// Gives a handle its volume.
pub(crate) fn give(handle: &mut Handle, volume: Box<Open>)
    ensures { handle.new.value ≡ Some volume.value }
{
    *handle = seal(Loose::of(volume));
}
