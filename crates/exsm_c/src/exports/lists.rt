//! The lists that the last calls told, for C.
ghost use Rattle.std.specs.Prelude.{◌≡◌, ◌≢◌, Some, length, slice_get};
ghost use Rattle.exsm_c.specs.Answers.{HasIdentifier, HasName};
ghost use Rattle.exsm_c.specs.Codes.{code_at, code_of_name, code_of_room};
ghost use Rattle.exsm_c.specs.Owned.{IsOpen};
ghost use Rattle.exsm_c.specs.declared.open.Open.{Open};
ghost use Rattle.exsm_c.specs.Told.{BeginsWith, NameAt, OidAt};

use crate::codes::{MISUSE, OK, ROOM};
use crate::handle::{Handle, give, take};
use crate::passed::Identifier;
use crate::told::put_front;
use std::alloc::Global;
use table_model::{Names, OidList};

// Copies a name to the front of `out`, where it fits, and tells its length then.
fn tell_name(name: &[u8], out: &mut [u8], len: &mut usize) -> u32
    ensures code { result ≡ code_of_room (length name.now) (length out.old) }
    ensures told { result ≡ 0 → BeginsWith out.new name.now }
    ensures len { result ≡ 0 → len.new ≡ length name.now }
    ensures same { result ≢ 0 → out.new ≡ out.old }
    ensures same_len { result ≢ 0 → len.new ≡ len.old }
{
    if name.len() <= out.len() {
        *len = put_front(out, name);
        OK
    } else {
        ROOM
    }
}

// The same of the name of this number.
fn tell_name_at(names: &Names, i: usize, out: &mut [u8], len: &mut usize) -> u32
    ensures code { result ≡ code_of_name (slice_get names.now i) (length out.old) }
    ensures told { result ≡ 0 → NameAt names.now i out.new len.new }
    ensures same { result ≢ 0 → out.new ≡ out.old }
    ensures same_len { result ≢ 0 → len.new ≡ len.old }
{
    if i < names.len() {
        tell_name(names.at(i).as_slice(), out, len)
    } else {
        MISUSE
    }
}

// Tells the identifier of this number.
fn tell_oid(oids: &OidList, i: usize, x: &mut Identifier) -> u32
    ensures code { result ≡ code_at oids.now i }
    ensures told { result ≡ 0 → OidAt oids.now i x.new }
    ensures same { result ≢ 0 → x.new ≡ x.old }
{
    if i < oids.len() {
        *x = Identifier::of(*oids.at(i));
        OK
    } else {
        MISUSE
    }
}

/// Copies the name of this number of the last list of names to the front of `out`, where it fits, and tells its length then. 32 bytes are room for each.
#[unsafe(no_mangle)]
pub extern "C" fn exsm_core_name_at(
    alloc: Global,
    handle: &mut Handle,
    i: usize,
    out: &mut [u8],
    len: &mut usize,
) -> u32
    requires { IsOpen handle.old.value }
    ensures kept { handle.new.value ≡ handle.old.value }
    ensures code { (had : Open) → handle.old.value ≡ Some had
        → result ≡ code_of_name (slice_get had.names i) (length out.old) }
    ensures told { result ≡ 0 → HasName handle.old.value i out.new len.new }
    ensures same { result ≢ 0 → out.new ≡ out.old }
    ensures same_len { result ≢ 0 → len.new ≡ len.old }
{
    let open = take(alloc, handle);
    let code = tell_name_at(&open.names, i, out, len);
    give(handle, open);
    code
}

/// Tells the identifier of this number of the last list of identifiers.
#[unsafe(no_mangle)]
pub extern "C" fn exsm_core_oid_at(
    alloc: Global,
    handle: &mut Handle,
    i: usize,
    x: &mut Identifier,
) -> u32
    requires { IsOpen handle.old.value }
    ensures kept { handle.new.value ≡ handle.old.value }
    ensures code { (had : Open) → handle.old.value ≡ Some had → result ≡ code_at had.oids i }
    ensures told { result ≡ 0 → HasIdentifier handle.old.value i x.new }
    ensures same { result ≢ 0 → x.new ≡ x.old }
{
    let open = take(alloc, handle);
    let code = tell_oid(&open.oids, i, x);
    give(handle, open);
    code
}
