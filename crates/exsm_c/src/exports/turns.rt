//! Transactions, for C.
ghost use Rattle.std.specs.Prelude.{◌≡◌, ◌≢◌, ⊤};
ghost use Rattle.exsm_c.specs.Answers.{Answers};
ghost use Rattle.exsm_c.specs.Owned.{IsLentBy};
ghost use Rattle.exsm_c.specs.Told.{number_in};
ghost use Rattle.table_model.specs.Requests.{Abort, Begin, Checkpoint, Commit};

use crate::handle::Handle;
use crate::steps::step;
use crate::told::{tell_done, tell_number};
use std::alloc::Global;
use table_model::Command;

/// Opens a transaction, and tells the number that its commit will have.
#[unsafe(no_mangle)]
pub extern "C" fn exsm_core_begin(
    alloc: Global,
    handle: &mut Handle,
    image: &mut [u8],
    number: &mut u64,
) -> u32
    requires { IsLentBy handle.old.value image.old }
    ensures answers { Answers handle.old.value handle.new.value image.old image.new
        (Begin) result
        (λ told. number.new ≡ number_in told) }
    ensures same { result ≢ 0 → number.new ≡ number.old }
{
    let told = step(alloc, handle, image, &Command::Begin);
    tell_number(told, number)
}

/// Makes the working state the committed one, and tells the number of the commit. It outlasts a loss of power once the calls that are listed were made.
#[unsafe(no_mangle)]
pub extern "C" fn exsm_core_commit(
    alloc: Global,
    handle: &mut Handle,
    image: &mut [u8],
    number: &mut u64,
) -> u32
    requires { IsLentBy handle.old.value image.old }
    ensures answers { Answers handle.old.value handle.new.value image.old image.new
        (Commit) result
        (λ told. number.new ≡ number_in told) }
    ensures same { result ≢ 0 → number.new ≡ number.old }
{
    let told = step(alloc, handle, image, &Command::Commit);
    tell_number(told, number)
}

/// Drops the working state.
#[unsafe(no_mangle)]
pub extern "C" fn exsm_core_abort(alloc: Global, handle: &mut Handle, image: &mut [u8]) -> u32
    requires { IsLentBy handle.old.value image.old }
    ensures answers { Answers handle.old.value handle.new.value image.old image.new
        (Abort) result
        (λ told. ⊤) }
{
    let told = step(alloc, handle, image, &Command::Abort);
    tell_done(told)
}

/// Writes logged pages home and empties the log.
#[unsafe(no_mangle)]
pub extern "C" fn exsm_core_checkpoint(alloc: Global, handle: &mut Handle, image: &mut [u8]) -> u32
    requires { IsLentBy handle.old.value image.old }
    ensures answers { Answers handle.old.value handle.new.value image.old image.new
        (Checkpoint) result
        (λ told. ⊤) }
{
    let told = step(alloc, handle, image, &Command::Checkpoint);
    tell_done(told)
}
