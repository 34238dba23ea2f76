//! The numbers of a volume, for C.
ghost use Rattle.std.specs.Prelude.{◌≡◌, ◌≢◌};
ghost use Rattle.exsm_c.specs.Answers.{Answers, AnswersCheck};
ghost use Rattle.exsm_c.specs.Owned.{IsLentBy};
ghost use Rattle.exsm_c.specs.Told.{records_in, units_in};
ghost use Rattle.table_model.specs.Requests.{Log, Space};

use crate::handle::{Handle, give, take};
use crate::making::sum_of;
use crate::passed::{Counts, Units};
use crate::steps::step;
use crate::told::{tell_counts, tell_records, tell_units, why_of};
use std::alloc::Global;
use table_model::Command;

/// Tells how many records of the log count.
#[unsafe(no_mangle)]
pub extern "C" fn exsm_core_log(
    alloc: Global,
    handle: &mut Handle,
    image: &mut [u8],
    records: &mut u32,
) -> u32
    requires { IsLentBy handle.old.value image.old }
    ensures answers { Answers handle.old.value handle.new.value image.old image.new
        (Log) result
        (λ told. records.new ≡ records_in told) }
    ensures same { result ≢ 0 → records.new ≡ records.old }
{
    let told = step(alloc, handle, image, &Command::Log);
    tell_records(told, records)
}

/// Tells the units in use, and all that there are.
#[unsafe(no_mangle)]
pub extern "C" fn exsm_core_space(
    alloc: Global,
    handle: &mut Handle,
    image: &mut [u8],
    space: &mut Units,
) -> u32
    requires { IsLentBy handle.old.value image.old }
    ensures answers { Answers handle.old.value handle.new.value image.old image.new
        (Space) result
        (λ told. space.new ≡ units_in told) }
    ensures same { result ≢ 0 → space.new ≡ space.old }
{
    let told = step(alloc, handle, image, &Command::Space);
    tell_units(told, space)
}

/// Sums up what the volume holds, which an opening tested whole.
#[unsafe(no_mangle)]
pub extern "C" fn exsm_core_check(
    alloc: Global,
    handle: &mut Handle,
    image: &mut [u8],
    counts: &mut Counts,
) -> u32
    requires { IsLentBy handle.old.value image.old }
    ensures answers { AnswersCheck handle.old.value handle.new.value image.new result counts.new }
    ensures same { result ≢ 0 → counts.new ≡ counts.old }
{
    let mut open = take(alloc, handle);
    let told = sum_of(&mut open.volume, alloc, image);
    open.why = why_of(&told, open.why);
    give(handle, open);
    tell_counts(told, counts)
}
