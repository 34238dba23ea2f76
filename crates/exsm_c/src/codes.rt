//! What an export answers, as numbers.
ghost use Rattle.std.specs.Prelude.{◌≡◌};
ghost use Rattle.exsm_c.specs.Codes.{code_of_fault, code_of_status, code_of_stop, code_of_why, number_of};

use exsm_run::Status;
use session_views::{OpenFault, Stop};
use table_model::Refusal;
use volume_calls::NotDone;

/// Done.
pub const OK: u32 = 0;

/// The caller's buffer is too small: nothing was done.
pub const ROOM: u32 = 50;

/// The image isn't as long as the one that was opened, or nothing has the number that is asked for.
pub const MISUSE: u32 = 51;

/// No memory was there.
pub const NO_MEMORY: u32 = 100;

/// What stands on the volume isn't what the page that names it says.
pub const DAMAGED: u32 = 102;

/// An earlier call met a fault.
pub const DOWN: u32 = 103;

/// The image stands for no table; where a volume is to be made, the sizes break a limit.
pub const BAD_VOLUME: u32 = 104;

/// A volume is to be made where one is.
pub const IS_VOLUME: u32 = 107;

/// The image is smaller than the volume that is to be made.
pub const TOO_SMALL: u32 = 108;

/// The number of a refusal.
pub(crate) fn number_of(why: Refusal) -> u32
    ensures { result ≡ number_of why }
{
    match why {
        Refusal::LineLong => 1,
        Refusal::Syntax => 2,
        Refusal::DataLimit => 3,
        Refusal::NoTxn => 4,
        Refusal::TxnOpen => 5,
        Refusal::NoName => 6,
        Refusal::NameTaken => 7,
        Refusal::NoFile => 8,
        Refusal::FileExists => 9,
        Refusal::FilesFull => 10,
        Refusal::NoObject => 11,
        Refusal::Frozen => 12,
        Refusal::Current => 13,
        Refusal::NotEmpty => 14,
        Refusal::HasVersions => 15,
        Refusal::NoScan => 16,
        Refusal::NoGroup => 17,
        Refusal::Range => 18,
        Refusal::TooLarge => 19,
        Refusal::TooMany { .. } => 20,
        Refusal::IdsSpent => 21,
        Refusal::LongTxn { .. } => 22,
        Refusal::Full { .. } => 23,
        Refusal::Branches { .. } => 24,
        Refusal::Busy { .. } => 25,
    }
}

/// The code of a stop. A lent image fails only where memory for its list of calls is wanted.
pub(crate) fn code_of_stop(stop: Stop) -> u32
    ensures { result ≡ code_of_stop stop }
{
    match stop {
        Stop::Memory | Stop::Disk => NO_MEMORY,
        Stop::Damaged { .. } => DAMAGED,
        Stop::Down => DOWN,
    }
}

/// The code of a call that wasn't done.
pub(crate) fn code_of(why: NotDone) -> u32
    ensures { result ≡ code_of_why why }
{
    match why {
        NotDone::Misuse => MISUSE,
        NotDone::Refused(why) => number_of(why),
        NotDone::Stopped(stop) => code_of_stop(stop),
        NotDone::Untold => NO_MEMORY,
    }
}

/// The code of a volume that wasn't opened.
pub(crate) fn code_of_fault(fault: OpenFault) -> u32
    ensures { result ≡ code_of_fault fault }
{
    match fault {
        OpenFault::Memory | OpenFault::Disk => NO_MEMORY,
        OpenFault::BadVolume { .. } => BAD_VOLUME,
    }
}

/// The code of how a volume was made. It is whole before it is told, which a lent host has no sink for.
pub(crate) fn code_of_status(status: Status) -> u32
    ensures { result ≡ code_of_status status }
{
    match status {
        Status::Done | Status::OutputFault => OK,
        Status::AlreadyVolume => IS_VOLUME,
        Status::TooSmall { .. } => TOO_SMALL,
        _ => NO_MEMORY,
    }
}
