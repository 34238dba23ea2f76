//! Why a run ends before its script does.
ghost use Rattle.std.specs.Prelude.{◌≡◌, ◌≢◌, Some};
ghost use Rattle.talks.specs.Stops.{stop_as};

use ex_base::{PageNo, Seen};
use script_lines::LineFault;
use session_views::{OpenFault, Part, Stop};
use std::alloc::AllocError;

/// Why a run ended before its script did.
#[derive(Clone, Copy, Debug, PartialEq, Eq)]
pub enum Stopped {
    /// The source failed: its count of faults rose.
    Script,
    /// The sink failed: its count of faults rose.
    Output,
    /// The disk failed: its count of faults rose.
    Disk,
    /// No memory was there.
    Memory,
    /// The disk holds no volume: this is the first part that fails. Nothing was sent and no line taken.
    BadVolume { part: Part },
    /// What a read gave isn't what the page that names it says. `want` and `got` differ.
    Damaged { page: PageNo, want: Seen, got: Seen },
    /// The script has more bytes than count. All whole lines among those that do were stepped and answered.
    ScriptLong,
}

/// The stop of a session that was up, as a run ends by it.
pub(crate) fn stopped_by(stop: Stop) -> Stopped
    requires { stop ≢ Stop.Down }
    ensures { Some result ≡ stop_as stop }
{
    match stop {
        Stop::Memory => Stopped::Memory,
        Stop::Disk => Stopped::Disk,
        Stop::Damaged { page, want, got } => Stopped::Damaged { page, want, got },
        Stop::Down => unreachable!(),
    }
}

impl From<OpenFault> for Stopped {
    ghost use Rattle.talks.specs.Stops.{unopened_as};

    ghost from_gives = { λ fault why. why ≡ unopened_as fault };

    /// A fault of an opening, as a run ends by it.
    fn from(fault: OpenFault) -> Stopped {
        match fault {
            OpenFault::Memory => Stopped::Memory,
            OpenFault::Disk => Stopped::Disk,
            OpenFault::BadVolume { part } => Stopped::BadVolume { part },
        }
    }
}

impl From<LineFault> for Stopped {
    ghost use Rattle.talks.specs.Stops.{unread_as};

    ghost from_gives = { λ fault why. why ≡ unread_as fault };

    /// A fault of the reading of lines, as a run ends by it.
    fn from(fault: LineFault) -> Stopped {
        match fault {
            LineFault::Read => Stopped::Script,
            LineFault::TooMuch => Stopped::ScriptLong,
        }
    }
}

impl From<AllocError> for Stopped {
    ghost use Rattle.talks.specs.declared.stopped.Stopped.TheVariants.{Memory};

    ghost from_gives = { λ _ why. why ≡ Memory };

    fn from(_: AllocError) -> Stopped {
        Stopped::Memory
    }
}
