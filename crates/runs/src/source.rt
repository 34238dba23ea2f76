//! A whole run of a source, whichever talk takes its lines from it.
ghost use Rattle.std.specs.Prelude.{◌≡◌, ◌⊎◌, IfOk, Some};
ghost use Rattle.std.specs.Result.{result_err};
ghost use Rattle.disk_model.specs.Outside.{Goes};
ghost use Rattle.engines.specs.Keeping.{conduct};
ghost use Rattle.talks.specs.Headline.{RunOpens};
ghost use Rattle.talks.specs.Passage.{IsBroken, IsOver};
ghost use Rattle.talks.specs.Talking.{Left};
ghost use Rattle.talks.specs.declared.stopped.Stopped.{Stopped};
ghost use Rattle.talks.specs.declared.stopped.Stopped.TheVariants.{Memory};
ghost use Rattle.runs.specs.Source.{NotBegun, ReadsAll, ReadsSome, RunOfSource};

use disk_model::Host;
use std::alloc::{AllocError, Global};
use talks::{Opener, Stopped, Talk, run_talk};

/// A talk whose lines come from the host's source.
pub trait SourceTalk: Talk {
    ghost use Rattle.std.specs.Prelude.{ℕ};

    /// It has taken nothing yet, and so many bytes of the source count.
    ghost begins: { Self → ℕ → Type 0 };

    /// One that has taken nothing yet. `max_bytes` bytes of the source count. This takes the memory for lines.
    fn make(alloc: Global, max_bytes: u64) -> Result<Self, AllocError>
        ensures begins { IfOk result (λ first. begins first max_bytes) }

        // However much it takes, the source is read to its end, or so much of it as counts.
        ensures over { IfOk result (λ first. (left at : Left)
            → IsOver Self.talking first left at → ReadsAll max_bytes left at) }
        ensures broken { IfOk result (λ first. (left at : Left) (why : Stopped)
            → IsBroken Self.talking first left why at → ReadsSome max_bytes left why at) };
}

/// Opens the volume on the disk and steps on the lines of a talk that takes them from the source, of which `max_bytes` bytes count. Each reply is sent
/// whole before the next line is stepped. At the end an open transaction is aborted, which sends nothing.
///
/// The memory for lines is taken before the volume is opened.
pub fn run_source<E: Opener + Drop, T: SourceTalk + Drop, H: Host>(
    alloc: Global,
    host: &mut H,
    max_bytes: u64,
) -> Result<(), Stopped>
    ensures goes { Goes (H.outside host.old) (H.outside host.new) }
    ensures run { RunOfSource E.meaning (conduct H.outside E.keeps) E.fresh T.talking T.begins
        max_bytes (H.outside host.old) (H.outside host.new) (result_err result) }

    // First the volume was opened, but where no memory was there for lines.
    ensures opened { RunOpens E.meaning (conduct H.outside E.keeps) E.fresh E.opens
        (H.outside host.old) (H.outside host.new) (result_err result)
        ⊎ ((result_err result ≡ Some Memory)
        × NotBegun (H.outside host.old) (H.outside host.new)) }
{
    let mut talk = T::make(alloc, max_bytes)?;
    run_talk::<E, T, H>(alloc, host, &mut talk)
}
