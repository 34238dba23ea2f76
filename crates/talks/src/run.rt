//! A whole run: the volume is opened, and the session steps on each line of a talk.
ghost use Rattle.std.specs.Prelude.{◌⊎◌, ℕ, List, OnOk, IfErr};
ghost use Rattle.std.specs.Result.{result_err};
ghost use Rattle.disk_model.specs.Outside.{DiskOnly, Goes};
ghost use Rattle.table_model.specs.declared.table.Table.{Table};
ghost use Rattle.engines.specs.Keeping.{conduct};
ghost use Rattle.talks.specs.Headline.{RunOn, RunOpens, RunStarts, TalkHeadline};
ghost use Rattle.talks.specs.Passage.{IsBroken, IsOver};
ghost use Rattle.talks.specs.Stops.{IsOpeningStop, IsSessionStop};

use crate::ending::abort_open;
use crate::lines::step_lines;
use crate::opener::Opener;
use crate::stopped::Stopped;
use crate::talk::Talk;
use disk_model::Host;
use std::alloc::Global;

/// Opens the volume on the disk and steps on the lines of the talk. Each reply is told before the next line is taken. At the end an open transaction is
/// aborted, which tells nothing.
pub fn run_talk<E: Opener + Drop, T: Talk, H: Host>(
    alloc: Global,
    host: &mut H,
    talk: &mut T,
) -> Result<(), Stopped>
    ensures goes { Goes (H.outside host.old) (H.outside host.new) }

    // What was replied, from view to view, what each step kept, and what a stop at any moment leaves.
    ensures headline { (table : Table) (was : List ℕ)
        → RunStarts E.meaning (H.outside host.old) table was
        → TalkHeadline E.meaning (conduct H.outside E.keeps) E.fresh T.talking talk.old talk.new
        table was (H.outside host.old) (H.outside host.new) (result_err result) }

    // What becomes of the disk, and why it was stopped.
    ensures on { RunOn E.meaning (conduct H.outside E.keeps) (H.outside host.old)
        (H.outside host.new) (result_err result) }

    // The talk went to its end, or it was broken, or it wasn't begun.
    ensures over { OnOk result (IsOver T.talking talk.old (H.outside host.old).left
        (H.outside host.new).left) }
    ensures broken { IfErr result (λ why. IsBroken T.talking talk.old (H.outside host.old).left why
        (H.outside host.new).left
        ⊎ (IsOpeningStop why × DiskOnly (H.outside host.old) (H.outside host.new))) }

    // The opening stopped it, or the session, or the talk itself.
    ensures whence { IfErr result
        (λ why. IsOpeningStop why ⊎ (IsSessionStop why ⊎ T.fails why)) }

    // First the volume was opened, and that did what openings do.
    ensures opened { RunOpens E.meaning (conduct H.outside E.keeps) E.fresh E.opens
        (H.outside host.old) (H.outside host.new) (result_err result) }
{
    let mut session = E::open(alloc, host)?;
    step_lines(alloc, &mut session, talk, host)?;
    abort_open(alloc, &mut session, host)
}
