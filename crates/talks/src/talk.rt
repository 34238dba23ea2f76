//! What a run needs of what hands it lines and takes its replies.
ghost use Rattle.std.specs.Prelude.{◌≡◌, ◌<◌, ℕ, List, ◌∷◌, [], ◌++◌, Ok, OnOk, IfErr, true, false, length, Some, None};
ghost use Rattle.disk_model.specs.Outside.{SourceOnly};
ghost use Rattle.script_lang.specs.Reading.{Reading};
ghost use Rattle.talks.specs.Asking.{reading_of, IsFormed};
ghost use Rattle.talks.specs.Sending.{SentFront, SentPart};
ghost use Rattle.talks.specs.Stops.{CausedBy, IsTakingStop, IsSendingStop};
ghost use Rattle.talks.specs.Talking.{Exchange, IsLoud, Talking, Left};
ghost use Rattle.talks.specs.declared.stopped.Stopped.{Stopped};

use crate::stopped::Stopped;
use disk_model::Host;
use std::alloc::Global;
use table_model::{Command, Refusal, Reply};

/// What a line asks for.
#[derive(Clone, Copy)]
pub enum Asked<'a> {
    /// Nothing: it is blank or a comment.
    Nothing,
    /// A step of the session.
    Step(Command<'a>),
    /// It is refused before any step.
    Refused(Refusal),
}

/// Where the lines of a run come from, and where its replies go.
pub trait Talk {
    /// What it means.
    ghost talking: { Talking Self };

    /// How much it may still take: each line takes some.
    ghost rest: { Self → ℕ };

    /// Why its own calls may fail.
    ghost fails: { Stopped → Type 0 };

    /// Takes the next line, and says whether there is one.
    fn advance<H: Host>(&mut self, alloc: Global, host: &mut H) -> Result<bool, Stopped>
        ensures only { SourceOnly (H.outside host.old) (H.outside host.new) }
        ensures caused { IfErr result
            (λ why. CausedBy why (H.outside host.old) (H.outside host.new)) }
        ensures stops { IfErr result IsTakingStop }
        ensures fails { IfErr result fails }
        ensures fewer { result ≡ Ok true → rest self.new < rest self.old }

        // A line waits, or there is none, or the talk is broken.
        ensures taken { result ≡ Ok true → (first : Self) (left : Left) (had : List Exchange)
            → talking.Had first left had self.old (H.outside host.old).left
            → talking.Waits first left had self.new (H.outside host.new).left }
        ensures over { result ≡ Ok false → (first : Self) (left : Left) (had : List Exchange)
            → talking.Had first left had self.old (H.outside host.old).left
            → talking.Over first left had self.new (H.outside host.new).left }
        ensures broken { IfErr result (λ why. (first : Self) (left : Left) (had : List Exchange)
            → talking.Had first left had self.old (H.outside host.old).left
            → talking.Broken first left had None why self.old (H.outside host.new).left) };

    /// What the line that was taken last asks for.
    fn asked(&self) -> Asked<'_>
        ensures asked { talking.Asked self.now (reading_of result) }
        ensures formed { IsFormed result };

    /// Sends what a reply to it says. Only a line that asks for something is answered.
    fn tell<H: Host>(&mut self, alloc: Global, host: &mut H, told: Reply) -> Result<(), Stopped>
        ensures caused { IfErr result
            (λ why. CausedBy why (H.outside host.old) (H.outside host.new)) }
        ensures stops { IfErr result IsSendingStop }
        ensures fails { IfErr result fails }
        ensures rest { OnOk result (rest self.new ≡ rest self.old) }

        // The text was sent whole, or a front of it where the sink failed, or else nothing of it.
        ensures sent { OnOk result (SentFront (H.outside host.old) (H.outside host.new)
            (talking.text self.old told) (length (talking.text self.old told))) }
        ensures part { IfErr result (λ why. SentPart why (H.outside host.old) (H.outside host.new)
            (talking.text self.old told)) }

        // The line is answered, or the talk is broken.
        ensures had { OnOk result ((first : Self) (left : Left) (had : List Exchange)
            (reading : Reading)
            → talking.Waits first left had self.old (H.outside host.old).left
            → talking.Asked self.old reading → IsLoud reading
            → talking.Had first left
            (had ++ record { reading = reading; told = told; text = talking.text self.old told }
            ∷ []) self.new (H.outside host.new).left) }
        ensures broken { IfErr result (λ why. (first : Self) (left : Left) (had : List Exchange)
            (reading : Reading)
            → talking.Waits first left had self.old (H.outside host.old).left
            → talking.Asked self.old reading → IsLoud reading
            → talking.Broken first left had (Some reading) why self.old
            (H.outside host.new).left) };
}
