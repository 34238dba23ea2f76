//! The generated script as a talk: its lines are made here, and its replies are counted and hashed.
ghost use Rattle.std.specs.Prelude.{◌≡◌, ◌<◌, ◌^◌, [], List, ℕ, length, IfOk, string_bytes};
ghost use Rattle.table_model.specs.declared.reply.Reply.{Reply};

use crate::generator::Generator;
use crate::tally::Tally;
use disk_model::Host;
use script_lang::parse;
use std::alloc::{AllocError, Global};
use table_model::Reply;
use talks::{Asked, Stopped, Talk};

/// The lines of a generated script, and a tally of the replies. It calls nothing on the host.
#[derive(Drop)]
pub struct Generated {
    lines: Generator,
    tally: Tally,
}

impl Generated {
    ghost use Rattle.generated.specs.Lines.{to_come};
    ghost use Rattle.generated.specs.Replies.{IsTallyOf, gen_line};
    ghost use Rattle.generated.specs.Script.{generated};

    /// The script of that seed with so many commands, of which no line was made yet.
    pub fn make(alloc: Global, seed: u64, count: u32) -> Generated
        ensures lines { to_come result.lines ≡ generated seed count }
        ensures few { length (to_come result.lines) < 2 ^ 64 }
        ensures none { IsTallyOf [] result.tally }
    {
        Generated {
            lines: Generator::make(alloc, seed, count),
            tally: Tally::make(alloc),
        }
    }

    /// The line that says what the replies came to.
    pub fn summary(self, alloc: Global) -> Result<String, AllocError>
        ensures { IfOk result (λ line. (replies : List Reply) → IsTallyOf replies self.tally
            → string_bytes line ≡ gen_line replies) }
    {
        let Generated { lines: _, tally } = self;
        tally.line(alloc)
    }
}

impl Talk for Generated {
    ghost use Rattle.generated.specs.GeneratedTalk.{generated_talking};
    ghost use Rattle.talks.specs.declared.stopped.Stopped.TheVariants.{Memory};
    ghost use Rattle.generated.specs.Lines.{to_come};

    ghost talking = { generated_talking };

    ghost rest = { λ talk. length (to_come talk.lines) };

    ghost fails = { λ why. why ≡ Memory };

    fn advance<H: Host>(&mut self, _alloc: Global, _host: &mut H) -> Result<bool, Stopped> {
        Ok(self.lines.advance()?)
    }

    fn asked(&self) -> Asked<'_> {
        match parse(self.lines.line()) {
            Err(why) => Asked::Refused(why),
            Ok(None) => Asked::Nothing,
            Ok(Some(command)) => Asked::Step(command),
        }
    }

    fn tell<H: Host>(&mut self, _alloc: Global, _host: &mut H, told: Reply) -> Result<(), Stopped> {
        self.tally.add(&told)?;
        Ok(())
    }
}
