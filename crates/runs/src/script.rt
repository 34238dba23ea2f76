//! A script as a talk: its lines come from the host's source, and the texts of replies go to its sink.
ghost use Rattle.std.specs.Prelude.{◌⊎◌};
ghost use Rattle.script_lines.specs.Reader.{counted};
ghost use Rattle.talks.specs.Stops.{IsSendingStop, IsTakingStop};

use crate::sender::say;
use crate::source::SourceTalk;
use disk_model::Host;
use script_lang::parse;
use script_lines::{LineRef, Lines};
use std::alloc::{AllocError, Global};
use table_model::{Refusal, Reply};
use talks::{Asked, Stopped, Talk};

/// The lines of a script, and the buffer for the texts of replies: one serves all of them.
#[derive(Drop)]
pub struct Script {
    reader: Lines,
    text: Vec<u8>,
}

impl Talk for Script {
    ghost use Rattle.runs.specs.ScriptTalk.{script_talking};

    ghost talking = { script_talking };

    ghost rest = { λ script. counted script.reader };

    ghost fails = { λ why. IsTakingStop why ⊎ IsSendingStop why };

    fn advance<H: Host>(&mut self, _alloc: Global, host: &mut H) -> Result<bool, Stopped> {
        self.reader.advance(host)?;
        match self.reader.line() {
            LineRef::End => Ok(false),
            LineRef::Long => Ok(true),
            LineRef::Line(_line) => Ok(true),
        }
    }

    fn asked(&self) -> Asked<'_> {
        match self.reader.line() {
            LineRef::End => Asked::Nothing,
            LineRef::Long => Asked::Refused(Refusal::LineLong),
            LineRef::Line(line) => match parse(line) {
                Err(why) => Asked::Refused(why),
                Ok(None) => Asked::Nothing,
                Ok(Some(command)) => Asked::Step(command),
            },
        }
    }

    fn tell<H: Host>(&mut self, alloc: Global, host: &mut H, told: Reply) -> Result<(), Stopped> {
        say(alloc, &mut self.text, host, b"", told)
    }
}

impl SourceTalk for Script {
    ghost use Rattle.runs.specs.ScriptTalk.{script_begins};

    ghost begins = { script_begins };

    fn make(alloc: Global, max_bytes: u64) -> Result<Script, AllocError> {
        Ok(Script {
            reader: Lines::make(alloc, max_bytes)?,
            text: Vec::new(alloc),
        })
    }
}
