//! A schedule as a talk: its lines come from the host's source, each with its client's number before it, and so do the texts of replies that go to its
//! sink.
ghost use Rattle.std.specs.Prelude.{◌≡◌, ◌≤◌, ◌⊎◌, ◌++◌, ◌∷◌, [], decimal};
ghost use Rattle.script_lines.specs.Reader.{counted};
ghost use Rattle.talks.specs.Stops.{IsSendingStop, IsTakingStop};
ghost use Rattle.clients.specs.Names.{clients_most};

use crate::clients::Clients;
use crate::turns::Routed;
use arrayvec::ArrayVec;
use disk_model::Host;
use itoa::Buffer;
use runs::{SourceTalk, say};
use script_lines::{LineRef, Lines};
use std::alloc::{AllocError, Global};
use table_model::Reply;
use talks::{Asked, Stopped, Talk};

/// The most bytes of a client's number and the space behind it.
const FRONT_MOST: usize = 3;

/// The lines of a schedule, the clients, and the buffer for the texts of replies: one serves all of them.
#[derive(Drop)]
pub struct Schedule {
    reader: Lines,
    clients: Clients,
    text: Vec<u8>,
}

// What stands before a reply to a client: its number and a space.
fn numbered(client: u8) -> ArrayVec<u8, FRONT_MOST>
    requires { client ≤ clients_most }
    ensures { result.items ≡ decimal client ++ 32 ∷ [] }
{
    let mut digits = Buffer::new();
    let mut front = ArrayVec::new();
    front
        .try_extend_from_slice(digits.format(client).as_bytes())
        .unwrap();
    front.push(b' ');
    front
}

impl Talk for Schedule {
    ghost use Rattle.clients.specs.ScheduleTalk.{schedule_talking};

    ghost talking = { schedule_talking };

    ghost rest = { λ schedule. counted schedule.reader };

    ghost fails = { λ why. IsTakingStop why ⊎ IsSendingStop why };

    fn advance<H: Host>(&mut self, _alloc: Global, host: &mut H) -> Result<bool, Stopped> {
        self.reader.advance(host)?;
        let line = self.reader.line();
        self.clients.route(line);
        match line {
            LineRef::End => Ok(false),
            LineRef::Long => Ok(true),
            LineRef::Line(_line) => Ok(true),
        }
    }

    fn asked(&self) -> Asked<'_> {
        match self.clients.routed(self.reader.line()) {
            Routed::Nothing => Asked::Nothing,
            Routed::Answer { refusal, .. } => Asked::Refused(refusal),
            Routed::Step { command, .. } => Asked::Step(command),
        }
    }

    fn tell<H: Host>(&mut self, alloc: Global, host: &mut H, told: Reply) -> Result<(), Stopped> {
        let front = numbered(self.clients.client());
        let told = self.clients.settle(told);
        say(alloc, &mut self.text, host, front.as_slice(), told)
    }
}

impl SourceTalk for Schedule {
    ghost use Rattle.clients.specs.ScheduleTalk.{BeginsSchedule};

    ghost begins = { BeginsSchedule };

    fn make(alloc: Global, max_bytes: u64) -> Result<Schedule, AllocError> {
        Ok(Schedule {
            reader: Lines::make(alloc, max_bytes)?,
            clients: Clients::make(),
            text: Vec::new(alloc),
        })
    }
}
