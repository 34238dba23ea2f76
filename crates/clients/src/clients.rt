//! Several clients of one session: their names, and whose transaction is open.
ghost use Rattle.std.specs.Prelude.{◌≡◌, ◌≤◌, IfSome, IsTrue, None};
ghost use Rattle.script_lang.specs.LineWords.{words_of};
ghost use Rattle.script_lang.specs.Reading.{Asks, Says, is_silent};
ghost use Rattle.script_lines.specs.Reader.{line_lent};
ghost use Rattle.table_model.specs.Requests.{Request, request_of};
ghost use Rattle.clients.specs.Names.{IsClient, clients_most, owned, told_bare};
ghost use Rattle.clients.specs.Routing.{busy_with, owner_after, waits};
ghost use Rattle.clients.specs.Turns.{Quiet};

use crate::own_names::{OwnNames, bare_name};
use crate::turns::{Front, Routed, front_of, may_name, turn_lent};
use script_lang::parse;
use script_lines::LineRef;
use table_model::{Command, Refusal, Reply};

/// Whose transaction is open, whose line was taken last, and that line's names as the session keeps them.
#[derive(Drop)]
pub struct Clients {
    owner: Option<u8>,
    client: u8,
    names: OwnNames,
    ghost few: { client ≤ clients_most },
}

impl Clients {
    ghost use Rattle.clients.specs.Prepared.{AsksNow, IsFormedRoute, IsClientOf, IsPrepared, IsTurnOf, no_names, routed_reading, with_names};

    /// No line was taken yet.
    pub fn make() -> Clients
        ensures owner { result.owner ≡ None }
        ensures client { result.client ≡ 0 }
        ensures names { result.names ≡ no_names }
    {
        Clients {
            owner: None,
            client: 0,
            names: OwnNames::new(),
        }
    }

    /// A line is taken. Its words are read only where they may have a name that the session keeps.
    pub fn route(&mut self, line: LineRef<'_>)
        ensures owner { self.new.owner ≡ self.old.owner }
        ensures prepared { IfSome (line_lent line.entry) (λ l. IsPrepared l self.new) }
        ensures quiet { IsTurnOf (line_lent line.entry) Quiet → self.new ≡ self.old }
    {
        match line {
            LineRef::End => {}
            LineRef::Long => self.client = 0,
            LineRef::Line(line) => match front_of(line) {
                Front::Quiet => {}
                Front::Unread => self.client = 0,
                Front::Of { client, rest } => self.take(client, rest),
            },
        }
    }

    // What a client says is taken.
    fn take(&mut self, client: u8, said: &[u8])
        requires { IsClient client }
        ensures owner { self.new.owner ≡ self.old.owner }
        ensures client { (IsTrue (is_silent (words_of said.now)) → ⊥)
            → self.new.client ≡ client }
        ensures names { (r : Request) → Says (words_of said.now) (Asks r)
            → with_names self.new.names r ≡ owned client r }
        ensures quiet { IsTrue (is_silent (words_of said.now)) → self.new ≡ self.old }
    {
        if !may_name(said) {
            self.client = client;
            return;
        }
        match parse(said) {
            Ok(None) => {}
            Ok(Some(command)) => {
                self.client = client;
                self.names = OwnNames::of(client, &command);
            }
            Err(_) => self.client = client,
        }
    }

    /// What the line that was taken last asks for. A refusal as busy comes behind those of its words.
    pub fn routed<'a>(&'a self, line: LineRef<'a>) -> Routed<'a>
        ensures asked { AsksNow (line_lent line.entry) self.entry.now (routed_reading result) }
        ensures formed { IsFormedRoute result }
        ensures whose { IsClientOf (line_lent line.entry) result }
    {
        match turn_lent(line) {
            Routed::Step { client, command } => match self.busy_with(client, &command) {
                Some(other) => Routed::Answer {
                    client,
                    refusal: Refusal::Busy { client: other },
                },
                None => Routed::Step {
                    client,
                    command: self.names.given(command),
                },
            },
            Routed::Answer { client, refusal } => Routed::Answer { client, refusal },
            Routed::Nothing => Routed::Nothing,
        }
    }

    /// The client whose line was taken last.
    pub fn client(&self) -> u8
        ensures { result ≡ self.now.client }
    {
        self.client
    }

    // The other client whose transaction is open, where the command waits for it.
    fn busy_with(&self, client: u8, command: &Command<'_>) -> Option<u8>
        ensures { result ≡ busy_with self.now.owner client (request_of command.now) }
    {
        match self.owner {
            Some(other) if other != client && waits(command) => Some(other),
            _ => None,
        }
    }

    /// The last line was answered so: the reply, as its client reads it.
    pub fn settle(&mut self, told: Reply) -> Reply
        ensures owner { self.new.owner ≡ owner_after self.old.client told self.old.owner }
        ensures bare { result ≡ told_bare told }
        ensures client { self.new.client ≡ self.old.client }
        ensures names { self.new.names ≡ self.old.names }
    {
        match told {
            Reply::Begin { number } => {
                self.owner = Some(self.client);
                Reply::Begin { number }
            }
            Reply::Commit { number } => {
                self.owner = None;
                Reply::Commit { number }
            }
            Reply::Abort => {
                self.owner = None;
                Reply::Abort
            }
            Reply::Group { name } => Reply::Group {
                name: bare_name(name),
            },
            Reply::Scan { name, size } => Reply::Scan {
                name: bare_name(name),
                size,
            },
            Reply::Close { name } => Reply::Close {
                name: bare_name(name),
            },
            told => told,
        }
    }
}

// Whether a command waits for the transaction of another client.
fn waits(command: &Command<'_>) -> bool
    ensures { result ≡ waits (request_of command.now) }
{
    !matches!(
        command,
        Command::Next { .. } | Command::Close { .. } | Command::Group { .. }
    )
}
