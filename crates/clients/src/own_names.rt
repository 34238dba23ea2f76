//! Names of clients, as a session keeps them.
ghost use Rattle.std.specs.Prelude.{◌≡◌, IfSome, IsTrue, option_map};
ghost use Rattle.table_model.specs.Words.{is_kept_name, is_name};
ghost use Rattle.table_model.specs.Machines.{main};
ghost use Rattle.table_model.specs.Requests.{is_request, is_spelled, reference_of, request_of};
ghost use Rattle.clients.specs.Names.{IsClient, bare, bound_in, group_in, held_reference, letter, name_in, own, own_if, owned, renamed, subject_in};

use arrayvec::ArrayVec;
use std::marker::Model;
use table_model::{Command, Name, Subject};

/// The group that is common to all clients.
const MAIN: &[u8] = b"main";

/// The most bytes of a name, as a line spells it.
const NAME_MOST: usize = 32;

/// The most bytes of a name that a session keeps: a client's letter and a name.
const KEPT_MOST: usize = 1 + NAME_MOST;

/// A name as a session keeps it.
#[derive(Drop)]
pub(crate) struct OwnName {
    bytes: ArrayVec<u8, KEPT_MOST>,
}

impl Model for OwnName {
    ghost use Rattle.std.specs.Prelude.{List, ℕ, IsTrue};
    ghost use Rattle.table_model.specs.Words.{is_kept_name};

    ghost Value = { List ℕ };

    ghost view = { λ name. name.bytes.items };

    ghost invariant = { λ name. IsTrue (is_kept_name name.bytes.items) };
}

// The letter of a client.
fn letter_of(client: u8) -> u8
    requires { IsClient client }
    ensures { result ≡ letter client }
{
    b'A' - 1 + client
}

impl OwnName {
    /// The name of the group that is common to all clients.
    pub fn main() -> OwnName
        ensures { result ≡ main }
    {
        let mut bytes = ArrayVec::new();
        bytes.try_extend_from_slice(MAIN).unwrap();
        OwnName { bytes }
    }

    /// A client's own name.
    pub fn of(client: u8, name: &[u8]) -> OwnName
        requires client { IsClient client }
        requires name { IsTrue (is_name name.now) }
        ensures { result ≡ own client name.now }
    {
        if name == MAIN {
            return OwnName::main();
        }
        let mut bytes = ArrayVec::new();
        bytes.push(letter_of(client));
        bytes.try_extend_from_slice(name).unwrap();
        OwnName { bytes }
    }

    /// Its bytes.
    pub fn as_slice(&self) -> &[u8]
        ensures bytes { result.now ≡ self.now }
        ensures kept { IsTrue (is_kept_name self.now) }
    {
        self.bytes.as_slice()
    }
}

/// A client's own name again. Of a name without bytes, which no session keeps, nothing is taken off.
pub(crate) fn bare_name(kept: Name) -> Name
    ensures { result ≡ bare kept }
{
    if kept.is_empty() || kept.as_slice() == MAIN {
        return kept;
    }
    let mut bytes = kept.into_vec();
    bytes.remove(0);
    Name::of(bytes)
}

/// The names of a client's command: of the version that it names, of what it binds, opens, goes on, closes or makes, and of a group.
#[derive(Drop)]
pub(crate) struct OwnNames {
    subject: OwnName,
    name: OwnName,
    group: OwnName,
}

impl OwnNames {
    ghost use Rattle.clients.specs.Prepared.{no_names, with_names};

    /// Those of no command.
    pub fn new() -> OwnNames
        ensures { result ≡ no_names }
    {
        OwnNames {
            subject: OwnName::main(),
            name: OwnName::main(),
            group: OwnName::main(),
        }
    }

    /// Those of a client's command. Where it has none, `main` stands.
    pub fn of(client: u8, command: &Command<'_>) -> OwnNames
        requires client { IsClient client }
        requires names { IsTrue (is_spelled (request_of command.now)) }
        ensures { with_names result (request_of command.now)
            ≡ owned client (request_of command.now) }
    {
        OwnNames {
            subject: own_or_main(client, subject_of(command)),
            name: own_or_main(client, name_of(command)),
            group: own_or_main(client, group_of(command)),
        }
    }

    /// The command with these names in the place of its own.
    pub fn given<'a>(&'a self, command: Command<'a>) -> Command<'a>
        requires { IsTrue (is_request (request_of command)) }
        ensures named { request_of result ≡ with_names self.entry.now
            (request_of command.entry) }
        ensures form { IsTrue (is_request (request_of result)) }
    {
        renamed(
            command,
            self.subject.as_slice(),
            self.name.as_slice(),
            self.group.as_slice(),
        )
    }
}

// A client's own name, or `main` where there is none.
fn own_or_main(client: u8, name: Option<&[u8]>) -> OwnName
    requires client { IsClient client }
    requires name { IfSome name (λ name. IsTrue (is_name name.now)) }
    ensures { result ≡ own_if client (option_map (λ name. name.now) name.entry) }
{
    match name {
        Some(name) => OwnName::of(client, name),
        None => OwnName::main(),
    }
}

// The bound name by which a command names a version.
fn subject_of<'a>(command: &Command<'a>) -> Option<&'a [u8]>
    ensures { option_map (λ name. name.now) result ≡ subject_in (request_of command.now) }
{
    match *command {
        Command::Destroy { x }
        | Command::Size { x }
        | Command::Stat { x }
        | Command::Digest { x }
        | Command::Versions { x }
        | Command::DropVersion { x }
        | Command::Read { x, .. }
        | Command::Insert { x, .. }
        | Command::Append { x, .. }
        | Command::Replace { x, .. }
        | Command::Delete { x, .. }
        | Command::Freeze { x, .. }
        | Command::Derive { x, .. }
        | Command::Scan { x, .. } => bound_name(x),
        _ => None,
    }
}

// The name that is bound to it.
fn bound_name(x: Subject<'_>) -> Option<&[u8]>
    ensures { option_map (λ name. name.now) result ≡ bound_in (reference_of x.entry) }
{
    match x {
        Subject::Name(name) => Some(name),
        Subject::Number { .. } => None,
    }
}

// The name that a command binds, opens, goes on, closes or makes.
fn name_of<'a>(command: &Command<'a>) -> Option<&'a [u8]>
    ensures { option_map (λ name. name.now) result ≡ name_in (request_of command.now) }
{
    match *command {
        Command::Create { bind, .. }
        | Command::Freeze { bind, .. }
        | Command::Derive { bind, .. } => bind,
        Command::Group { name, .. }
        | Command::Scan { name, .. }
        | Command::Next { name, .. }
        | Command::Close { name } => Some(name),
        _ => None,
    }
}

// The group that a command names.
fn group_of<'a>(command: &Command<'a>) -> Option<&'a [u8]>
    ensures { option_map (λ name. name.now) result ≡ group_in (request_of command.now) }
{
    match *command {
        Command::Scan { group, .. } => group,
        _ => None,
    }
}

// The name in the place of one that is there.
fn in_place<'a>(had: Option<&'a [u8]>, name: &'a [u8]) -> Option<&'a [u8]>
    ensures { option_map (λ name. name.now) result
        ≡ option_map (λ _. name.entry.now) (option_map (λ name. name.now) had.entry) }
{
    match had {
        Some(_) => Some(name),
        None => None,
    }
}

// The version by this name, in the place of one that is bound.
fn by_name<'a>(x: Subject<'a>, name: &'a [u8]) -> Subject<'a>
    ensures { reference_of result ≡ held_reference name.entry.now (reference_of x.entry) }
{
    match x {
        Subject::Name(_) => Subject::Name(name),
        Subject::Number { .. } => x,
    }
}

// A command with these names in the place of its own.
fn renamed<'a>(
    command: Command<'a>,
    subject: &'a [u8],
    name: &'a [u8],
    group: &'a [u8],
) -> Command<'a>
    ensures { request_of result ≡ renamed subject.entry.now name.entry.now group.entry.now
        (request_of command.entry) }
{
    match command {
        Command::Begin
        | Command::Commit
        | Command::Abort
        | Command::Checkpoint
        | Command::Log
        | Command::Files
        | Command::Space
        | Command::File { .. }
        | Command::Unfile { .. }
        | Command::List { .. } => command,
        Command::Create { file, bind } => {
            let bind = in_place(bind, name);
            Command::Create { file, bind }
        }
        Command::Destroy { x } => {
            let x = by_name(x, subject);
            Command::Destroy { x }
        }
        Command::Size { x } => {
            let x = by_name(x, subject);
            Command::Size { x }
        }
        Command::Stat { x } => {
            let x = by_name(x, subject);
            Command::Stat { x }
        }
        Command::Digest { x } => {
            let x = by_name(x, subject);
            Command::Digest { x }
        }
        Command::Versions { x } => {
            let x = by_name(x, subject);
            Command::Versions { x }
        }
        Command::DropVersion { x } => {
            let x = by_name(x, subject);
            Command::DropVersion { x }
        }
        Command::Read { x, pos, len } => {
            let x = by_name(x, subject);
            Command::Read { x, pos, len }
        }
        Command::Insert { x, pos, given } => {
            let x = by_name(x, subject);
            Command::Insert { x, pos, given }
        }
        Command::Append { x, given } => {
            let x = by_name(x, subject);
            Command::Append { x, given }
        }
        Command::Replace { x, pos, given } => {
            let x = by_name(x, subject);
            Command::Replace { x, pos, given }
        }
        Command::Delete { x, pos, len } => {
            let x = by_name(x, subject);
            Command::Delete { x, pos, len }
        }
        Command::Freeze { x, bind } => {
            let x = by_name(x, subject);
            let bind = in_place(bind, name);
            Command::Freeze { x, bind }
        }
        Command::Derive { x, bind } => {
            let x = by_name(x, subject);
            let bind = in_place(bind, name);
            Command::Derive { x, bind }
        }
        Command::Group { frames, mru, .. } => Command::Group { name, frames, mru },
        Command::Scan { x, group: had, .. } => {
            let x = by_name(x, subject);
            let group = in_place(had, group);
            Command::Scan { x, name, group }
        }
        Command::Next { len, .. } => Command::Next { name, len },
        Command::Close { .. } => Command::Close { name },
    }
}
