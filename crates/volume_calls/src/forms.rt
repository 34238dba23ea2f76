//! Whether a command is one that a line could ask for.
ghost use Rattle.std.specs.Prelude.{◌≡◌, option_map};
ghost use Rattle.table_model.specs.Requests.{given_of, is_position, reference_of, request_of};
ghost use Rattle.table_model.specs.Words.{is_name};
ghost use Rattle.volume_calls.specs.Forms.{is_count, is_exact, is_formed, is_long, is_name_if, is_over, is_plain, unformed};

use script_lang::name;
use table_model::{Command, DATA_MOST, FRAMES_MOST, Given, Refusal, Subject};

fn is_name(word: &[u8]) -> bool
    ensures { result ≡ is_name word.now }
{
    match name(word) {
        Some(_) => true,
        None => false,
    }
}

fn is_name_if(word: Option<&[u8]>) -> bool
    ensures { result ≡ is_name_if (option_map (λ name. name.now) word.entry) }
{
    match word {
        Some(word) => is_name(word),
        None => true,
    }
}

// Each number of a field is a place.
fn is_position(pos: u64) -> bool
    ensures { result ≡ is_position pos }
{
    pos <= u64::MAX
}

fn is_count(count: usize) -> bool
    ensures { result ≡ is_count count }
{
    count <= DATA_MOST as usize
}

fn is_exact(x: Subject<'_>) -> bool
    ensures { result ≡ is_exact (reference_of x.entry) }
{
    match x {
        Subject::Name(name) => is_name(name),
        Subject::Number { page, slot, unique } => {
            is_position(page) && is_position(slot) && is_position(unique)
        }
    }
}

// Bytes that stand for themselves; a data word is for lines.
fn is_plain(given: Given<'_>) -> bool
    ensures { result ≡ is_plain (given_of given.entry) }
{
    match given {
        Given::Bytes(bytes) => is_count(bytes.len()),
        Given::Word(_) => false,
    }
}

/// Whether a line could ask for the command, where bytes that it gives stand for themselves.
pub(crate) fn is_formed(command: &Command<'_>) -> bool
    ensures { result ≡ is_formed (request_of command.now) }
{
    match command {
        Command::Destroy { x } => is_exact(*x),
        Command::Size { x } => is_exact(*x),
        Command::Stat { x } => is_exact(*x),
        Command::Digest { x } => is_exact(*x),
        Command::Versions { x } => is_exact(*x),
        Command::DropVersion { x } => is_exact(*x),
        Command::Read { x, pos, len } => {
            is_exact(*x) && is_position(*pos) && is_count(*len as usize)
        }
        Command::Insert { x, pos, given } => {
            is_exact(*x) && is_position(*pos) && is_plain(*given)
        }
        Command::Append { x, given } => is_exact(*x) && is_plain(*given),
        Command::Replace { x, pos, given } => {
            is_exact(*x) && is_position(*pos) && is_plain(*given)
        }
        Command::Delete { x, pos, len } => is_exact(*x) && is_position(*pos) && is_position(*len),
        Command::Freeze { x, bind } => is_exact(*x) && is_name_if(*bind),
        Command::Derive { x, bind } => is_exact(*x) && is_name_if(*bind),
        Command::Scan { x, name, group } => is_exact(*x) && is_name(name) && is_name_if(*group),
        Command::File { name } => is_name(name),
        Command::Unfile { name } => is_name(name),
        Command::List { name } => is_name(name),
        Command::Create { file, bind } => is_name(file) && is_name_if(*bind),
        Command::Group { name, frames, .. } => {
            is_name(name) && 1 <= *frames && *frames <= FRAMES_MOST
        }
        Command::Next { name, len } => is_name(name) && is_count(*len as usize),
        Command::Close { name } => is_name(name),
        Command::Begin => true,
        Command::Commit => true,
        Command::Abort => true,
        Command::Checkpoint => true,
        Command::Log => true,
        Command::Files => true,
        Command::Space => true,
    }
}

// Whether more bytes are given than one call may.
fn is_long(given: Given<'_>) -> bool
    ensures { result ≡ is_long (given_of given.entry) }
{
    match given {
        Given::Bytes(bytes) => bytes.len() > DATA_MOST as usize,
        Given::Word(_) => false,
    }
}

// Whether more bytes are given or asked for than one call may.
fn is_over(command: &Command<'_>) -> bool
    ensures { result ≡ is_over (request_of command.now) }
{
    match command {
        Command::Read { len, .. } => *len > DATA_MOST,
        Command::Next { len, .. } => *len > DATA_MOST,
        Command::Append { given, .. } => is_long(*given),
        Command::Insert { given, .. } => is_long(*given),
        Command::Replace { given, .. } => is_long(*given),
        _ => false,
    }
}

/// Why a command that no line could ask for is refused.
pub(crate) fn unformed(command: &Command<'_>) -> Refusal
    ensures { result ≡ unformed (request_of command.now) }
{
    if is_over(command) {
        Refusal::DataLimit
    } else {
        Refusal::Syntax
    }
}
