//! Whose a line of a schedule is, and what it says.
ghost use Rattle.std.specs.Prelude.{◌≡◌, ◌||◌, ◌&&◌, ℕ, IsTrue, List, MatchOption, bytes_eq, codes, decimal, false, length, nat_lt};
ghost use Rattle.std.specs.List.{list_all};
ghost use Rattle.script_lang.specs.LineWords.{words_of};
ghost use Rattle.script_lang.specs.Reading.{Asks, Says, is_silent};
ghost use Rattle.script_lines.specs.Lines.{Short};
ghost use Rattle.script_lines.specs.Reader.{line_lent};
ghost use Rattle.clients.specs.Fronts.{IsFront};
ghost use Rattle.table_model.specs.Requests.{Request};
ghost use Rattle.clients.specs.Names.{HasNoName, IsClient};
ghost use Rattle.clients.specs.Prepared.{IsFormedRoute, IsSpelledRoute, IsTurnOf, turn_in};
ghost use Rattle.clients.specs.Turns.{IsOf, IsTurn, is_plain};

use data_words::cut;
use script_lang::parse;
use script_lines::LineRef;
use table_model::{Command, Refusal};

/// How many clients there may be.
pub const CLIENTS_MOST: u8 = 16;

// A client's number is one digit, or 1 and a digit up to the last one's.
const LAST_DIGIT: u8 = b'0' + CLIENTS_MOST % 10;

const _: () = prove!(10 <= CLIENTS_MOST && CLIENTS_MOST < 20);

/// What a line of a schedule asks for. A line whose client can't be read is the client 0's.
#[derive(Clone, Copy)]
pub enum Routed<'a> {
    /// Nothing: it is blank or a comment, or a client's number alone.
    Nothing,
    /// It is refused before any step.
    Answer { client: u8, refusal: Refusal },
    /// A step of the session.
    Step { client: u8, command: Command<'a> },
}

// Whose a line is.
#[derive(Clone, Copy)]
pub enum Front<'a> {
    // It says nothing.
    Quiet,
    // Its client can't be read.
    Unread,
    // It is this client's, who says the rest.
    Of { client: u8, rest: &'a [u8] },
}

// The client whose number the word is.
fn client_of(word: &[u8]) -> Option<u8>
    ensures { MatchOption result ((k : ℕ) → IsClient k → word.now ≡ decimal k → ⊥)
        (λ k. IsClient k × (word.now ≡ decimal k)) }
{
    match word {
        [digit] if b'1' <= *digit && *digit <= b'9' => Some(*digit - b'0'),
        [tens, digit] if *tens == b'1' && b'0' <= *digit && *digit <= LAST_DIGIT => {
            Some(10 + (*digit - b'0'))
        }
        _ => None,
    }
}

// Whose the line is: its client's number stands at its front, with one space behind it.
pub(crate) fn front_of(line: &[u8]) -> Front<'_>
    ensures { IsFront line.now result }
{
    match cut(line, b' ') {
        Some((word, rest)) => match client_of(word) {
            Some(client) => Front::Of { client, rest },
            None => front_of_none(line),
        },
        None => match client_of(line) {
            Some(_client) => Front::Quiet,
            None => front_of_none(line),
        },
    }
}

// The front of a line that begins with no client's number: it says nothing, or its client can't be read.
fn front_of_none<'a>(line: &'a [u8]) -> Front<'a>
    requires apart { (k : ℕ) (rest : List ℕ) → IsOf k line.now rest → ⊥ }
    requires alone { (k : ℕ) → IsClient k → line.now ≡ decimal k → ⊥ }
    ensures { IsFront line.entry.now result }
{
    match parse(line) {
        Ok(None) => Front::Quiet,
        Ok(Some(_)) => Front::Unread,
        Err(_) => Front::Unread,
    }
}

// Whether a word begins a command that has no name but of its version.
fn is_of_one_version(word: &[u8]) -> bool
    ensures { result ≡ (bytes_eq word.now (codes "read") || bytes_eq word.now (codes "size")
        || bytes_eq word.now (codes "insert") || bytes_eq word.now (codes "append")
        || bytes_eq word.now (codes "replace") || bytes_eq word.now (codes "delete")) }
{
    word == b"read".as_slice()
        || word == b"size".as_slice()
        || word == b"insert".as_slice()
        || word == b"append".as_slice()
        || word == b"replace".as_slice()
        || word == b"delete".as_slice()
}

// Whether a byte is no blank and begins no comment: all of those are at most `#`.
fn is_plain(b: u8) -> bool
    ensures { result ≡ is_plain b }
{
    b'#' < b
}

fn are_plain(bytes: &[u8]) -> bool
    ensures { result ≡ list_all is_plain bytes.now }
{
    bytes.iter().all(|b| is_plain(*b))
}

// Whether it is one word that begins no comment.
fn is_one_word(said: &[u8]) -> bool
    ensures { result ≡ (nat_lt 0 (length said.now) && list_all is_plain said.now) }
{
    !said.is_empty() && are_plain(said)
}

/// Whether what a client says may have a name that its session keeps, by a look at its first word and one byte behind it. What has none says something.
pub(crate) fn may_name(said: &[u8]) -> bool
    ensures none { result ≡ false → (r : Request) → Says (words_of said.now) (Asks r)
        → HasNoName r }
    ensures loud { result ≡ false → IsTrue (is_silent (words_of said.now)) → ⊥ }
{
    match cut(said, b' ') {
        Some((word, [first, ..])) if b'0' <= *first && *first <= b'9' => !is_of_one_version(word),
        Some(_) => true,
        None => !is_one_word(said),
    }
}

// What a line says, and whose it is, without a look at names or at whose transaction is open.
fn turn_of(line: &[u8]) -> Routed<'_>
    ensures turn { IsTurn (Short line.now) (turn_in result) }
    ensures formed { IsFormedRoute result }
    ensures spelled { IsSpelledRoute result }
{
    match front_of(line) {
        Front::Quiet => Routed::Nothing,
        Front::Unread => Routed::Answer {
            client: 0,
            refusal: Refusal::Syntax,
        },
        Front::Of { client, rest } => match parse(rest) {
            Ok(None) => Routed::Nothing,
            Ok(Some(command)) => Routed::Step { client, command },
            Err(refusal) => Routed::Answer { client, refusal },
        },
    }
}

/// What the line that was taken last says, and whose it is. One that is over its limit is the client 0's.
pub(crate) fn turn_lent(line: LineRef<'_>) -> Routed<'_>
    ensures turn { IsTurnOf (line_lent line.entry) (turn_in result) }
    ensures formed { IsFormedRoute result }
    ensures spelled { IsSpelledRoute result }
{
    match line {
        LineRef::End => Routed::Nothing,
        LineRef::Long => Routed::Answer {
            client: 0,
            refusal: Refusal::LineLong,
        },
        LineRef::Line(line) => turn_of(line),
    }
}
