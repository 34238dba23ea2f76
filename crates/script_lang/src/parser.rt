//! What a line says: by its first word the row, and by the others what is asked.

ghost use Rattle.std.specs.Prelude.{◌≡◌, ◌⊎◌, ◌∷◌, IfErr, IfOk, IfSome, IsTrue, MatchResult, nat_le, true, false};
ghost use Rattle.table_model.specs.Words.{data_most};
ghost use Rattle.table_model.specs.Requests.{binds_name, gives_word, is_request, is_spelled, request_of};
ghost use Rattle.script_lines.specs.Lines.{Short};
ghost use Rattle.script_lang.specs.LineWords.{words_of};
ghost use Rattle.script_lang.specs.Reading.{Reading, Asks, Fails, Reads, Says, is_comment};
ghost use Rattle.script_lang.specs.Parsed.{reading_of};

use crate::commands::command;
use crate::rows::row_of;
use crate::values::{Values, read};
use crate::words::Words;
use table_model::{Command, DATA_MOST, Refusal};

/// Whether the word begins with `#`.
fn begins_comment(word: &[u8]) -> bool
    ensures { result ≡ is_comment word.now }
{
    match word.first() {
        Some(b) => *b == b'#',
        None => false,
    }
}

/// The count, where one line may give or ask for so many bytes.
fn limited(count: u64) -> Result<u32, Refusal>
    ensures { MatchResult result (λ n. (n ≡ count)
        × (nat_le count data_most ≡ true)) (λ e. (e ≡ Refusal.DataLimit)
        × (nat_le count data_most ≡ false)) }
{
    if count <= u64::from(DATA_MOST) {
        Ok(count as u32)
    } else {
        Err(Refusal::DataLimit)
    }
}

/// What the words of a command say, by the first and those behind it.
fn said<'a>(first: &[u8], words: Words<'a>) -> Result<Command<'a>, Refusal>
    requires { is_comment first.now ≡ false }
    ensures { MatchResult result
        (λ command. Says (first.now ∷ words_of words.entry.0.now) (Asks (request_of command)))
        (λ why. Says (first.now ∷ words_of words.entry.0.now) (Fails why)) }
{
    let Some((verb, _, places)) = row_of(first) else {
        return Err(Refusal::Syntax);
    };
    let nothing = Values::nothing();
    let Some(values) = read(places, words, nothing) else {
        return Err(Refusal::Syntax);
    };
    let len = limited(values.bytes)?;
    Ok(command(verb, values, len))
}

/// What the line says: nothing where it is blank or a comment, a command, or why it is none. The words of the command are parts of the line. It takes
/// no memory.
///
/// Each line has exactly one reading, and this is it. The names in its command are of 1 to 32 bytes of `a-z`, `0-9` and `_`; a command that makes a
/// version binds a name, and one that gives bytes gives a data word.
pub fn parse(line: &[u8]) -> Result<Option<Command<'_>>, Refusal>
    ensures says { Reads (Short line.now) (reading_of result) }
    ensures one { (reading : Reading) → Reads (Short line.now) reading
        → reading ≡ reading_of result }
    ensures form { IfOk result
        (λ told. IfSome told (λ command. IsTrue (is_request (request_of command)))) }
    ensures names { IfOk result
        (λ told. IfSome told (λ command. IsTrue (is_spelled (request_of command)))) }
    ensures binds { IfOk result
        (λ told. IfSome told (λ command. IsTrue (binds_name (request_of command)))) }
    ensures words { IfOk result
        (λ told. IfSome told (λ command. IsTrue (gives_word (request_of command)))) }
    ensures refusals { IfErr result (λ e. (e ≡ Refusal.Syntax) ⊎ (e ≡ Refusal.DataLimit)) }
{
    let mut words = Words::of(line);
    let Some(first) = words.next() else {
        return Ok(None);
    };
    if begins_comment(first) {
        return Ok(None);
    }
    match said(first, words) {
        Ok(command) => Ok(Some(command)),
        Err(why) => Err(why),
    }
}
