//! Commands as lines give them: each keeps the forms and limits of its words.

ghost use Rattle.std.specs.Prelude.{◌≡◌, IfOk, IfSome, IsTrue};
ghost use Rattle.table_model.specs.Requests.{request_of, is_request};
ghost use Rattle.script_lines.specs.Lines.{Short};
ghost use Rattle.script_lang.specs.Reading.{Reads};
ghost use Rattle.script_lang.specs.Parsed.{reading_of};

use script_lang::parse;
use table_model::{Command, Refusal};

/// What a line says. A command's words keep their forms and limits.
pub(crate) fn read(line: &[u8]) -> Result<Option<Command<'_>>, Refusal>
    ensures says { Reads (Short line.now) (reading_of result) }
    ensures form { IfOk result
        (λ said. IfSome said (λ command. IsTrue (is_request (request_of command)))) }
{
    parse(line)
}
