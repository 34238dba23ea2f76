//! The command of a verb and its values.

ghost use Rattle.std.specs.Prelude.{◌≡◌};
ghost use Rattle.table_model.specs.Requests.{request_of};
ghost use Rattle.script_lang.specs.Rows.{asked};
ghost use Rattle.script_lang.specs.ReadValues.{values_of};

use crate::rows::Verb;
use crate::values::Values;
use table_model::{Command, Given};

/// The command that a verb's values make; `len`: how many bytes it asks for.
pub(crate) fn command<'a>(verb: Verb, values: Values<'a>, len: u32) -> Command<'a>
    ensures { request_of result ≡ asked verb (values_of values.entry) len }
{
    let (x, pos, count) = (values.x, values.pos, values.count);
    let (name, bind, group) = (values.name, values.bind, values.group);
    let (given, frames, mru) = (Given::Word(values.given), values.frames, values.mru);
    match verb {
        Verb::Begin => Command::Begin,
        Verb::Commit => Command::Commit,
        Verb::Abort => Command::Abort,
        Verb::Checkpoint => Command::Checkpoint,
        Verb::Log => Command::Log,
        Verb::Files => Command::Files,
        Verb::Space => Command::Space,
        Verb::File => Command::File { name },
        Verb::Unfile => Command::Unfile { name },
        Verb::List => Command::List { name },
        Verb::Close => Command::Close { name },
        Verb::Destroy => Command::Destroy { x },
        Verb::Size => Command::Size { x },
        Verb::Stat => Command::Stat { x },
        Verb::Digest => Command::Digest { x },
        Verb::Versions => Command::Versions { x },
        Verb::Drop => Command::DropVersion { x },
        Verb::Create => Command::Create { file: name, bind },
        Verb::Freeze => Command::Freeze { x, bind },
        Verb::Derive => Command::Derive { x, bind },
        Verb::Read => Command::Read { x, pos, len },
        Verb::Insert => Command::Insert { x, pos, given },
        Verb::Append => Command::Append { x, given },
        Verb::Replace => Command::Replace { x, pos, given },
        Verb::Delete => Command::Delete { x, pos, len: count },
        Verb::Group => Command::Group { name, frames, mru },
        Verb::Scan => Command::Scan { x, name, group },
        Verb::Next => Command::Next { name, len },
    }
}
