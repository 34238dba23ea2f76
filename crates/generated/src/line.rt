//! Lines of the script, written into one buffer.
ghost use Rattle.std.specs.Prelude.{◌≡◌, ◌++◌, ◌∷◌, OnOk, decimal};
ghost use Rattle.generated.specs.Commands.{command_line, object_word, repeated_word};

use crate::edit::Edit;
use crate::turn::Turn;
use hex::encode_to_slice;
use itoa::Buffer;
use std::alloc::AllocError;

/// Writes a line that is there already.
pub(crate) fn put_line(line: &mut Vec<u8>, text: &[u8]) -> Result<(), AllocError>
    ensures { OnOk result (line.new.items ≡ text.now) }
{
    line.clear();
    line.extend_from_slice(text)
}

/// Appends the number in decimal.
fn push_decimal(line: &mut Vec<u8>, number: u64) -> Result<(), AllocError>
    ensures { OnOk result (line.new.items ≡ line.old.items ++ decimal number) }
{
    let mut buffer = Buffer::new();
    line.extend_from_slice(buffer.format(number).as_bytes())
}

/// Begins a line with a verb and the object's name.
fn put_verb(line: &mut Vec<u8>, verb: &[u8], object: usize) -> Result<(), AllocError>
    ensures { OnOk result (line.new.items ≡ verb.now ++ 32 ∷ object_word object) }
{
    line.clear();
    line.extend_from_slice(verb)?;
    line.extend_from_slice(b" @g")?;
    push_decimal(line, object as u64)?;
    Ok(())
}

/// Appends a space and the number.
fn push_number(line: &mut Vec<u8>, number: u64) -> Result<(), AllocError>
    ensures { OnOk result (line.new.items ≡ line.old.items ++ 32 ∷ decimal number) }
{
    line.extend_from_slice(b" ")?;
    push_decimal(line, number)?;
    Ok(())
}

/// Appends a space and one byte so many times, as data is written.
fn push_repeated(line: &mut Vec<u8>, count: u64, byte: u8) -> Result<(), AllocError>
    ensures { OnOk result (line.new.items ≡ line.old.items ++ 32 ∷ repeated_word count byte) }
{
    let mut digits = [0u8; 2];
    let _ = encode_to_slice([byte], &mut digits);
    line.extend_from_slice(b" rep:")?;
    push_decimal(line, count)?;
    line.extend_from_slice(b":")?;
    line.extend_from_slice(&digits)?;
    Ok(())
}

/// Writes the line of a command.
pub(crate) fn put_command(line: &mut Vec<u8>, index: u32, turn: &Turn) -> Result<(), AllocError>
    ensures { OnOk result (line.new.items ≡ command_line index turn.now.object turn.now.byte turn.now.edit) }
{
    match turn.edit {
        Edit::Append { count } => {
            put_verb(line, b"append", turn.object)?;
            push_repeated(line, count, turn.byte)?;
            Ok(())
        }
        Edit::Insert { at, count } => {
            put_verb(line, b"insert", turn.object)?;
            push_number(line, at)?;
            push_repeated(line, count, turn.byte)?;
            Ok(())
        }
        Edit::Replace { at, count } => {
            put_verb(line, b"replace", turn.object)?;
            push_number(line, at)?;
            push_repeated(line, count, turn.byte)?;
            Ok(())
        }
        Edit::Delete { at, count } => {
            put_verb(line, b"delete", turn.object)?;
            push_number(line, at)?;
            push_number(line, count)?;
            Ok(())
        }
        Edit::Freeze => {
            put_verb(line, b"freeze", turn.object)?;
            line.extend_from_slice(b" as @v")?;
            push_decimal(line, index as u64)?;
            Ok(())
        }
        Edit::Read { at, count } => {
            put_verb(line, b"read", turn.object)?;
            push_number(line, at)?;
            push_number(line, count)?;
            Ok(())
        }
    }
}
