//! The lines of a script: for each command its first word, and what stands behind it.

ghost use Rattle.std.specs.Prelude.{◌≡◌, map, MatchOption, Some, None};
ghost use Rattle.script_lang.specs.Rows.{row_in, row_of};

use crate::forms::is_word;

/// What a command does.
#[derive(Clone, Copy)]
pub enum Verb {
    Begin,
    Commit,
    Abort,
    Checkpoint,
    Log,
    Files,
    Space,
    File,
    Unfile,
    List,
    Close,
    Destroy,
    Size,
    Stat,
    Digest,
    Versions,
    Drop,
    Create,
    Freeze,
    Derive,
    Read,
    Insert,
    Append,
    Replace,
    Delete,
    Group,
    Scan,
    Next,
}

/// What one word of a line says.
#[derive(Clone, Copy)]
pub enum WordPlace {
    /// The version of an object.
    Object,
    /// The name of a file, a scan or a group.
    Name,
    /// `@` and the name that is bound.
    Bind,
    /// The name of the group that a scan is in.
    Group,
    /// Where bytes stand.
    Position,
    /// How many bytes, of any number.
    Count,
    /// How many bytes are asked for.
    Length,
    /// The bytes that are given.
    Data,
    /// How many frames.
    Frames,
    /// `lru` or `mru`.
    Policy,
    /// The word `as`.
    As,
    /// The word `in`. A line may end before it.
    In,
}

/// A command, its first word, and what the words behind it say.
pub type LineRow = (Verb, &'static str, &'static [WordPlace]);

/// All of them. No two begin with the same word.
pub const ROWS: [LineRow; 28] = [
    (Verb::Begin, "begin", &[]),
    (Verb::Commit, "commit", &[]),
    (Verb::Abort, "abort", &[]),
    (Verb::Checkpoint, "checkpoint", &[]),
    (Verb::Log, "log", &[]),
    (Verb::Files, "files", &[]),
    (Verb::Space, "space", &[]),
    (Verb::File, "file", &[WordPlace::Name]),
    (Verb::Unfile, "unfile", &[WordPlace::Name]),
    (Verb::List, "list", &[WordPlace::Name]),
    (Verb::Close, "close", &[WordPlace::Name]),
    (Verb::Destroy, "destroy", &[WordPlace::Object]),
    (Verb::Size, "size", &[WordPlace::Object]),
    (Verb::Stat, "stat", &[WordPlace::Object]),
    (Verb::Digest, "digest", &[WordPlace::Object]),
    (Verb::Versions, "versions", &[WordPlace::Object]),
    (Verb::Drop, "drop", &[WordPlace::Object]),
    (
        Verb::Create,
        "create",
        &[WordPlace::Name, WordPlace::As, WordPlace::Bind],
    ),
    (
        Verb::Freeze,
        "freeze",
        &[WordPlace::Object, WordPlace::As, WordPlace::Bind],
    ),
    (
        Verb::Derive,
        "derive",
        &[WordPlace::Object, WordPlace::As, WordPlace::Bind],
    ),
    (
        Verb::Read,
        "read",
        &[WordPlace::Object, WordPlace::Position, WordPlace::Length],
    ),
    (
        Verb::Insert,
        "insert",
        &[WordPlace::Object, WordPlace::Position, WordPlace::Data],
    ),
    (
        Verb::Append,
        "append",
        &[WordPlace::Object, WordPlace::Data],
    ),
    (
        Verb::Replace,
        "replace",
        &[WordPlace::Object, WordPlace::Position, WordPlace::Data],
    ),
    (
        Verb::Delete,
        "delete",
        &[WordPlace::Object, WordPlace::Position, WordPlace::Count],
    ),
    (
        Verb::Group,
        "group",
        &[WordPlace::Name, WordPlace::Frames, WordPlace::Policy],
    ),
    (
        Verb::Scan,
        "scan",
        &[
            WordPlace::Object,
            WordPlace::As,
            WordPlace::Name,
            WordPlace::In,
            WordPlace::Group,
        ],
    ),
    (Verb::Next, "next", &[WordPlace::Name, WordPlace::Length]),
];

/// The first of these rows that the word begins.
fn row_in(rows: &[LineRow], word: &[u8]) -> Option<LineRow>
    ensures { MatchOption result
        (row_in (map (λ row. (row.0, row.1.now, row.2.now)) rows.now) word.now ≡ None)
        (λ found. row_in (map (λ row. (row.0, row.1.now, row.2.now)) rows.now) word.now
        ≡ Some (found.0, found.1.now, found.2.now)) }
{
    for row in rows {
        if is_word(word, row.1) {
            return Some(*row);
        }
    }
    None
}

/// The row that the word begins.
pub(crate) fn row_of(word: &[u8]) -> Option<LineRow>
    ensures { MatchOption result (row_of word.now ≡ None)
        (λ row. row_of word.now ≡ Some (row.0, row.1.now, row.2.now)) }
{
    row_in(&ROWS, word)
}
