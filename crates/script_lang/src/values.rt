//! What the words behind the first one say.

ghost use Rattle.std.specs.Prelude.{◌≡◌, MatchOption, Some, None};
ghost use Rattle.script_lang.specs.Forms.{frames_in, policy_in, key_in};
ghost use Rattle.script_lang.specs.LineWords.{words_of};
ghost use Rattle.script_lang.specs.Rows.{nothing, put, read, may_miss};
ghost use Rattle.script_lang.specs.ReadValues.{values_of};

use crate::forms::{bound_name, data_count, is_word, name, number, subject};
use crate::rows::WordPlace;
use crate::words::Words;
use table_model::{FRAMES_MOST, Subject};

/// What the words say; of what no word says, nothing.
#[derive(Clone, Copy)]
pub struct Values<'a> {
    pub(crate) x: Subject<'a>,
    pub(crate) name: &'a [u8],
    pub(crate) bind: Option<&'a [u8]>,
    pub(crate) group: Option<&'a [u8]>,
    pub(crate) pos: u64,
    pub(crate) count: u64,
    /// How many bytes are asked for or given.
    pub(crate) bytes: u64,
    pub(crate) given: &'a [u8],
    pub(crate) frames: u32,
    pub(crate) mru: bool,
}

fn frames(word: &[u8]) -> Option<u32>
    ensures { result ≡ frames_in word.now }
{
    let n = number(word)?;
    if 1 <= n && n <= u64::from(FRAMES_MOST) {
        Some(n as u32)
    } else {
        None
    }
}

/// Whether the policy is mru.
fn is_mru(word: &[u8]) -> Option<bool>
    ensures { result ≡ policy_in word.now }
{
    if is_word(word, "lru") {
        Some(false)
    } else if is_word(word, "mru") {
        Some(true)
    } else {
        None
    }
}

/// This word and no other.
fn key(word: &[u8], text: &str) -> Option<()>
    ensures { result ≡ key_in text.now word.now }
{
    if is_word(word, text) { Some(()) } else { None }
}

impl<'a> Values<'a> {
    pub(crate) fn nothing() -> Values<'a>
        ensures { values_of result ≡ nothing }
    {
        let x = Subject::Name(b"");
        Values {
            x,
            name: b"",
            bind: None,
            group: None,
            pos: 0,
            count: 0,
            bytes: 0,
            given: b"",
            frames: 0,
            mru: false,
        }
    }

    /// With what one word says.
    fn with(mut self, place: WordPlace, word: &'a [u8]) -> Option<Values<'a>>
        ensures { MatchOption result (put place word.entry.now (values_of self.entry) ≡ None)
            (λ v. put place word.entry.now (values_of self.entry) ≡ Some (values_of v)) }
    {
        match place {
            WordPlace::Object => {
                let x = subject(word)?;
                self.x = x;
            }
            WordPlace::Name => self.name = name(word)?,
            WordPlace::Bind => self.bind = Some(bound_name(word)?),
            WordPlace::Group => self.group = Some(name(word)?),
            WordPlace::Position => self.pos = number(word)?,
            WordPlace::Count => self.count = number(word)?,
            WordPlace::Length => self.bytes = number(word)?,
            WordPlace::Data => {
                self.bytes = data_count(word)?;
                self.given = word;
            }
            WordPlace::Frames => self.frames = frames(word)?,
            WordPlace::Policy => self.mru = is_mru(word)?,
            WordPlace::As => key(word, "as")?,
            WordPlace::In => key(word, "in")?,
        }
        Some(self)
    }
}

/// Whether a line may end before it.
fn may_miss(place: WordPlace) -> bool
    ensures { result ≡ may_miss place }
{
    matches!(place, WordPlace::In)
}

/// The values with what the words say at these places.
pub(crate) fn read<'a>(
    places: &[WordPlace],
    mut words: Words<'a>,
    mut values: Values<'a>,
) -> Option<Values<'a>>
    ensures { MatchOption result
        (read places.now (words_of words.entry.0.now) (values_of values.entry) ≡ None)
        (λ v. read places.now (words_of words.entry.0.now) (values_of values.entry)
        ≡ Some (values_of v)) }
{
    for place in places {
        let Some(word) = words.next() else {
            return if may_miss(*place) { Some(values) } else { None };
        };
        let next = values.with(*place, word)?;
        values = next;
    }
    match words.next() {
        None => Some(values),
        Some(_) => None,
    }
}
