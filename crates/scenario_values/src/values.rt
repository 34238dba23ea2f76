//! What names stand for: bytes of disks and texts, numbers of calls, and what is asked of an image.
use crate::asked::{Asked, asked_of, lines_of};
use scenario_words::{Command, Place, Wrong};
use std::alloc::{AllocError, AllocFailed, Global};

/// Why a line can't be done.
#[derive(Clone, Copy)]
pub enum Trouble<'a> {
    /// A word doesn't fit.
    Wrong(Wrong<'a>),
    /// No memory is there.
    Memory,
}

impl<'a> From<Wrong<'a>> for Trouble<'a> {
    fn from(wrong: Wrong<'a>) -> Trouble<'a> {
        Trouble::Wrong(wrong)
    }
}

impl From<AllocError> for Trouble<'_> {
    fn from(_: AllocError) -> Self {
        Trouble::Memory
    }
}

impl<T: Drop> From<AllocFailed<T>> for Trouble<'_> {
    fn from(_: AllocFailed<T>) -> Self {
        Trouble::Memory
    }
}

/// Bytes with a name, in pages of a size.
#[derive(Drop)]
pub struct Value {
    name: String,
    pub bytes: Vec<u8>,
    pub page: usize,
}

/// A number with a name.
#[derive(Drop)]
struct Mark {
    name: String,
    number: u64,
}

/// Command lines with a name.
#[derive(Drop)]
struct Look {
    name: String,
    asked: Vec<Asked>,
}

/// All that has a name.
#[derive(Drop)]
pub struct Values {
    alloc: Global,
    values: Vec<Value>,
    marks: Vec<Mark>,
    looks: Vec<Look>,
}

// The bytes that hexadecimal digits write.
fn decoded(alloc: Global, digits: &str) -> Result<Vec<u8>, Trouble<'_>> {
    match hex::decode(alloc, digits) {
        Ok(bytes) => Ok(bytes),
        Err(_) => Err(Trouble::Wrong(Wrong(digits))),
    }
}

// These bytes, so many times.
fn repeated(alloc: Global, bytes: &[u8], times: u64) -> Result<Vec<u8>, AllocError> {
    let mut all = Vec::new(alloc);
    for _ in 0..times {
        all.extend_from_slice(bytes)?;
    }
    Ok(all)
}

// Writes bytes over those from a place on, as far as there are some.
fn write_over(under: &mut [u8], at: usize, bytes: &[u8]) {
    for (place, byte) in under.iter_mut().skip(at).zip(bytes) {
        *place = *byte;
    }
}

impl Value {
    // The byte of a place.
    fn at(&self, place: Place) -> usize {
        place
            .page
            .saturating_mul(self.page)
            .saturating_add(place.byte)
    }

    /// The bytes from a place on, at most so many.
    pub fn part(&self, place: Place, count: usize) -> &[u8] {
        let at = self.at(place).min(self.bytes.len());
        let rest = &self.bytes[at..];
        &rest[..count.min(rest.len())]
    }
}

impl Values {
    /// None at first.
    pub fn new(alloc: Global) -> Values {
        Values {
            alloc,
            values: Vec::new(alloc),
            marks: Vec::new(alloc),
            looks: Vec::new(alloc),
        }
    }

    // Where the value of that name stands, or behind the last one.
    fn index_of(&self, name: &str) -> usize {
        for (index, value) in self.values.iter().enumerate() {
            if value.name.as_str() == name {
                return index;
            }
        }
        self.values.len()
    }

    /// The value of that name.
    pub fn value<'a>(&self, name: &'a str) -> Result<&Value, Wrong<'a>> {
        self.values.get(self.index_of(name)).ok_or(Wrong(name))
    }

    /// Gives bytes a name.
    pub fn keep(&mut self, name: &str, bytes: Vec<u8>, page: usize) -> Result<(), AllocError> {
        let index = self.index_of(name);
        let value = Value {
            name: String::from_str(self.alloc, name)?,
            bytes,
            page,
        };
        match self.values.get_mut(index) {
            Some(old) => *old = value,
            None => self.values.push(value)?,
        }
        Ok(())
    }

    /// Gives a copy of bytes a name.
    pub fn copy<'a>(&mut self, name: &str, of: &'a str) -> Result<(), Trouble<'a>> {
        let value = self.value(of)?;
        let bytes = value.bytes.to_vec(self.alloc)?;
        let page = value.page;
        Ok(self.keep(name, bytes, page)?)
    }

    /// Writes bytes over those from a place on.
    pub fn set<'a>(
        &mut self,
        name: &'a str,
        place: Place,
        digits: &'a str,
    ) -> Result<(), Trouble<'a>> {
        let bytes = decoded(self.alloc, digits)?;
        let index = self.index_of(name);
        match self.values.get_mut(index) {
            Some(value) => {
                let at = value.at(place);
                write_over(&mut value.bytes, at, &bytes);
                Ok(())
            }
            None => Err(Trouble::Wrong(Wrong(name))),
        }
    }

    /// Keeps the first bytes of a value, so many.
    pub fn cut<'a>(&mut self, name: &'a str, count: usize) -> Result<(), Wrong<'a>> {
        let index = self.index_of(name);
        match self.values.get_mut(index) {
            Some(value) => {
                value.bytes.truncate(count);
                Ok(())
            }
            None => Err(Wrong(name)),
        }
    }

    // Adds bytes to a text, which is a new one where there is none of the name.
    fn add(&mut self, name: &str, bytes: &[u8]) -> Result<(), AllocError> {
        let index = self.index_of(name);
        match self.values.get_mut(index) {
            Some(value) => value.bytes.extend_from_slice(bytes),
            None => {
                let copy = bytes.to_vec(self.alloc)?;
                self.keep(name, copy, 1)
            }
        }
    }

    /// Adds lines to a text so many times; `%` stands in them for the number of the round.
    pub fn add_lines(&mut self, name: &str, times: u64, lines: &str) -> Result<(), AllocError> {
        for round in 0..times {
            let text = lines_of(self.alloc, lines, round)?;
            self.add(name, &text)?;
        }
        Ok(())
    }

    /// Adds bytes to a text so many times.
    pub fn add_bytes<'a>(
        &mut self,
        name: &str,
        times: u64,
        digits: &'a str,
    ) -> Result<(), Trouble<'a>> {
        let bytes = decoded(self.alloc, digits)?;
        let all = repeated(self.alloc, &bytes, times)?;
        Ok(self.add(name, &all)?)
    }

    /// Gives a number a name.
    pub fn mark(&mut self, name: &str, number: u64) -> Result<(), AllocError> {
        let name = String::from_str(self.alloc, name)?;
        Ok(self.marks.push(Mark { name, number })?)
    }

    // The number that was named so last.
    fn marked<'a>(&self, name: &'a str) -> Result<u64, Wrong<'a>> {
        let mut found = None;
        for mark in &self.marks {
            if mark.name.as_str() == name {
                found = Some(mark.number);
            }
        }
        found.ok_or(Wrong(name))
    }

    // The number that digits write, or that has the name.
    fn plain<'a>(&self, word: &'a str) -> Result<u64, Wrong<'a>> {
        match word.parse::<u64>() {
            Ok(number) => Ok(number),
            Err(_) => self.marked(word),
        }
    }

    /// The number that a word says: digits, a name, or a name and a number that is added to it or taken from it.
    pub fn number<'a>(&self, word: &'a str) -> Result<u64, Wrong<'a>> {
        let (name, more, less) = match word.split_once('+') {
            Some((name, more)) => (name, more, "0"),
            None => match word.split_once('-') {
                Some((name, less)) => (name, "0", less),
                None => (word, "0", "0"),
            },
        };
        let number = self.plain(name)?.saturating_add(self.plain(more)?);
        Ok(number.saturating_sub(self.plain(less)?))
    }

    /// The number that an option says, where it is given.
    pub fn number_if<'a>(&self, word: Option<&'a str>) -> Result<Option<u64>, Wrong<'a>> {
        match word {
            Some(word) => Ok(Some(self.number(word)?)),
            None => Ok(None),
        }
    }

    // Gives no command line yet a name.
    fn begin_look(&mut self, name: &str) -> Result<(), AllocError> {
        let name = String::from_str(self.alloc, name)?;
        let asked = Vec::new(self.alloc);
        Ok(self.looks.push(Look { name, asked })?)
    }

    /// Adds a command line to those of a name.
    pub fn add_look(&mut self, name: &str, command: Command<'_>) -> Result<(), AllocError> {
        let index = self.look_index(name);
        if index >= self.looks.len() {
            self.begin_look(name)?;
        }
        let asked = asked_of(self.alloc, command)?;
        match self.looks.get_mut(index) {
            Some(look) => Ok(look.asked.push(asked)?),
            None => Ok(()),
        }
    }

    fn look_index(&self, name: &str) -> usize {
        for (index, look) in self.looks.iter().enumerate() {
            if look.name.as_str() == name {
                return index;
            }
        }
        self.looks.len()
    }

    /// The command lines of that name; none where none is given.
    pub fn looks<'a>(&self, name: Option<&'a str>) -> Result<&[Asked], Wrong<'a>> {
        match name {
            Some(name) => match self.looks.get(self.look_index(name)) {
                Some(look) => Ok(look.asked.as_slice()),
                None => Err(Wrong(name)),
            },
            None => Ok(&[]),
        }
    }
}
