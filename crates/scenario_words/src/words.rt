//! The words of a line of scenarios.

/// A word that doesn't fit where it stands; empty where one is missing.
#[derive(Clone, Copy)]
pub struct Wrong<'a>(pub &'a str);

/// A place in bytes that are parted into pages.
#[derive(Clone, Copy)]
pub struct Place {
    pub page: usize,
    pub byte: usize,
}

/// A command line, and the lines of its source, as they are written.
#[derive(Clone, Copy)]
pub struct Command<'a> {
    pub words: &'a str,
    pub lines: &'a str,
}

/// What becomes of the calls of a run, each in turn.
#[derive(Clone, Copy, PartialEq, Eq)]
pub enum Mode {
    /// It fails.
    Fails,
    /// It is a read that gives zero bytes.
    Lies,
    /// It is the last one.
    Stops,
}

/// The words of a line's head, one by one.
#[derive(Clone, Copy)]
pub struct Head<'a> {
    /// Those that weren't read yet.
    pub left: &'a str,
}

impl<'a> Head<'a> {
    /// The next word, which is empty where there is none.
    pub fn word(&mut self) -> &'a str {
        let (word, left) = match self.left.split_once(' ') {
            Some(parts) => parts,
            None => (self.left, ""),
        };
        self.left = left;
        word
    }

    /// The next word as a number.
    pub fn number(&mut self) -> Result<usize, Wrong<'a>> {
        number_of(self.word())
    }

    /// The next word as a place, as `258+16`: a page, and a byte of it; or a byte alone.
    pub fn place(&mut self) -> Result<Place, Wrong<'a>> {
        place_of(self.word())
    }

    /// Passes over this word.
    pub fn pass(&mut self, wanted: &str) -> Result<(), Wrong<'a>> {
        let word = self.word();
        if word == wanted {
            Ok(())
        } else {
            Err(Wrong(word))
        }
    }

    /// Another number, or this one where there is none.
    pub fn number_or(&mut self, other: usize) -> Result<usize, Wrong<'a>> {
        if self.left.is_empty() {
            Ok(other)
        } else {
            self.number()
        }
    }
}

fn number_of(word: &str) -> Result<usize, Wrong<'_>> {
    match word.parse::<usize>() {
        Ok(number) => Ok(number),
        Err(_) => Err(Wrong(word)),
    }
}

fn place_of(word: &str) -> Result<Place, Wrong<'_>> {
    let (page, byte) = match word.split_once('+') {
        Some((page, byte)) => (number_of(page)?, byte),
        None => (0, word),
    };
    let byte = number_of(byte)?;
    Ok(Place { page, byte })
}

/// What stands before and behind the first colon.
pub fn halves(line: &str) -> (&str, &str) {
    match line.split_once(": ") {
        Some(parts) => parts,
        None => match line.strip_suffix(':') {
            Some(head) => (head, ""),
            None => (line, ""),
        },
    }
}

/// The command line that stands behind a colon.
pub fn command_of(text: &str) -> Command<'_> {
    let (words, lines) = match text.split_once(" < ") {
        Some(parts) => parts,
        None => (text, ""),
    };
    Command { words, lines }
}

/// What a loop makes of the calls.
pub fn mode_of(word: &str) -> Result<Mode, Wrong<'_>> {
    match word {
        "fails" => Ok(Mode::Fails),
        "lies" => Ok(Mode::Lies),
        "stops" => Ok(Mode::Stops),
        _ => Err(Wrong(word)),
    }
}
