//! What is asked of the program: the words of a command line, and the bytes of its source.
use scenario_words::Command;
use std::alloc::{AllocError, Global};
use std::fmt::Write;

/// The words of a command line, and the bytes of its source.
#[derive(Drop)]
pub struct Asked {
    pub words: Vec<String>,
    pub source: Vec<u8>,
}

/// What is written for an empty word or line.
const EMPTY: &str = "''";

/// What parts lines.
const BETWEEN: &str = " / ";

/// What stands behind a last line without a line feed.
const UNENDED: char = '~';

/// What stands for the number of a round.
const ROUND: char = '%';

/// The words of a line, `''` an empty one.
pub fn words_of(alloc: Global, line: &str) -> Result<Vec<String>, AllocError> {
    let mut words = Vec::new(alloc);
    for word in line.split_whitespace() {
        let text = if word == EMPTY { "" } else { word };
        words.push(String::from_str(alloc, text)?)?;
    }
    Ok(words)
}

// Adds letters, among which `%` is the number of a round.
fn add_letters(text: &mut String, letters: &str, round: u64) -> Result<(), AllocError> {
    for letter in letters.chars() {
        if letter == ROUND {
            write!(text, "{round}")?;
        } else {
            text.push(letter)?;
        }
    }
    Ok(())
}

// Adds a line, which ends with a line feed, but not where a `~` is behind it.
fn add_line(text: &mut String, line: &str, round: u64) -> Result<(), AllocError> {
    if let Some(unended) = line.strip_suffix(UNENDED) {
        return add_letters(text, unended, round);
    }
    if line != EMPTY {
        add_letters(text, line, round)?;
    }
    Ok(text.push('\n')?)
}

/// The bytes of lines with ` / ` between them: each ends with a line feed, but a last one with a `~`. `''` is an empty line, and `%` the number of a round.
pub(crate) fn lines_of(alloc: Global, lines: &str, round: u64) -> Result<Vec<u8>, AllocError> {
    let mut text = String::new(alloc);
    if !lines.is_empty() {
        for line in lines.split(BETWEEN) {
            add_line(&mut text, line, round)?;
        }
    }
    Ok(text.into_bytes())
}

/// A command line as it is run.
pub fn asked_of(alloc: Global, command: Command<'_>) -> Result<Asked, AllocError> {
    Ok(Asked {
        words: words_of(alloc, command.words)?,
        source: lines_of(alloc, command.lines, 0)?,
    })
}
