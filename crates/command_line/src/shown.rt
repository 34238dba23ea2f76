//! A word of the command line in a text.

use std::fmt;

/// A word, with escapes in place of its control characters, as `\n` and `\u{1b}`: so it ends no line, and moves nothing on a terminal.
#[derive(Clone, Copy)]
pub struct Shown<'a>(pub &'a str);

impl fmt::Display for Shown<'_> {
    fn fmt<W: fmt::Write>(&self, f: &mut fmt::Formatter<W>) -> fmt::Result {
        for letter in self.0.chars() {
            if letter.is_control() {
                let escape = letter.escape_debug();
                write!(f, "{escape}")?;
            } else {
                f.write_char(letter)?;
            }
        }
        Ok(())
    }
}
