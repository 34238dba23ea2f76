//! The first word of a command line that doesn't fit the grammar of its command.
use crate::shown::Shown;
use command_words::{COUNT_MOST, CommandWord, FAN_LEAST, PAGE_SIZE};
use ex_base::{Geometry, PAGE_SIZE_MOST, fan_max};
use std::fmt;

/// The most options that a command has.
const OPTIONS_MOST: usize = 5;

/// The bytes of the smallest page.
const PAGE_SIZE_LEAST: u32 = 512;

/// What doesn't fit: a word, or that one is missing.
#[derive(Clone, Copy, Debug)]
pub enum Misfit<'a> {
    /// A word that is neither an option of the command nor may name a volume.
    Word {
        word: &'a str,
        command: CommandWord,
    },
    /// A word that names a volume, where one is named.
    SecondVolume {
        word: &'a str,
        volume: &'a str,
    },
    /// An option that stands there.
    SecondOption {
        option: &'a str,
    },
    /// A word that is no value of the option that it belongs to, or none where no word is left.
    Value {
        option: &'a str,
        word: Option<&'a str>,
    },
    /// A fan that a node of the page size has no room for.
    Fan {
        word: &'a str,
        page_size: u32,
        most: u32,
    },
    /// No word names the volume.
    NoVolume {
        command: CommandWord,
    },
    /// An option that the command can't do without isn't there.
    NoOption {
        option: &'a str,
        command: CommandWord,
    },
}

impl fmt::Display for Misfit<'_> {
    fn fmt<W: fmt::Write>(&self, f: &mut fmt::Formatter<W>) -> fmt::Result {
        match *self {
            Misfit::Word { word, command } => {
                let (word, command) = (Shown(word), command.as_str());
                write!(f, "'{word}' is neither an option of {command} nor a VOLUME")
            }
            Misfit::SecondVolume { word, volume } => {
                let (word, volume) = (Shown(word), Shown(volume));
                write!(f, "'{word}' is a second VOLUME, after '{volume}'")
            }
            Misfit::SecondOption { option } => write!(f, "--{option} stands there twice"),
            Misfit::Value { option, word } => {
                let values = values_of(option);
                match word {
                    Some(word) => {
                        let word = Shown(word);
                        write!(f, "--{option} takes {values}, not '{word}'")
                    }
                    None => write!(f, "--{option} takes {values}, and no word is left"),
                }
            }
            Misfit::Fan {
                word,
                page_size,
                most,
            } => {
                let word = Shown(word);
                write!(
                    f,
                    "--fan takes 2..{most} with pages of {page_size} bytes, not '{word}'"
                )
            }
            Misfit::NoVolume { command } => {
                let command = command.as_str();
                write!(f, "{command} takes a VOLUME, and no word names one")
            }
            Misfit::NoOption { option, command } => {
                let (command, values) = (command.as_str(), values_of(option));
                write!(f, "{command} takes --{option} {values}, and it isn't there")
            }
        }
    }
}

// The values that an option takes, as the text for usage tells them.
fn values_of(option: &str) -> &'static str {
    match option {
        "page-size" => "512|1024|2048|4096|8192",
        "pages" => "1..4000000",
        "segs" => "0..4000000",
        "seg-len" => "1..16",
        "fan" => "2..(page size - 20) / 24",
        "count" => "1..1000000",
        _ => "N",
    }
}

// Whether an option takes the value, on some page size.
fn takes(option: &str, value: &str) -> bool {
    if matches!(option, "max-bytes" | "seed") {
        return number_of(value).is_some();
    }
    let Some(size) = size_of(value) else {
        return false;
    };
    let geometry = match option {
        "page-size" => Geometry::make(size, 1, 0, 1, FAN_LEAST),
        "pages" => Geometry::make(PAGE_SIZE_LEAST, size, 0, 1, FAN_LEAST),
        "segs" => Geometry::make(PAGE_SIZE_LEAST, 1, size, 1, FAN_LEAST),
        "seg-len" => Geometry::make(PAGE_SIZE_LEAST, 1, 0, size, FAN_LEAST),
        "fan" => Geometry::make(PAGE_SIZE_MOST as u32, 1, 0, 1, size),
        _ => return 1 <= size && u64::from(size) <= COUNT_MOST,
    };
    geometry.is_ok()
}

// The number that a word writes in 1 to 20 digits.
fn number_of(value: &str) -> Option<u64> {
    match value.as_bytes() {
        [b'0'..=b'9', more @ ..] if more.len() < 20 => value.parse().ok(),
        _ => None,
    }
}

fn size_of(value: &str) -> Option<u32> {
    let number = number_of(value)?;
    u32::try_from(number).ok()
}

// What was read of the words behind a command's word.
#[derive(Drop)]
struct Read<'a> {
    command: CommandWord,
    volume: Option<&'a str>,
    // The option whose value is the next word.
    open: Option<(usize, &'a str)>,
    // The values of the command's options, in their order.
    values: [Option<&'a str>; OPTIONS_MOST],
}

/// The first of the words behind a command's word that doesn't fit its grammar, if one is found.
pub fn misfit_of<'a>(command: CommandWord, words: &'a [String]) -> Option<Misfit<'a>> {
    let mut read = Read {
        command,
        volume: None,
        open: None,
        values: [None; OPTIONS_MOST],
    };
    for word in words {
        if let Err(misfit) = read.take(word.as_str()) {
            return Some(misfit);
        }
    }
    read.missing()
}

impl<'a> Read<'a> {
    // Reads one word more.
    fn take(&mut self, word: &'a str) -> Result<(), Misfit<'a>> {
        if let Some((place, option)) = self.open {
            self.open = None;
            return self.value(place, option, word);
        }
        let Some(name) = word.strip_prefix("--") else {
            return self.name(word);
        };
        let (option, value) = match name.split_once('=') {
            Some((option, value)) => (option, Some(value)),
            None => (name, None),
        };
        let command = self.command;
        let Some(place) = command.options().iter().position(|name| *name == option) else {
            return Err(Misfit::Word { word, command });
        };
        if self.value_at(place).is_some() {
            return Err(Misfit::SecondOption { option });
        }
        match value {
            Some(value) => self.value(place, option, value),
            None => {
                self.open = Some((place, option));
                Ok(())
            }
        }
    }

    fn name(&mut self, word: &'a str) -> Result<(), Misfit<'a>> {
        let command = self.command;
        if word.is_empty() || word.starts_with('-') {
            return Err(Misfit::Word { word, command });
        }
        if let Some(volume) = self.volume {
            return Err(Misfit::SecondVolume { word, volume });
        }
        self.volume = Some(word);
        Ok(())
    }

    fn value(&mut self, place: usize, option: &'a str, word: &'a str) -> Result<(), Misfit<'a>> {
        if !takes(option, word) {
            let word = Some(word);
            return Err(Misfit::Value { option, word });
        }
        if let Some(value) = self.values.get_mut(place) {
            *value = Some(word);
        }
        Ok(())
    }

    fn value_at(&self, place: usize) -> Option<&'a str> {
        match self.values.get(place) {
            Some(value) => *value,
            None => None,
        }
    }

    // What the words, each of which fits, leave out, or a fan that is too large for the page size.
    fn missing(&self) -> Option<Misfit<'a>> {
        let command = self.command;
        if let Some((_, option)) = self.open {
            let word = None;
            return Some(Misfit::Value { option, word });
        }
        if self.volume.is_none() {
            return Some(Misfit::NoVolume { command });
        }
        match (command, self.values) {
            (CommandWord::Gen, [None, ..]) => Some(Misfit::NoOption {
                option: "seed",
                command,
            }),
            (CommandWord::Gen, [_, None, ..]) => Some(Misfit::NoOption {
                option: "count",
                command,
            }),
            (CommandWord::Format, [page_size, .., Some(fan)]) => fan_misfit(page_size, fan),
            _ => None,
        }
    }
}

// The fan, where a node of the page size, or of the one by default, has no room for it.
fn fan_misfit<'a>(page_size: Option<&str>, word: &'a str) -> Option<Misfit<'a>> {
    let page_size = match page_size {
        Some(word) => size_of(word)?,
        None => PAGE_SIZE,
    };
    let fan = size_of(word)?;
    let Ok(geometry) = Geometry::make(page_size, 1, 0, 1, FAN_LEAST) else {
        return None;
    };
    let most = fan_max(geometry.page_size);
    if fan <= most {
        return None;
    }
    Some(Misfit::Fan {
        word,
        page_size,
        most,
    })
}
