//! How a run, or each run of a loop, is made, and what of it is told and kept.
use crate::words::Wrong;

/// Options: keys with a word behind each, and flags, which stand alone.
#[derive(Clone, Copy)]
pub struct Options<'a> {
    words: &'a str,
}

/// What stands alone.
const FLAGS: [&str; 2] = ["brief", "reopened"];

/// Keys of a run and of a loop, of a run alone, and of a loop alone.
const OF_BOTH: [&str; 3] = ["from", "by", "pieces"];

const OF_RUN: [&str; 8] = [
    "fails", "lies", "stops", "within", "marks", "leaves", "sends", "last",
];

const OF_LOOP: [&str; 3] = ["every", "looks", "through"];

fn is_key(word: &str, in_loop: bool) -> bool {
    let others: &[&str] = if in_loop { &OF_LOOP } else { &OF_RUN };
    OF_BOTH.contains(&word) || others.contains(&word)
}

// Whether a word fits behind a key: behind some it is a number.
fn fits(key: &str, word: &str) -> bool {
    match key {
        "pieces" => word.parse::<u32>().is_ok(),
        "last" | "every" => word.parse::<u64>().is_ok(),
        _ => true,
    }
}

/// The options that words say, of a loop or of one run.
pub fn options_of(words: &str, in_loop: bool) -> Result<Options<'_>, Wrong<'_>> {
    // The key whose word comes next.
    let mut key: Option<&str> = None;
    for word in words.split_whitespace() {
        match key {
            Some(name) => {
                if !fits(name, word) {
                    return Err(Wrong(word));
                }
                key = None;
            }
            None => {
                if is_key(word, in_loop) {
                    key = Some(word);
                } else if !FLAGS.contains(&word) {
                    return Err(Wrong(word));
                }
            }
        }
    }
    match key {
        Some(name) => Err(Wrong(name)),
        None => Ok(Options { words }),
    }
}

impl<'a> Options<'a> {
    /// The last word behind that key, or that flag, where it is given.
    pub fn word(&self, wanted: &str) -> Option<&'a str> {
        let mut found = None;
        let mut key: Option<&str> = None;
        for word in self.words.split_whitespace() {
            match key {
                Some(name) => {
                    if name == wanted {
                        found = Some(word);
                    }
                    key = None;
                }
                None if !FLAGS.contains(&word) => key = Some(word),
                None => {
                    if word == wanted {
                        found = Some(word);
                    }
                }
            }
        }
        found
    }

    /// Whether that flag is given.
    pub fn has(&self, flag: &str) -> bool {
        self.word(flag).is_some()
    }

    /// The number behind that key, where it is given.
    pub fn number(&self, key: &str) -> Option<u64> {
        self.word(key)?.parse::<u64>().ok()
    }
}
