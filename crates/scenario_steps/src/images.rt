//! Images that a stop may leave.
ghost use Rattle.std.specs.Prelude.{◌≡◌, length};

use memory_host::{Choice, MemoryHost};
use scenario_values::Trouble;
use scenario_words::Wrong;
use std::alloc::{AllocError, Global};

/// What a stop leaves of the ranges that were written since the last sync: of each in turn what the next choice says, and then from the first one on again.
#[derive(Drop)]
pub(crate) struct Way {
    choices: Vec<Choice>,
}

fn choice_of(word: &str) -> Result<Choice, Wrong<'_>> {
    match word {
        "before" => Ok(Choice::Before),
        "after" => Ok(Choice::After),
        _ => match word.parse::<u8>() {
            Ok(byte) => Ok(Choice::Fill(byte)),
            Err(_) => Err(Wrong(word)),
        },
    }
}

fn way_of(alloc: Global, word: &str) -> Result<Way, Trouble<'_>> {
    let mut choices = Vec::new(alloc);
    for choice in word.split('/') {
        choices.push(choice_of(choice)?)?;
    }
    Ok(Way { choices })
}

/// The ways that a word says, with commas between them, and with a `/` between the choices of each.
pub(crate) fn ways_of(alloc: Global, word: &str) -> Result<Vec<Way>, Trouble<'_>> {
    let mut ways = Vec::new(alloc);
    for way in word.split(',') {
        ways.push(way_of(alloc, way)?)?;
    }
    Ok(ways)
}

impl Way {
    // Writes the choices over those, from the first one on again and again.
    fn lay(&self, choices: &mut [Choice])
        ensures { length choices.new ≡ length choices.old }
    {
        let count = self.choices.len().max(1);
        for (index, choice) in choices.iter_mut().enumerate() {
            if let Some(next) = self.choices.get(index % count) {
                *choice = *next;
            }
        }
    }

    /// The image that a stop right after that call leaves, or after the last one where there are fewer.
    pub(crate) fn image(
        &self,
        alloc: Global,
        host: &MemoryHost,
        call: u64,
    ) -> Result<Vec<u8>, AllocError> {
        let moment = call.min(host.calls());
        let mut choices = vec![in alloc; Choice::After; host.pending(moment) as usize]?;
        self.lay(&mut choices);
        host.image_with(moment, &choices)
    }
}
