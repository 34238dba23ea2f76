//! The words behind a command's word, read with `clap`.
ghost use Rattle.std.specs.Prelude.{◌≡◌, IfOk, MatchOption, false, map, string_bytes};
ghost use Rattle.std.specs.List.{All, list_all};
ghost use Rattle.clap.specs.Words.{FailsBy, app_of, fault_of, found_of, rows_of, rule_of, matches_of};
ghost use Rattle.command_words.specs.ClapCommand.{app_for, app_with, bare_app, is_fit, option_rule, FindsNumbers, GivesNumber, number_found};
ghost use Rattle.command_words.specs.Commands.{option_names};
ghost use Rattle.command_words.specs.Items.{Itemed};
ghost use Rattle.command_words.specs.Wishes.{texts, IsGiven};

use crate::commands::CommandWord;
use crate::numbers::number_of;
use clap::error::ErrorKind;
use clap::{Arg, ArgAction, ArgMatches, Command, Error};
use std::alloc::{AllocError, Global};

/// The name of the volume among clap's arguments.
pub const VOLUME: &str = "volume";

// Whether clap is given the word: it isn't empty, and where it begins with `-` it is `--` and more.
fn fits(word: &str) -> bool
    ensures { result ≡ is_fit word.now }
{
    match word.as_bytes() {
        [] => false,
        [b'-', b'-', _, ..] => true,
        [b'-', ..] => false,
        _ => true,
    }
}

// Whether clap is given the words.
fn all_fit(words: &[String]) -> bool
    ensures { result ≡ list_all (λ w. is_fit (string_bytes w)) words.now }
{
    words.iter().all(|word| fits(word.as_str()))
}

// The command of this name with the volume and these options.
fn command_of<'a>(
    alloc: Global,
    name: &'a str,
    options: &'a [&'a str],
) -> Result<Command<'a>, AllocError>
    ensures { IfOk result (λ c. app_of c
        ≡ app_with name.entry.now (map (λ option. option.now) options.entry.now)) }
{
    let volume = Arg::new(alloc, VOLUME).action(ArgAction::Set);
    let mut command = bare_command(alloc, name).arg(volume)?;
    for name in options {
        command = command.arg(option_named(alloc, name))?;
    }
    Ok(command)
}

// An option of this name that takes a value.
fn option_named<'a>(alloc: Global, name: &'a str) -> Arg<'a>
    ensures rule { rule_of result ≡ option_rule name.entry.now }
    ensures local { result.global ≡ false }
{
    Arg::new(alloc, name).long(name).action(ArgAction::Set)
}

// A command of this name that takes nothing, not even a word for help.
fn bare_command<'a>(alloc: Global, name: &'a str) -> Command<'a>
    ensures app { app_of result ≡ bare_app name.entry.now }
{
    Command::new(alloc, name)
        .no_binary_name(true)
        .disable_help_flag(true)
        .disable_version_flag(true)
        .disable_help_subcommand(true)
}

/// What clap makes of the words behind a command's word.
pub fn matches_for<'a>(
    alloc: Global,
    command: CommandWord,
    words: &'a [String],
) -> Result<ArgMatches<'a>, Error>
    ensures fails { FailsBy (fault_of (app_for command) (texts words.entry.now)) result }
    ensures rows { IfOk result (λ m. rows_of (found_of m)
        ≡ matches_of (app_for command) (texts words.entry.now)) }
{
    command_of(alloc, command.as_str(), command.options())?.try_get_matches_from(words)
}

// The numbers of these options, in their order, or none where the value of one writes no number.
fn numbers_of(
    alloc: Global,
    matches: &ArgMatches<'_>,
    options: &[&str],
) -> Result<Option<Vec<Option<u64>>>, AllocError>
    ensures { IfOk result (λ o. MatchOption o
        (All (λ name. GivesNumber (found_of matches.now) name.now) options.now → ⊥)
        (λ numbers. FindsNumbers (found_of matches.now) options.now numbers.items)) }
{
    let mut numbers = Vec::new(alloc);
    for name in options {
        let Some(number) = number_at(matches, name) else {
            return Ok(None);
        };
        numbers.push(number)?;
    }
    Ok(Some(numbers))
}

// The number of this option, if it is there, or none where its value writes no number.
fn number_at(matches: &ArgMatches<'_>, name: &str) -> Option<Option<u64>>
    ensures { MatchOption result (GivesNumber (found_of matches.now) name.now → ⊥)
        (λ number. GivesNumber (found_of matches.now) name.now
        × (number ≡ number_found (found_of matches.now) name.now)) }
{
    let Some(text) = matches.get_str(name) else {
        return Some(None);
    };
    match number_of(text) {
        Some(number) => Some(Some(number)),
        None => None,
    }
}

/// What the words behind a command's word give.
#[derive(Drop)]
pub struct Given<'a> {
    /// The word that names the volume.
    pub volume: &'a str,
    /// The numbers of the command's options, in their order.
    pub numbers: Vec<Option<u64>>,
}

/// What the words behind a command's word give, or none where they are outside of its grammar.
pub fn given_by<'a>(
    alloc: Global,
    command: CommandWord,
    words: &'a [String],
) -> Result<Option<Given<'a>>, AllocError>
    ensures { IfOk result (λ o. MatchOption o
        (Itemed (option_names command) (texts words.entry.now) → ⊥)
        (λ given. IsGiven (option_names command) (texts words.entry.now) given.volume.now
        given.numbers.items)) }
{
    if !all_fit(words) {
        return Ok(None);
    }
    let matches = match matches_for(alloc, command, words) {
        Ok(matches) => matches,
        Err(fault) => {
            if fault.kind() == ErrorKind::OutOfMemory {
                return Err(AllocError);
            }
            return Ok(None);
        }
    };
    let Some(volume) = matches.get_str(VOLUME) else {
        return Ok(None);
    };
    match numbers_of(alloc, &matches, command.options())? {
        Some(numbers) => Ok(Some(Given { volume, numbers })),
        None => Ok(None),
    }
}
