//! Entries side by side, edited at a place.
ghost use Rattle.std.specs.Prelude.{◌≡◌, ◌≤◌, ◌<◌, ◌+◌, ◌∷◌, ◌++◌, ℕ, length, take, drop, IfErr, OnOk, option_to_list};
ghost use Rattle.ex_base.specs.Ports.{IsDamage, HasCause};
ghost use Rattle.file_index.specs.Nodes.{IsPlace, first_key};
ghost use Rattle.file_index.specs.Damage.{place_in};

use crate::Entry;
use ex_base::{PageNo, PortFault};

/// The last entry whose key is not above the key, else the first one.
pub fn place_of(entries: &[Entry], key: u32) -> usize
    requires { 1 ≤ length entries.now }
    ensures place { IsPlace key entries.now result }
    ensures is { result ≡ place_in key entries.now }
{
    let mut at = 0;
    while at + 1 < entries.len() {
        if key < entries[at + 1].key {
            return at;
        }
        at += 1;
    }
    at
}

/// The entry of a page that has these entries.
pub fn entry_over(page: PageNo, entries: &[Entry]) -> Entry
    requires { 1 ≤ length entries.now }
    ensures page { result.page ≡ page }
    ensures key { result.key ≡ first_key entries.now }
{
    Entry {
        key: entries[0].key,
        page,
    }
}

/// Puts an entry, and where there is one a second behind it, in place of an entry.
pub fn replace_one(
    entries: &mut Vec<Entry>,
    at: usize,
    first: Entry,
    second: Option<Entry>,
) -> Result<(), PortFault>
    requires { at < length entries.old.items }
    ensures items { OnOk result (entries.new.items ≡ take at entries.old.items
        ++ ((first ∷ option_to_list second) ++ drop (at + 1) entries.old.items)) }
    ensures no_damage { IfErr result (λ fault. IsDamage fault → ⊥) }
    ensures cause { (before now : ℕ) → HasCause before now result }
{
    entries[at] = first;
    match second {
        None => Ok(()),
        Some(entry) => match entries.insert(at + 1, entry) {
            Ok(()) => Ok(()),
            Err(_) => Err(PortFault::Memory),
        },
    }
}

/// Puts an entry, and where there is one a second behind it, in place of two entries.
pub fn replace_two(entries: &mut Vec<Entry>, at: usize, first: Entry, second: Option<Entry>)
    requires { at + 1 < length entries.old.items }
    ensures { entries.new.items ≡ take at entries.old.items ++ ((first ∷ option_to_list second)
        ++ drop (at + 2) entries.old.items) }
{
    entries[at] = first;
    match second {
        None => {
            entries.remove(at + 1);
        }
        Some(entry) => entries[at + 1] = entry,
    }
}
