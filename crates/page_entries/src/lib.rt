//! What a record of the log says of a page: all of its bytes, or what changed on it.
#![tactic(auto)]

mod apply;
mod entry;
mod fields;
mod file_changes;
mod file_differences;
mod file_grammar;
mod form;
mod grammar;
mod laws;
mod rule;
mod slot_differences;
mod slots;
mod spelling;

pub use apply::apply_entry;
pub use entry::{Entries, PageEntry};
pub use fields::Fields;
pub use form::EntryForm;
pub use grammar::fields_len;
pub use laws::{
    a_rule_entry_gives_the_page, changed_slots_give_the_new_ones, one_rule_entry, said_is_one,
    said_is_read,
};
pub use rule::entry_for;
pub use slots::apply_slots;

// The fields of changes of slots: four zero bytes, how many there are, and the changes. A change has its slot, its length and its body.
const CHANGE_COUNT: usize = 4;

const CHANGE_HEAD: usize = 6;

const CHANGE_LEN: usize = 2;

const CHANGE_BODY: usize = 4;

// The fields of changes of files: two numbers of the catalog, how many files are removed, their numbers, how many are put, and their entries.
const NEXT_UNIQUE: usize = 0;

const LAST: usize = 8;

const REMOVED_COUNT: usize = 16;

const FILE_HEAD: usize = 18;

const NUMBER_LEN: usize = 4;

const COUNT_LEN: usize = 2;
