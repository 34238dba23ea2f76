//! File pages: bodies in slots. The bodies stand one behind the other in the order of the slots, and the slots' fields at the page's end, the first
//! slot's last. No call takes memory, and each edit moves the bytes of the page once.
#![tactic(auto)]

ghost use Rattle.std.specs.Prelude.{◌≡◌, ℕ, List};
ghost use Rattle.slotted_pages.specs.FilePage.{FilePage, SlotsOf};
ghost use Rattle.slotted_pages.specs.Reads.{page_on};

mod bytes;
mod edit;
mod reads;
mod view;
mod whole;

pub use edit::{empty_page, insert_body, remove_body, resize_body};
pub use reads::file_named;
pub use view::SlottedView;
pub use whole::{SlotBody, write_slots};

// The bytes of a page's fields. The bodies begin behind its head.
const KIND: usize = 0;

const ZERO: usize = 1;

const COUNT: usize = 2;

const GAP: usize = 4;

const FILE_NO: usize = 8;

const SECOND_GAP: usize = 12;

const HEAD_LEN: usize = 16;

/// What the first byte of a file page is.
const FILE_PAGE: u8 = 3;

/// The bytes of a slot's field, and where its length stands in it.
const FIELD_LEN: usize = 4;

const LENGTH: usize = 2;

const MOST_BYTES: usize = 8192;

/// A page is the file page of what is read on it, and so of one list of slots and one file alone.
pub fn slots_of_a_page()
    ensures { (page : List ℕ) (p : FilePage) → SlotsOf page p → page_on page ≡ p }
{}
