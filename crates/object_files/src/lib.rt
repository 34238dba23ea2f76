//! The catalog of a volume: its files by name, the next unique number and the number of the last committed transaction.
#![tactic(auto)]

ghost use Rattle.std.specs.Prelude.{◌≡◌, ℕ, List};
ghost use Rattle.object_files.specs.Catalog.{Catalog, CatalogOf};
ghost use Rattle.object_files.specs.Reads.{catalog_on};

mod edit;
mod find;
mod marks;
mod reads;
mod view;

pub use edit::{add_file, empty_catalog, remove_file, set_index, set_numbers, write_catalog};
use ex_base::PageNo;
pub use view::CatalogView;

/// A file: its name, the level and the root of the index of its pages, its number. An index of level 0 is the one file page, or none.
#[derive(Clone, Copy)]
pub struct Entry<'a> {
    pub name: &'a [u8],
    pub level: u8,
    pub root: Option<PageNo>,
    pub file_no: u32,
}

// The bytes of the catalog's fields. The entries begin behind its head.
const KIND: usize = 0;

const ZERO: usize = 1;

const COUNT: usize = 2;

const GAP: usize = 4;

const GAP_LEN: usize = 4;

const NEXT_UNIQUE: usize = 8;

const LAST: usize = 16;

const SECOND_GAP: usize = 24;

const SECOND_GAP_LEN: usize = 8;

const HEAD_LEN: usize = 32;

// The bytes of an entry's fields, from its first byte on, which is the name's length.
const ENTRY_LEN: usize = 48;

const NAME: usize = 1;

const NAME_MOST: usize = 32;

const LEVEL: usize = 33;

const LEVEL_GAP: usize = 34;

const LEVEL_GAP_LEN: usize = 2;

const ROOT: usize = 36;

const FILE_NO: usize = 40;

const ENTRY_GAP: usize = 44;

const ENTRY_GAP_LEN: usize = 4;

/// The unique number of the first version of a volume.
const FIRST_UNIQUE: u64 = 1;

/// What the first byte of the catalog is.
const CATALOG: u8 = 1;

const MOST_BYTES: usize = 8192;

/// A page is the catalog of what is read on it, and so of one list of entries and two numbers alone.
pub fn catalog_of_a_page()
    ensures { (page : List ℕ) (c : Catalog) → CatalogOf page c → catalog_on page ≡ c }
{}
