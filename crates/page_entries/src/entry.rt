//! Entries of a record.
use crate::fields::Fields;
use crate::form::EntryForm;
use ex_base::{Items, PageNo};

/// What a record says of a page.
#[derive(Drop)]
pub struct PageEntry {
    pub page: PageNo,
    pub form: EntryForm,
    pub fields: Fields,
}

pub type Entries = Items<PageEntry>;
