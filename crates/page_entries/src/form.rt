//! The forms of entries.

/// What an entry says of its page. The number beside each form stands for it in the log.
#[derive(Clone, Copy, Debug, PartialEq, Eq)]
pub enum EntryForm {
    /// All bytes of the page.
    Image = 1,
    /// Slots of a page of a file, each with what it gets.
    SlotChanges = 2,
    /// The numbers of the catalog, the files that leave it and those that are put into it.
    FileChanges = 3,
}

impl EntryForm {
    ghost use Rattle.std.specs.Prelude.{◌≡◌, MatchOption};
    ghost use Rattle.page_entries.specs.declared.form.EntryForm.{EntryForm};
    ghost use Rattle.page_entries.specs.Forms.{form_number};

    /// The number that stands for the form.
    pub fn number(self) -> u8
        ensures { result ≡ form_number self }
    {
        self as u8
    }

    /// The form that a number stands for, where there is one.
    pub fn of_number(number: u8) -> Option<EntryForm>
        ensures { MatchOption result ((form : EntryForm)
            → ¬ form_number form ≡ number) (λ form. form_number form ≡ number) }
    {
        match number {
            1 => Some(EntryForm::Image),
            2 => Some(EntryForm::SlotChanges),
            3 => Some(EntryForm::FileChanges),
            _ => None,
        }
    }
}
