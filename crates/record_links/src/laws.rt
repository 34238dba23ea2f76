//! Laws of labels, each the contract of a function.
ghost use Rattle.record_links.specs.Laws.{LabelsAreAlike, LabelsAreAtPlaces};

/// Any two ways to label records whose older ones are there agree on which of them are of one object. It does nothing: its contract is the law.
pub fn labels_alike()
    ensures { LabelsAreAlike }
{}

/// The label at a record's place is the one at its index. It does nothing: its contract is the law.
pub fn labels_at_places()
    ensures { LabelsAreAtPlaces }
{}
