//! What holds of needs and of items that are read, each shown by a function that does nothing.
ghost use Rattle.history_items.specs.ItemLaws.{LeavesNeed, NodesNeed, FileHeadsNeed, VersionsNeed, LeafNeedStays, NodeNeedStays, FileNeedStays, VersionNeedStays, NodesReadBack, FileHeadsReadBack, VersionsReadBack};

/// How many bytes each item needs. It does nothing: its contract is the law.
pub fn needs_of_items()
    ensures leaves { LeavesNeed }
    ensures nodes { NodesNeed }
    ensures files { FileHeadsNeed }
    ensures versions { VersionsNeed }
{}

/// A need stays while fewer bytes are there, however many come at once. It does nothing: its contract is the law.
pub fn needs_hold_at_each_step()
    ensures leaves { LeafNeedStays }
    ensures nodes { NodeNeedStays }
    ensures files { FileNeedStays }
    ensures versions { VersionNeedStays }
{}

/// What an item says is what it was made of. It does nothing: its contract is the law.
pub fn items_are_read_back()
    ensures nodes { NodesReadBack }
    ensures files { FileHeadsReadBack }
    ensures versions { VersionsReadBack }
{}
