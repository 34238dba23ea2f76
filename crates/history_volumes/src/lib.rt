//! The history of a volume: where its leaves and nodes stand, and that it is a history of the volume's table. It has definitions and their laws alone.
#![tactic(auto)]

ghost use Rattle.history_volumes.specs.Laws.{EachIsThereOnce, HistoriesAreOfTables, HistoriesAreWhole, ItemsAreWhole, TreesAreThere, VolumesHaveHistories};

/// A tree of a history and the one that it is transcribed to spell the same bytes, with one shape, over the same pieces. It does nothing: its contract is
/// the law.
pub fn a_transcribed_tree()
    ensures { TreesAreThere }
{}

/// The history of a volume has each leaf and each node of its trees once. It does nothing: its contract is the law.
pub fn a_history_has_each_unit_once()
    ensures { EachIsThereOnce }
{}

/// The history of a volume is a history of the volume's table. It does nothing: its contract is the law.
pub fn the_history_of_a_volume_is_of_its_table()
    ensures { HistoriesAreOfTables }
{}

/// The items of the stream of a volume's history are within their limits. It does nothing: its contract is the law.
pub fn the_items_of_a_history_are_whole()
    ensures { ItemsAreWhole }
{}

/// A volume whose leaves have all bytes of their units has a history. It does nothing: its contract is the law.
pub fn a_volume_has_a_history()
    ensures { VolumesHaveHistories }
{}

/// The history of a volume whose pages have the bytes of a page is a history of the volume's table. It does nothing: its contract is the law.
pub fn a_history_of_a_volume_is_whole()
    ensures { HistoriesAreWhole }
{}
