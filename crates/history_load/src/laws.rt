//! What holds of what was written, shown by functions that do nothing.
ghost use Rattle.history_load.specs.Laws.{DumpsHold, StandingHistories, WholeTrees, WrittenLoads};

/// A history that stands as a volume is a history of the volume's table. It does nothing: its contract is the law.
pub fn a_history_that_stands_is_of_its_table()
    ensures { StandingHistories }
{}

/// What was written and found by a walk loads once its catalog is committed. It does nothing: its contract is the law.
pub fn what_was_written_loads()
    ensures { WrittenLoads }
{}

/// Where a dump was written, each of its trees is whole. It does nothing: its contract is the law.
pub fn the_trees_of_a_dump_are_whole()
    ensures { WholeTrees }
{}

/// Where a dump was written with its links, and all lies apart, its volume holds there. It does nothing: its contract is the law.
pub fn a_dump_holds_where_it_was_written()
    ensures { DumpsHold }
{}
