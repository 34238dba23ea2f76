//! What holds of what was written, shown by functions that do nothing.
ghost use Rattle.history_writes.specs.Contents.{RowsAreFiles};
ghost use Rattle.history_writes.specs.Laws.{PiecesStay};

/// Leaves and nodes stay where nothing is written but pages behind those of the nodes. It does nothing: its contract is the law.
pub fn pages_behind_nodes_keep_pieces()
    ensures { PiecesStay }
{}

/// Pages in a row that have records are a file of these records. It does nothing: its contract is the law.
pub fn rows_of_pages_are_files()
    ensures { RowsAreFiles }
{}
