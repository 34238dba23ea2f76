//! What holds of dumps, each shown by a function that does nothing.
ghost use Rattle.history_model.specs.Laws.{OneHistory, OneTable, IsShort, AnyAreas};
ghost use Rattle.history_model.specs.Rows.{BaseStream, BaseSizes, BaseRefused};

/// A stream spells one history: two whose items are each one, and that are spelled alike, are one. It does nothing: its contract is the law.
pub fn one_history_of_a_stream()
    ensures { OneHistory }
{}

/// A stream is a dump of one table, but for where its versions lie. It does nothing: its contract is the law.
pub fn one_table_but_for_places()
    ensures { OneTable }
{}

/// A dump has at most as many bytes as the numbers of its head allow. It does nothing: its contract is the law.
pub fn a_dump_is_short()
    ensures { IsShort }
{}

/// A dump is one for each volume of its page size, unit length and fan, whatever the sizes of its areas. It does nothing: its contract is the law.
pub fn a_dump_fits_any_areas()
    ensures { AnyAreas }
{}

/// The stream of a worked history, byte by byte, its sizes, and where it doesn't fit. It does nothing: its contract is the rows.
pub fn worked_rows()
    ensures stream { BaseStream }
    ensures sizes { BaseSizes }
    ensures refused { BaseRefused }
{}
