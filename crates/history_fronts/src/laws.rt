//! What holds of fronts, each shown by a function that does nothing.
ghost use Rattle.history_fronts.specs.FrontLaws.{DumpsLead, OneFront, RefusedAlone, RefusedBegins};

/// Bytes are read to one front, however they were cut. It does nothing: its contract is the law.
pub fn bytes_are_read_to_one_front()
    ensures { OneFront }
{}

/// No dump begins with bytes that are refused. It does nothing: its contract is the law.
pub fn refused_bytes_begin_no_dump()
    ensures { RefusedBegins }
{}

/// Bytes that are refused are read to no front. It does nothing: its contract is the law.
pub fn refused_bytes_are_not_read()
    ensures { RefusedAlone }
{}

/// The items of a dump lead to its end. It does nothing: its contract is the law.
pub fn dumps_lead_to_their_end()
    ensures { DumpsLead }
{}
