//! Laws of clients, each the contract of a function.
ghost use Rattle.clients.specs.Laws.{LineIsOneTurn, NamesAreReadBack, NamesOfClientsDiffer, OthersSeeWhatIsCommitted, OwnerFollows};

/// A client reads its own name back, and two names are kept as one only where they are one client's one name, or `main`. It does nothing: its contract
/// is the law.
pub fn names_are_kept_apart()
    ensures read_back { NamesAreReadBack }
    ensures differ { NamesOfClientsDiffer }
{}

/// Each line of a schedule says one thing, of one client. It does nothing: its contract is the law.
pub fn a_line_is_one_turn()
    ensures { LineIsOneTurn }
{}

/// A client is the owner exactly while a transaction is open, and each other one sees what is committed. It does nothing: its contract is the law.
pub fn the_owner_has_the_transaction()
    ensures follows { OwnerFollows }
    ensures others_see_what_is_committed { OthersSeeWhatIsCommitted }
{}
