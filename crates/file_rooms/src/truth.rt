//! What is remembered of the room of files stays true of a volume, whatever is done to it.
ghost use Rattle.std.specs.Prelude.{◌≡◌, ℕ, List, Bool, true, false, []};
ghost use Rattle.ex_base.specs.declared.names.Index.{Index};
ghost use Rattle.ex_base.specs.declared.names.Place.{Place};
ghost use Rattle.file_bodies.specs.declared.placing.Room.{Room};
ghost use Rattle.slotted_pages.specs.FilePage.{Slot};
ghost use Rattle.file_bodies.specs.Files.{HasFile, EditsFile};
ghost use Rattle.file_bodies.specs.Places.{IsChosen, IsRoom};
ghost use Rattle.file_rooms.specs.Rooms.{Remembered, nothing, new_len, IsLookedFrom, IsKept, IsLookedAt, GoesBack};
ghost use Rattle.file_rooms.specs.Truth.{AreTrue, AreTrueBut, AreAsBefore, AreIn, AreWhole, at_page, are_changed};

use ex_base::ReadPages;

/// Where what is remembered is true, a place is looked for from a room that is true of the file: so a new object comes onto its lowest page with room.
pub fn a_place_is_looked_for_from_a_true_room<P: ReadPages>()
    ensures { (s : P) (index : Index) (known : Remembered) (room : Room)
        → HasFile P.Ground s index → AreTrue P.Ground s known
        → IsLookedFrom known index.file_no room → IsRoom P.Ground s index room }
{}

/// Nothing is true of any volume.
pub fn nothing_is_true<P: ReadPages>()
    ensures { (s : P) → AreTrue P.Ground s nothing }
{}

/// What is remembered once a place was found is true of all pages but the place's. A file grew only where that page wasn't there before.
pub fn a_place_that_was_found_leaves_the_other_pages_true<P: ReadPages>()
    ensures { (s : P) (index : Index) (asked : Room) (place : Place) (grew : Bool)
        (old new : Remembered) → HasFile P.Ground s index → AreTrue P.Ground s old
        → IsLookedFrom old index.file_no asked
        → IsChosen P.Ground s index new_len place
        → (P.held s place.page.0 ≡ true → grew ≡ false) → IsKept old asked place.page.0 grew new
        → AreTrueBut P.Ground s (at_page place.page.0) new }
{}

/// Once a place of a file was edited, all files are whole still, and no page is one of two.
pub fn an_edit_of_a_file_leaves_all_files_whole<P: ReadPages>()
    ensures { (old new : P) (before after : Index) (place : Place) (was is : Slot)
        → AreWhole P.Ground old → HasFile P.Ground old before
        → EditsFile P.Ground old new before after place was is → AreWhole P.Ground new }
{}

/// Once a place of a file was edited, each page but the place's is as it was, where all files were whole.
pub fn an_edit_of_a_file_leaves_the_other_pages<P: ReadPages>()
    ensures { (old new : P) (before after : Index) (place : Place) (was is : Slot)
        → AreWhole P.Ground old → HasFile P.Ground old before
        → EditsFile P.Ground old new before after place was is
        → AreAsBefore P.Ground old new (at_page place.page.0) }
{}

/// Once a page was edited, what is remembered is true of all others still.
pub fn an_edit_leaves_the_other_pages_true<P: ReadPages>()
    ensures { (old new : P) (page : ℕ) (known : Remembered)
        → AreAsBefore P.Ground old new (at_page page)
        → AreTrueBut P.Ground old (at_page page) known
        → AreTrueBut P.Ground new (at_page page) known }
{}

/// What is remembered is true of a page again that is looked at.
pub fn a_page_that_is_looked_at_is_true<P: ReadPages>()
    ensures { (s : P) (page : ℕ) (old new : Remembered)
        → AreTrueBut P.Ground s (at_page page) old → IsLookedAt P.Ground s page old new
        → AreTrue P.Ground s new }
{}

/// What is remembered stays true where the pages stay as the transaction left them.
pub fn settled_pages_stay_true<P: ReadPages>()
    ensures { (s : P) (known : Remembered) → AreTrue P.Ground s known
        → AreTrue P.Ground s (record known { changed = [] }) }
{}

/// Where what is remembered is true of the committed state but for the pages that the transaction changed, it is true of all its pages once these went back.
pub fn pages_that_go_back_are_true<P: ReadPages>()
    ensures { (s : P) (kept : List Bool) (old new : Remembered) → AreIn P.Ground s kept
        → AreTrueBut P.Ground s (are_changed old) old → GoesBack kept old new
        → AreTrue P.Ground s new }
{}
