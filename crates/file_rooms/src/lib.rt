//! What a caller remembers of the room of files: which pages may have a place for a new record, so that it need not look at full pages again.
#![tactic(auto)]

mod rooms;
mod truth;

pub use rooms::Rooms;
pub use truth::{
    a_page_that_is_looked_at_is_true, a_place_is_looked_for_from_a_true_room,
    a_place_that_was_found_leaves_the_other_pages_true, an_edit_leaves_the_other_pages_true,
    an_edit_of_a_file_leaves_all_files_whole, an_edit_of_a_file_leaves_the_other_pages,
    nothing_is_true, pages_that_go_back_are_true, settled_pages_stay_true,
};
