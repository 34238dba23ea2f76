//! Writing what a stream says to the disk of a volume of which nothing but the catalog's page is in use: where its leaves and nodes go, the pages of its files with
//! their records, and, once all of these have places, their links and the index of each file.
#![tactic(auto)]

mod file_pages;
mod index;
mod laws;
mod page_links;
mod pieces;
mod places;
mod records;
mod rows;

pub use file_pages::FilePages;
pub use index::{IndexEnd, write_index_over};
pub use laws::{pages_behind_nodes_keep_pieces, rows_of_pages_are_files};
pub use pieces::{write_leaf, write_node};
pub use places::{leaf_page, node_page};
pub use records::write_record;
pub use rows::{Desk, LinkFault, link_pages};
