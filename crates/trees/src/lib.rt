//! Trees on a volume: their shape, bytes and units; rows of trees of one level, how they stand in nodes and how they are read; and the steps of an edit: new
//! leaves in the place of a run of leaves, new nodes over a row, and new roots. An insert and an append keep a tree balanced. An inner node is a page of counts and
//! children: its kind, its level and the number of its pairs, four bytes of zero, then the pairs, and zeros to the end of the page. Its kind says how many bytes a
//! count has: nodes are written with counts of eight bytes, and read with counts of eight or four. Leaves hold bytes alone; plans say how long each is.
#![tactic(auto)]

mod faults;
mod leaves;
mod lent_nodes;
pub mod names;
mod nodes;
pub mod plans;
mod read;
mod reads;
mod root_step;
mod roots;
mod rows;
mod shape_laws;
mod spans;
pub mod split;
pub mod view;
mod wide;
pub mod width;
pub mod write;

use ex_base::PageNo;
pub use faults::{no_leaf, no_node};
pub use leaves::{Change, write_leaves};
pub use lent_nodes::all_children;
pub use nodes::{nodes_by, nodes_over};
pub use read::read_row;
pub use root_step::rooted;
pub use roots::is_root_for;
pub use rows::{Part, names_node, piece, put, row_of, spliced};
pub use shape_laws::{append_keeps_balance, insert_keeps_balance};

/// Where the level stands, a byte of at least 1.
const LEVEL_AT: usize = 1;

/// Where the number of pairs stands, two bytes.
const LEN_AT: usize = 2;

/// Where the four bytes of zero stand.
const GAP_AT: usize = 4;

/// Where the pairs begin.
const PAIRS_AT: usize = 8;

/// A child and how many bytes the node spells up to the child's end.
#[derive(Clone, Copy, Debug, PartialEq, Eq)]
pub struct Pair {
    /// The bytes of this child and of those before it.
    pub count: u64,
    /// The child's root page, or the first page of its leaf.
    pub page: PageNo,
}
