//! What every layer speaks of: numbers in fields of bytes, the geometry of a volume, its superblock, the names of pages and versions, lists, and
//! the ports through which the layers above reach tree pages and logged pages.
#![tactic(auto)]

mod blocks;
mod count_blocks;
mod faults;
mod fields;
mod geometry;
mod ground;
mod image;
mod items;
mod limits;
mod named_fields;
mod names;
mod needs;
mod notes;
mod pages;
mod splice;
mod superblock;

pub use blocks::{Blocks, ReadBlocks};
pub use count_blocks::CountBlocks;
pub use faults::{PortFault, Seen};
pub use fields::{
    clear_from, get_u16, get_u32, get_u64, is_zero, put_bytes, put_of_what_get_gave, put_u16,
    put_u32, put_u64,
};
pub use geometry::{CATALOG_ENTRY, CATALOG_HEAD, Geometry, GeometryFault, fan_max};
pub use ground::Ground;
pub use image::Image;
pub use items::Items;
pub use limits::{
    HEIGHT_MOST, INDEX_LEVEL_MOST, LOG_PAGES, OBJECT_MOST, PAGE_SIZE_MOST, ROOT_LEAST,
    TOUCHED_MOST, UPDATES_MOST,
};
pub use named_fields::{get_page, get_place, put_page, put_place};
pub use names::{Area, Index, Oid, OpNote, PageNo, Place, Root};
pub use needs::{delete_need, growth_need, replace_need};
pub use notes::NoteKind;
pub use pages::{Pages, ReadPages, ReadVolume, Volume};
pub use splice::replace_bytes;
pub use superblock::{has_magic, read_super, write_super};
