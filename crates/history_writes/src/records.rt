//! The record of a version.
ghost use Rattle.std.specs.Prelude.{◌≡◌, ◌≤◌, length, take};
ghost use Rattle.history_items.specs.Reads.{version_of};
ghost use Rattle.history_model.specs.FilePages.{record_size};
ghost use Rattle.history_model.specs.Items.{IsRootNumber, IsVersionItem, roots_most};
ghost use Rattle.history_volumes.specs.Histories.{page_placed, root_placed};
ghost use Rattle.history_volumes.specs.Transcribed.{place_of};
ghost use Rattle.object_records.specs.Reads.{content_of};
ghost use Rattle.object_records.specs.Record.{BodyOf};
ghost use Rattle.history_writes.specs.Places.{leaf_place, node_place};
ghost use Rattle.history_writes.specs.Records.{state_of, unlinked, unlinked_head};

use crate::places::tree_page;
use ex_base::{Geometry, PageNo, Root};
use history_items::VersionItem;
use object_records::{Head, LARGE_LEN, Payload, State, body_len, write_large, write_small};

/// The page of a tree of a height, in the place of its number, if there is one.
fn place_page(geometry: &Geometry, height: u8, number: Option<PageNo>) -> Option<PageNo>
    requires { IsRootNumber (roots_most geometry.now.segs geometry.now.pages height) number }
    ensures { result ≡ page_placed (place_of (leaf_place geometry.now) node_place height) number }
{
    match number {
        None => None,
        Some(number) => Some(tree_page(geometry, height, number.0)),
    }
}

/// The root with its tree's page in the place of its number.
fn place_root(geometry: &Geometry, root: &Root) -> Root
    requires { IsRootNumber (roots_most geometry.now.segs geometry.now.pages root.now.height)
        root.now.page }
    ensures { result ≡ root_placed (leaf_place geometry.now) node_place root.now }
{
    Root {
        height: root.height,
        page: place_page(geometry, root.height, root.page),
        size: root.size,
    }
}

/// The state that a version is in.
fn state_of(frozen: bool) -> State
    ensures { result ≡ state_of frozen }
{
    if frozen {
        State::Frozen
    } else {
        State::Current
    }
}

/// The head of a version's record, with no links.
fn unlinked_head(version: &VersionItem<'_>) -> Head
    ensures { result ≡ unlinked_head (version_of version.now) }
{
    Head {
        state: state_of(version.frozen),
        unique: version.unique,
        older: None,
        newer: None,
    }
}

/// Writes the record of a version over the first bytes, with no links yet and with its tree's page in the place of its number, and answers how many they are.
pub fn write_record(geometry: &Geometry, version: &VersionItem<'_>, out: &mut [u8]) -> usize
    requires version { IsVersionItem geometry.now geometry.now.segs geometry.now.pages
        (version_of version.now) }
    requires room { geometry.now.page_size ≤ length out.old }
    ensures record { BodyOf (take result out.new)
        (unlinked geometry.now (version_of version.now)) }
    ensures len { result ≡ record_size (content_of version.now.content) }
    ensures room { length out.new ≡ length out.old }
{
    let head = unlinked_head(version);
    match version.content {
        Payload::Small(bytes) => {
            let len = body_len(bytes.len() as u32) as usize;
            write_small(&head, bytes, &mut out[..len]);
            len
        }
        Payload::Large(root) => {
            let root = place_root(geometry, &root);
            write_large(&head, &root, &mut out[..LARGE_LEN]);
            LARGE_LEN
        }
    }
}
