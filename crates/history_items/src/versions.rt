//! The item of a version.
ghost use Rattle.std.specs.Prelude.{◌≡◌, ◌+◌, ◌<◌, ◌≤◌, ◌^◌, ◌++◌, length, drop};
ghost use Rattle.object_records.specs.Record.{IsContent, Small, Large};
ghost use Rattle.object_records.specs.Reads.{content_of};
ghost use Rattle.history_model.specs.Stream.{version_item, content_item, state_code, number_or_none};
ghost use Rattle.ex_base.specs.Bytes.{written};
ghost use Rattle.history_items.specs.Reads.{version_of, version_read, version_len, content_read, number_read, root_read, is_good_root};
ghost use Rattle.history_items.specs.Needs.{need_of_version, need_of_small, need_of_large};

use crate::bytes::put_u8;
use ex_base::{
    Geometry, PageNo, Root, get_page, get_u16, get_u64, put_bytes, put_page, put_u16, put_u64,
};
use object_records::Payload;

// Where the fields of a version's item stand.
const UNIQUE: usize = 0;

const STATE: usize = 8;

const OLDER: usize = 9;

const FORM: usize = 17;

/// Where what a version holds begins.
const CONTENT: usize = 18;

// Where the fields of a large version's root stand, and where they end.
const SIZE: usize = 18;

const HEIGHT: usize = 26;

const ROOT: usize = 27;

const LARGE_LEN: usize = 31;

/// Where a small version's bytes begin, behind their number.
const BYTES: usize = 20;

// What a state and a form are written as.
const CURRENT: u8 = 1;

const FROZEN: u8 = 2;

const SMALL: u8 = 1;

const LARGE: u8 = 2;

/// The bytes of a page that a small version can't have: the page's head, the record's head and its slot.
const BESIDE_SMALL: u32 = 44;

/// What the item of a version says. The root of a large one is told by its number in the place of its page.
#[derive(Clone, Copy)]
pub struct VersionItem<'a> {
    pub unique: u64,
    pub frozen: bool,
    /// The number of the version that it is derived from.
    pub older: Option<u64>,
    pub content: Payload<'a>,
}

/// Whether the root of a large version, behind so many leaves and nodes, is one of them, or none where the version is empty.
fn is_root(root: &Root, leaves: u32, nodes: u32) -> bool
    ensures { result ≡ is_good_root leaves nodes root.now }
{
    let most = if root.height == 0 { leaves } else { nodes };
    match root.page {
        None => root.size == 0 && root.height == 0,
        Some(number) => root.size > 0 && number.0 <= most,
    }
}

/// The root of a large version.
fn read_root(bytes: &[u8]) -> Root
    requires { 31 ≤ length bytes.now }
    ensures { result ≡ root_read bytes.now }
{
    Root {
        height: bytes[HEIGHT],
        page: get_page(bytes, ROOT),
        size: get_u64(bytes, SIZE),
    }
}

/// How many bytes the item of a small version needs that begins with these.
fn small_need(bytes: &[u8], geometry: &Geometry) -> Option<usize>
    ensures { result ≡ need_of_small geometry.now bytes.now }
{
    if bytes.len() < BYTES {
        return Some(BYTES);
    }
    let len = get_u16(bytes, CONTENT);
    if u32::from(len) + BESIDE_SMALL > geometry.page_size {
        return None;
    }
    let whole = BYTES + len as usize;
    if bytes.len() <= whole {
        Some(whole)
    } else {
        None
    }
}

/// How many bytes the item of a large version needs that begins with these.
fn large_need(bytes: &[u8], leaves: u32, nodes: u32) -> Option<usize>
    ensures { result ≡ need_of_large leaves nodes bytes.now }
{
    if bytes.len() < LARGE_LEN {
        return Some(LARGE_LEN);
    }
    if bytes.len() == LARGE_LEN && is_root(&read_root(bytes), leaves, nodes) {
        Some(LARGE_LEN)
    } else {
        None
    }
}

/// How many bytes the item of a version needs that begins with these, behind so many leaves and nodes. None where no such item does.
pub fn version_need(bytes: &[u8], geometry: &Geometry, leaves: u32, nodes: u32) -> Option<usize>
    ensures { result ≡ need_of_version geometry.now leaves nodes bytes.now }
{
    if bytes.len() < CONTENT {
        return Some(CONTENT);
    }
    let state = bytes[STATE];
    if state != CURRENT && state != FROZEN {
        return None;
    }
    match bytes[FORM] {
        SMALL => small_need(bytes, geometry),
        LARGE => large_need(bytes, leaves, nodes),
        _ => None,
    }
}

/// What a version holds.
fn read_content(bytes: &[u8]) -> Payload<'_>
    requires head { 20 ≤ length bytes.now }
    requires whole { version_len bytes.now ≤ length bytes.now }
    ensures { content_of result ≡ content_read bytes.now }
{
    if bytes[FORM] == SMALL {
        let len = get_u16(bytes, CONTENT) as usize;
        Payload::Small(&bytes[BYTES..BYTES + len])
    } else {
        Payload::Large(read_root(bytes))
    }
}

/// The number that a field names: none where it is 0.
fn number_in(field: u64) -> Option<u64>
    ensures { result ≡ number_read field }
{
    if field == 0 { None } else { Some(field) }
}

/// What the item of a version says.
pub fn read_version(bytes: &[u8]) -> VersionItem<'_>
    requires head { 20 ≤ length bytes.now }
    requires whole { version_len bytes.now ≤ length bytes.now }
    ensures { version_of result ≡ version_read bytes.now }
{
    VersionItem {
        unique: get_u64(bytes, UNIQUE),
        frozen: bytes[STATE] == FROZEN,
        older: number_in(get_u64(bytes, OLDER)),
        content: read_content(bytes),
    }
}

/// What a state is written as.
fn state_byte(frozen: bool) -> u8
    ensures { result ≡ state_code frozen }
{
    if frozen { FROZEN } else { CURRENT }
}

/// What the field of a number that may be none is written as.
fn field_of(number: Option<u64>) -> u64
    ensures { result ≡ number_or_none number }
{
    match number {
        None => 0,
        Some(number) => number,
    }
}

/// Writes what a small version holds, behind the head of its item.
fn write_small(bytes: &[u8], out: &mut [u8])
    requires few { length bytes.now < 2 ^ 16 }
    requires room { 20 + length bytes.now ≤ length out.old }
    ensures { out.new ≡ written out.old 17 (content_item (Small bytes.now)) }
{
    put_u8(out, FORM, SMALL);
    put_u16(out, CONTENT, bytes.len() as u16);
    put_bytes(out, BYTES, bytes);
}

/// Writes the root of a large version, behind the head of its item.
fn write_large(root: Root, out: &mut [u8])
    requires { 31 ≤ length out.old }
    ensures { out.new ≡ written out.old 17 (content_item (Large root)) }
{
    put_u8(out, FORM, LARGE);
    put_u64(out, SIZE, root.size);
    put_u8(out, HEIGHT, root.height);
    put_page(out, ROOT, root.page);
}

/// Writes what a version holds, behind the head of its item, and answers where it ends.
fn write_content(content: Payload<'_>, out: &mut [u8]) -> usize
    requires fits { IsContent (content_of content) }
    requires room { 17 + length (content_item (content_of content)) ≤ length out.old }
    ensures written { out.new ≡ written out.old 17 (content_item (content_of content.entry)) }
    ensures len { result ≡ 17 + length (content_item (content_of content.entry)) }
{
    match content {
        Payload::Small(bytes) => {
            write_small(bytes, out);
            BYTES + bytes.len()
        }
        Payload::Large(root) => {
            write_large(root, out);
            LARGE_LEN
        }
    }
}

/// Writes the item of a version over the first bytes, and answers how many they are.
pub fn write_version(version: &VersionItem<'_>, out: &mut [u8]) -> usize
    requires fits { IsContent (content_of version.now.content) }
    requires room { length (version_item (version_of version.now)) ≤ length out.old }
    ensures written { out.new ≡ version_item (version_of version.now) ++ drop result out.old }
    ensures len { result ≡ length (version_item (version_of version.now)) }
{
    put_u64(out, UNIQUE, version.unique);
    put_u8(out, STATE, state_byte(version.frozen));
    put_u64(out, OLDER, field_of(version.older));
    write_content(version.content, out)
}
