//! The head of a stream.
ghost use Rattle.std.specs.Prelude.{◌≡◌, ◌↔◌, ◌+◌, ◌≤◌, ◌++◌, length, take, drop, Some, None, MatchOption, IfSome, IfNone, IsTrue};
ghost use Rattle.ex_base.specs.Sizes.{leaf_bytes};
ghost use Rattle.history_model.specs.Stream.{StreamHead, HasHead, stream_magic, head_bytes, misfit_of, lack_of, bytes_most};
ghost use Rattle.history_items.specs.Heads.{stream_head};

use ex_base::{Area, Geometry, get_u32, get_u64, put_bytes, put_u32, put_u64};

/// The first eight bytes of a stream.
const MAGIC: &[u8; 8] = b"EXSMDMP1";

/// The bytes of a head.
pub const HEAD_LEN: usize = 52;

/// The bytes of a stream's item of a leaf that aren't the leaf's own.
const LEAF_HEAD: u64 = 4;

// Where the fields of a head stand.
const PAGE_SIZE: usize = 8;

const SEG_LEN: usize = 12;

const FAN: usize = 16;

const NEXT_UNIQUE: usize = 20;

const LAST: usize = 28;

const FILES: usize = 36;

const LEAVES: usize = 40;

const NODES: usize = 44;

const PAGES: usize = 48;

// By which numbers a misfit names the three sizes.
const PAGE_SIZE_FIELD: u8 = 1;

const SEG_LEN_FIELD: u8 = 2;

const FAN_FIELD: u8 = 3;

/// What the head of a stream says: the sizes of the volumes that it is for, the numbers of its table, and how much follows.
#[derive(Clone, Copy, Debug, PartialEq, Eq)]
pub struct Head {
    /// The bytes of a page.
    pub page_size: u32,
    /// The pages of a unit of the segment area.
    pub seg_len: u32,
    /// The least number of pairs of an inner node.
    pub fan: u32,
    /// The number that the next version gets.
    pub next_unique: u64,
    /// The number of the last transaction.
    pub last: u64,
    /// How many files follow.
    pub files: u32,
    /// How many leaves follow.
    pub leaves: u32,
    /// How many nodes follow.
    pub nodes: u32,
    /// How many pages of files and of their indexes a volume is to have room for.
    pub pages: u32,
}

/// The first of the three sizes that isn't the volume's.
#[derive(Clone, Copy, Debug, PartialEq, Eq)]
pub struct Misfit {
    /// Which one: 1 is the page size, 2 the unit length, 3 the fan.
    pub field: u8,
    /// What the stream has.
    pub dump: u32,
    /// What the volume has.
    pub volume: u32,
}

/// The first area that has fewer free units than a stream needs.
#[derive(Clone, Copy, Debug, PartialEq, Eq)]
pub struct Lack {
    pub area: Area,
    /// How many units the stream needs.
    pub need: u64,
    /// How many are free.
    pub free: u64,
}

/// Whether bytes begin with the magic of a stream.
fn has_magic(bytes: &[u8]) -> bool
    ensures { IsTrue result ↔ (take 8 bytes.now ≡ stream_magic) }
{
    bytes.starts_with(MAGIC)
}

impl Head {
    /// The head that bytes spell: none where they don't begin with the magic.
    pub fn of(bytes: &[u8]) -> Option<Head>
        requires { length bytes.now ≡ 52 }
        ensures found { IfSome result (λ head. HasHead bytes.now (stream_head head)) }
        ensures none { IfNone result ((head : StreamHead) → HasHead bytes.now head → ⊥) }
    {
        if !has_magic(bytes) {
            return None;
        }
        Some(Head {
            page_size: get_u32(bytes, PAGE_SIZE),
            seg_len: get_u32(bytes, SEG_LEN),
            fan: get_u32(bytes, FAN),
            next_unique: get_u64(bytes, NEXT_UNIQUE),
            last: get_u64(bytes, LAST),
            files: get_u32(bytes, FILES),
            leaves: get_u32(bytes, LEAVES),
            nodes: get_u32(bytes, NODES),
            pages: get_u32(bytes, PAGES),
        })
    }

    /// Writes the head over the first 52 bytes.
    pub fn write(&self, out: &mut [u8])
        requires { 52 ≤ length out.old }
        ensures { out.new ≡ head_bytes (stream_head self.now) ++ drop 52 out.old }
    {
        put_bytes(out, 0, MAGIC);
        put_u32(out, PAGE_SIZE, self.page_size);
        put_u32(out, SEG_LEN, self.seg_len);
        put_u32(out, FAN, self.fan);
        put_u64(out, NEXT_UNIQUE, self.next_unique);
        put_u64(out, LAST, self.last);
        put_u32(out, FILES, self.files);
        put_u32(out, LEAVES, self.leaves);
        put_u32(out, NODES, self.nodes);
        put_u32(out, PAGES, self.pages);
    }

    /// The first of the three sizes that isn't the volume's, if there is one.
    pub fn misfit(&self, geometry: &Geometry) -> Option<Misfit>
        ensures { MatchOption result (misfit_of geometry.now (stream_head self.now) ≡ None)
            (λ m. misfit_of geometry.now (stream_head self.now)
            ≡ Some (m.field, (m.dump, m.volume))) }
    {
        if self.page_size != geometry.page_size {
            return Some(Misfit {
                field: PAGE_SIZE_FIELD,
                dump: self.page_size,
                volume: geometry.page_size,
            });
        }
        if self.seg_len != geometry.seg_len {
            return Some(Misfit {
                field: SEG_LEN_FIELD,
                dump: self.seg_len,
                volume: geometry.seg_len,
            });
        }
        if self.fan != geometry.fan {
            return Some(Misfit {
                field: FAN_FIELD,
                dump: self.fan,
                volume: geometry.fan,
            });
        }
        None
    }

    /// The first area, of one with so many free pages and one with so many free units, that hasn't as many as the stream needs, if there is one.
    pub fn lack(&self, pages: u32, segs: u32) -> Option<Lack>
        ensures { MatchOption result (lack_of pages segs (stream_head self.now) ≡ None)
            (λ l. lack_of pages segs (stream_head self.now) ≡ Some (l.area, (l.need, l.free))) }
    {
        let need = u64::from(self.nodes) + u64::from(self.pages);
        if u64::from(pages) < need {
            return Some(Lack {
                area: Area::Page,
                need,
                free: u64::from(pages),
            });
        }
        if segs < self.leaves {
            return Some(Lack {
                area: Area::Segment,
                need: u64::from(self.leaves),
                free: u64::from(segs),
            });
        }
        None
    }

    /// The most bytes of a stream with this head that is a dump for volumes of these sizes.
    pub fn bytes_most(&self, geometry: &Geometry) -> u64
        ensures { result ≡ bytes_most geometry.now.page_size (leaf_bytes geometry.now)
            (stream_head self.now) }
    {
        let leaf = LEAF_HEAD + u64::from(geometry.leaf_bytes());
        let pages = u64::from(self.nodes) + u64::from(self.pages) + 1;
        HEAD_LEN as u64 + leaf * u64::from(self.leaves) + u64::from(geometry.page_size) * pages
    }
}
