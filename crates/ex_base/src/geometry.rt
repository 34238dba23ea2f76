//! The sizes of a volume's parts.
ghost use Rattle.std.specs.Prelude.{◌≡◌, ◌≤◌, ◌*◌, ◌↔◌, IsTrue, Some, None, IfOk, IfErr};
ghost use Rattle.ex_base.specs.Limits.{is_page_size, fan_most};

use crate::names::PageNo;
use thiserror::Error;

/// The most pages of the page area, and the most units of the segment area.
const UNITS_MOST: u32 = 4_000_000;

/// The most pages of one unit of the segment area.
const SEG_LEN_MOST: u32 = 16;

/// The bytes at the head of a node that hold no pair, with room for a later format.
const NODE_HEAD: u32 = 20;

/// The bytes that a fan of one more asks of a node: two pairs of twelve bytes.
const FAN_BYTES: u32 = 24;

/// The bytes of the catalog's page before its first entry.
pub const CATALOG_HEAD: u32 = 32;

/// The bytes of the catalog's entry of one file.
pub const CATALOG_ENTRY: u32 = 48;

/// The sizes that a volume is made with. Each geometry that there is keeps its limits.
#[derive(Clone, Copy, Debug, PartialEq, Eq)]
pub struct Geometry {
    /// The bytes of a page: 512, 1,024, 2,048, 4,096 or 8,192.
    pub page_size: u32,
    /// The pages of the page area: 1 to 4,000,000.
    pub pages: u32,
    /// The units of the segment area: 0 to 4,000,000.
    pub segs: u32,
    /// The pages of a unit of the segment area: 1 to 16.
    pub seg_len: u32,
    /// The least number of pairs of an inner node: 2 to what `fan_max` gives.
    pub fan: u32,
    pub ghost a_page_size: { IsTrue (is_page_size page_size) },
    pub ghost some_pages: { 1 ≤ pages },
    pub ghost few_pages: { pages ≤ 4000000 },
    pub ghost few_segs: { segs ≤ 4000000 },
    pub ghost some_length: { 1 ≤ seg_len },
    pub ghost short: { seg_len ≤ 16 },
    pub ghost two: { 2 ≤ fan },
    pub ghost narrow: { fan ≤ fan_most page_size },
}

/// The first number of a geometry that breaks its limit.
#[derive(Clone, Copy, Debug, PartialEq, Eq, Error)]
pub enum GeometryFault {
    #[error("page size")]
    PageSize = 1,
    #[error("pages")]
    Pages = 2,
    #[error("segs")]
    Segs = 3,
    #[error("seg len")]
    SegLen = 4,
    #[error("fan")]
    Fan = 5,
}

/// The largest fan of a page size: so many that a node of twice as many pairs and one fits its page.
pub fn fan_max(page_size: u32) -> u32
    requires { IsTrue (is_page_size page_size) }
    ensures { result ≡ fan_most page_size }
{
    (page_size - NODE_HEAD) / FAN_BYTES
}

impl Geometry {
    ghost use Rattle.ex_base.specs.Fault.{first_fault};
    ghost use Rattle.ex_base.specs.Area.{InPageArea, IsUnit, NamesLeaf};
    ghost use Rattle.ex_base.specs.Sizes.{files_most, leaf_bytes, volume_bytes};

    /// A geometry of these sizes, or the first that breaks its limit.
    pub fn make(
        page_size: u32,
        pages: u32,
        segs: u32,
        seg_len: u32,
        fan: u32,
    ) -> Result<Geometry, GeometryFault>
        ensures page_size { IfOk result (λ g. g.page_size ≡ page_size) }
        ensures pages { IfOk result (λ g. g.pages ≡ pages) }
        ensures segs { IfOk result (λ g. g.segs ≡ segs) }
        ensures seg_len { IfOk result (λ g. g.seg_len ≡ seg_len) }
        ensures fan { IfOk result (λ g. g.fan ≡ fan) }
        ensures accepted { IfOk result (λ _. first_fault page_size pages segs seg_len fan ≡ None) }
        ensures refused { IfErr result (λ e. first_fault page_size pages segs seg_len fan
            ≡ Some e) }
    {
        if !matches!(page_size, 512 | 1024 | 2048 | 4096 | 8192) {
            return Err(GeometryFault::PageSize);
        }
        if pages < 1 || pages > UNITS_MOST {
            return Err(GeometryFault::Pages);
        }
        if segs > UNITS_MOST {
            return Err(GeometryFault::Segs);
        }
        if seg_len < 1 || seg_len > SEG_LEN_MOST {
            return Err(GeometryFault::SegLen);
        }
        if fan < 2 || fan > fan_max(page_size) {
            return Err(GeometryFault::Fan);
        }
        Ok(Geometry {
            page_size,
            pages,
            segs,
            seg_len,
            fan,
        })
    }

    /// The bytes of a leaf that is full.
    pub fn leaf_bytes(&self) -> u32
        ensures { result ≡ leaf_bytes self.now }
    {
        self.seg_len * self.page_size
    }

    /// The bytes of the whole volume.
    pub fn volume_bytes(&self) -> u64
        ensures { result ≡ volume_bytes self.now }
    {
        let units = self.segs as u64 * self.seg_len as u64;
        (PageNo::CATALOG.0 as u64 + self.pages as u64 + units) * self.page_size as u64
    }

    /// The files that a catalog page has room for.
    pub fn files_most(&self) -> u32
        ensures { result ≡ files_most self.now }
    {
        (self.page_size - CATALOG_HEAD) / CATALOG_ENTRY
    }

    /// Whether a page lies in the page area.
    pub fn in_page_area(&self, page: PageNo) -> bool
        ensures { IsTrue result ↔ InPageArea self.now page.0 }
    {
        PageNo::CATALOG.0 <= page.0 && page.0 - PageNo::CATALOG.0 < self.pages
    }

    /// Whether a page is the first one of a unit of the segment area.
    pub fn names_leaf(&self, page: PageNo) -> bool
        ensures { IsTrue result ↔ NamesLeaf self.now page.0 }
    {
        let first = PageNo::CATALOG.0 + self.pages;
        if page.0 < first {
            return false;
        }
        let offset = page.0 - first;
        // Units of one page, which most volumes have, cost no division.
        if self.seg_len == 1 {
            return offset < self.segs;
        }
        offset % self.seg_len == 0 && offset / self.seg_len < self.segs
    }

    /// Whether a page names a unit: it lies in the page area, or is the first one of a unit of the segment area.
    pub fn names_unit(&self, page: PageNo) -> bool
        ensures { IsTrue result ↔ IsUnit self.now page.0 }
    {
        self.in_page_area(page) || self.names_leaf(page)
    }

    /// The byte of the volume at which a page lies.
    pub fn home(&self, page: PageNo) -> u64
        ensures { result ≡ page.0 * self.now.page_size }
    {
        page.0 as u64 * self.page_size as u64
    }
}
