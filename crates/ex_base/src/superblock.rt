//! The superblock, the first page of a volume.
ghost use Rattle.std.specs.Prelude.{◌≡◌, ◌↔◌, IsTrue, length, take, IfSome, IfNone};
ghost use Rattle.ex_base.specs.Superblock.{format_now, magic, super_page, IsFormat, IsSuper};
ghost use Rattle.ex_base.specs.declared.geometry.Geometry.{Geometry};

use crate::fields::{get_u32, is_zero, put_u32};
use crate::geometry::Geometry;

/// The first eight bytes of a volume.
const MAGIC: &[u8; 8] = b"EXSMVOL1";

/// The number of the format in which volumes are made.
const FORMAT: u32 = 2;

/// The number of the oldest format whose volumes are read.
const OLDEST_FORMAT: u32 = 1;

/// The bytes of a superblock that hold its fields. The rest is zero.
const HEAD: usize = 32;

/// Writes the superblock of a volume: the magic, the five sizes and the format, each a number of four bytes, and zeros.
pub fn write_super(geometry: &Geometry, out: &mut [u8])
    requires { length out.old ≡ geometry.now.page_size }
    ensures { out.new ≡ super_page format_now geometry.now }
{
    out.fill(0);
    out[..8].copy_from_slice(MAGIC);
    put_u32(out, 8, geometry.page_size);
    put_u32(out, 12, geometry.pages);
    put_u32(out, 16, geometry.segs);
    put_u32(out, 20, geometry.seg_len);
    put_u32(out, 24, geometry.fan);
    put_u32(out, 28, FORMAT);
}

/// Whether bytes begin with the magic of a volume.
pub fn has_magic(bytes: &[u8]) -> bool
    ensures { IsTrue result ↔ (take 8 bytes.now ≡ magic) }
{
    bytes.starts_with(MAGIC)
}

/// Whether volumes of a format are read.
fn is_format(number: u32) -> bool
    ensures { IsTrue result ↔ IsFormat number }
{
    OLDEST_FORMAT <= number && number <= FORMAT
}

/// The geometry that a superblock names: none where the page isn't a superblock of a format that is read, or names sizes that break their limits.
pub fn read_super(page: &[u8]) -> Option<Geometry>
    ensures found { IfSome result (IsSuper page.now) }
    ensures none { IfNone result ((g : Geometry) → IsSuper page.now g → ⊥) }
{
    if page.len() < HEAD || !has_magic(page) || !is_format(get_u32(page, 28)) {
        return None;
    }
    let page_size = get_u32(page, 8);
    if page.len() != page_size as usize || !is_zero(&page[HEAD..]) {
        return None;
    }
    let pages = get_u32(page, 12);
    let segs = get_u32(page, 16);
    let seg_len = get_u32(page, 20);
    let fan = get_u32(page, 24);
    match Geometry::make(page_size, pages, segs, seg_len, fan) {
        Ok(geometry) => Some(geometry),
        Err(_) => None,
    }
}
