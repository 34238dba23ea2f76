//! The head of a stream, tested.
ghost use Rattle.std.specs.Prelude.{◌≡◌, ◌-◌, ◌/◌, length, None, IfErr, IfOk, Err};
ghost use Rattle.ex_base.specs.Sizes.{files_most};
ghost use Rattle.history_model.specs.Stream.{HasHead, lack_of};
ghost use Rattle.history_items.specs.Heads.{stream_head};
ghost use Rattle.history_fronts.specs.Fronts.{IsDumpHead};
ghost use Rattle.history_reads.specs.Heads.{HeadRefused};
ghost use Rattle.history_reads.specs.Reads.{CantBeRead};

use ex_base::{CATALOG_ENTRY, CATALOG_HEAD, Geometry};
use history_items::{Head, Lack, Misfit};

/// Why a stream isn't read behind its head.
#[derive(Clone, Copy, Debug, PartialEq, Eq)]
pub enum HeadFault {
    /// No dump begins so.
    Bad,
    /// The stream is for volumes of another size.
    Misfit(Misfit),
    /// An area has fewer free units than the stream needs.
    NoRoom(Lack),
}

/// How many files a volume has room for.
fn most_files(geometry: &Geometry) -> u32
    ensures { result ≡ files_most geometry.now }
{
    (geometry.page_size - CATALOG_HEAD) / CATALOG_ENTRY
}

/// The head that the first 52 bytes of a stream are, which may be that of a dump for the volume, and has room in areas with so many free pages and units. Of several
/// faults a size of another volume comes first, and then want of room.
pub fn test_head(
    bytes: &[u8],
    geometry: &Geometry,
    pages: u32,
    segs: u32,
) -> Result<Head, HeadFault>
    requires { length bytes.now ≡ 52 }
    ensures has { IfOk result (λ head. HasHead bytes.now (stream_head head)) }
    ensures is { IfOk result (λ head. IsDumpHead geometry.now (stream_head head)) }
    ensures room { IfOk result (λ head. lack_of pages segs (stream_head head) ≡ None) }
    ensures refused { IfErr result (HeadRefused geometry.now pages segs bytes.now) }
    ensures bad { result ≡ Err HeadFault.Bad → CantBeRead geometry.now bytes.now }
{
    let Some(head) = Head::of(bytes) else {
        return Err(HeadFault::Bad);
    };
    if let Some(misfit) = head.misfit(geometry) {
        return Err(HeadFault::Misfit(misfit));
    }
    if let Some(lack) = head.lack(pages, segs) {
        return Err(HeadFault::NoRoom(lack));
    }
    if head.next_unique < 1 || head.files > most_files(geometry) {
        return Err(HeadFault::Bad);
    }
    Ok(head)
}
