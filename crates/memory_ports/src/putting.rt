//! Images for pages that a volume may lack.
ghost use Rattle.std.specs.Prelude.{◌≡◌, IfOk, IsTrue};

use ex_base::{Area, PageNo, PortFault, Volume};
use std::alloc::Global;

/// Puts an image onto a page. Where the volume lacks the page, free pages are taken before, from the lowest on, until it has it; these hold zeros. False
/// where the page lies outside of the page area, the image isn't as long as a page, or no free page is left.
///
/// # Errors
/// Those of the port; `Memory` for want of memory.
pub fn put_at<V: Volume>(
    volume: &mut V,
    alloc: Global,
    page: PageNo,
    image: &[u8],
) -> Result<bool, PortFault>
    requires { V.ready volume.old }
    ensures put { IfOk result (λ done. IsTrue done → V.tells volume.old
        → V.image volume.new page.0 ≡ image.now) }
    ensures leads { V.leads volume.old volume.new }
{
    let blank = vec![in alloc; 0u8; image.len()]?;
    'taking: while volume.in_area(page) && volume.page_size() as usize == image.len() {
        if volume.has(page) {
            volume.put(alloc, page, image)?;
            return Ok(true);
        }
        if volume.free(Area::Page) == 0 {
            break;
        }
        volume.take_page(alloc, &blank)?;
    }
    Ok(false)
}
