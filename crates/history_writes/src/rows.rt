//! The pages of a file, read and written again with the links of their records.
ghost use Rattle.std.specs.Prelude.{◌≡◌, ◌≤◌, ◌<◌, ◌+◌, length, Err, OnOk, IfOk};
ghost use Rattle.std.specs.List.{AllByRecursion};
ghost use Rattle.disk_model.specs.Changes.{ChangesWithin};
ghost use Rattle.disk_model.specs.Outside.{Rose};
ghost use Rattle.ex_base.specs.Area.{InPageArea, area_end, catalog_no};
ghost use Rattle.ex_base.specs.Sizes.{volume_bytes};
ghost use Rattle.history_writes.specs.Linked.{CountsRecords, HasNoRows, HasNone, HaveFields, IsDesk, LinksPage, LinksPages};
ghost use Rattle.tree_store.specs.Stored.{InUnit};
ghost use Rattle.history_writes.specs.Places.{InPagesFrom};

use crate::page_links::copy_linked;
use disk_model::{Disk, Failed};
use ex_base::{Geometry, PageNo};
use history_links::Links;

/// Why records didn't get their links.
#[derive(Clone, Copy, Debug, PartialEq, Eq)]
pub enum LinkFault {
    /// The disk failed: its count of faults rose.
    Disk,
    /// On a page don't stand records of a file that may have these links.
    Bad,
}

impl From<Failed> for LinkFault {
    ghost use Rattle.history_writes.specs.declared.rows.LinkFault.TheVariants.{Disk};

    ghost from_gives = { λ _ fault. fault ≡ Disk };

    fn from(_: Failed) -> LinkFault {
        LinkFault::Disk
    }
}

/// Room for a page that is read, one that is written, and a record: each as large as a page.
#[derive(Drop)]
pub struct Desk {
    pub read: Vec<u8>,
    pub page: Vec<u8>,
    pub record: Vec<u8>,
}

/// Writes a page again with the links of its records, and answers how many records it has. It is read into `read` and made in `into`, each record in `body`.
fn link_page<D: Disk>(
    disk: &mut D,
    geometry: &Geometry,
    page: PageNo,
    links: &[Links],
    read: &mut [u8],
    into: &mut [u8],
    body: &mut [u8],
) -> Result<usize, LinkFault>
    requires room { volume_bytes geometry.now ≤ (D.outside disk.old).size }
    requires area { InPageArea geometry.now page.0 }
    requires fields { AllByRecursion HaveFields links.now }
    requires read { length read.old ≡ geometry.now.page_size }
    requires into { length into.old ≡ geometry.now.page_size }
    requires body { length body.old ≡ geometry.now.page_size }
    ensures linked { OnOk result (LinksPage geometry.now (D.outside disk.old)
        (D.outside disk.new) page.0 links.now) }
    ensures count { IfOk result (CountsRecords geometry.now (D.outside disk.old) page.0) }
    ensures few { IfOk result (λ count. count ≤ length links.now) }
    ensures bad { result ≡ Err LinkFault.Bad
        → HasNone geometry.now (D.outside disk.old) page.0 links.now }
    ensures changes { ChangesWithin (InUnit geometry.now page.0) (D.outside disk.old)
        (D.outside disk.new) }
    ensures cause { result ≡ Err LinkFault.Disk
        → Rose (D.outside disk.old).disk_faults (D.outside disk.new).disk_faults }
{
    disk.read(geometry.home(page), read)?;
    let Some(count) = copy_linked(read, links, body, into) else {
        return Err(LinkFault::Bad);
    };
    disk.write(geometry.home(page), into)?;
    Ok(count)
}

/// Writes so many pages in a row again, each with the links of its records, which come one behind the other.
pub fn link_pages<D: Disk>(
    disk: &mut D,
    geometry: &Geometry,
    first: PageNo,
    pages: u32,
    links: &[Links],
    desk: &mut Desk,
) -> Result<(), LinkFault>
    requires room { volume_bytes geometry.now ≤ (D.outside disk.old).size }
    requires behind { catalog_no < first.0 }
    requires there { first.0 + pages ≤ area_end geometry.now }
    requires fields { AllByRecursion HaveFields links.now }
    requires desk { IsDesk geometry.now desk.old }
    ensures linked { OnOk result (LinksPages geometry.now (D.outside disk.old)
        (D.outside disk.new) first.0 pages links.now) }
    ensures desk { IsDesk geometry.now desk.new }
    ensures bad { result ≡ Err LinkFault.Bad
        → HasNoRows geometry.now (D.outside disk.old) first.0 pages links.now }
    ensures changes { ChangesWithin (InPagesFrom geometry.now first.0) (D.outside disk.old)
        (D.outside disk.new) }
    ensures cause { result ≡ Err LinkFault.Disk
        → Rose (D.outside disk.old).disk_faults (D.outside disk.new).disk_faults }
{
    let mut done = 0;
    'pages: for index in 0..pages {
        let page = PageNo(first.0 + index);
        let left = &links[done..];
        done += link_page(
            disk,
            geometry,
            page,
            left,
            &mut desk.read,
            &mut desk.page,
            &mut desk.record,
        )?;
    }
    Ok(())
}
