// What the catalog says of a volume.
ghost use Rattle.std.specs.Prelude.{◌≡◌, ◌+◌, ◌++◌, map, IfErr, IfOk, IfSome, IfNone};
ghost use Rattle.ex_base.specs.Area.{catalog_no};
ghost use Rattle.ex_base.specs.Ports.{Keeps, HasCause, IsDamage};
ghost use Rattle.object_files.specs.Catalog.{Catalog, CatalogOf, number_of};
ghost use Rattle.object_files.specs.Reads.{catalog_on};
ghost use Rattle.history_plans.specs.Files.{IsContentsOf};

use crate::faults::NO_CATALOG;
use ex_base::{PageNo, PortFault, ReadVolume};
use object_files::CatalogView;
use std::alloc::{AllocError, Global};

/// The numbers of a volume's table, and those of its files in the order of their names.
#[derive(Drop)]
pub(crate) struct Contents {
    pub next_unique: u64,
    pub last: u64,
    pub files: Vec<u32>,
}

/// The numbers of the files.
fn numbers_of(alloc: Global, catalog: &CatalogView<'_>) -> Result<Vec<u32>, AllocError>
    ensures { IfOk result (λ numbers. numbers.items ≡ map number_of catalog.now.entries) }
{
    let mut numbers = Vec::new(alloc);
    for index in 0..catalog.len() {
        numbers.push(catalog.entry(index).file_no)?;
    }
    Ok(numbers)
}

/// What the catalog on a page says, where it is one.
fn contents_on(alloc: Global, page: &[u8]) -> Result<Option<Contents>, AllocError>
    ensures found { IfOk result (λ found. IfSome found
        (λ contents. IsContentsOf (catalog_on page.now) contents)) }
    ensures none { IfOk result (λ found. IfNone found
        ((c : Catalog) → CatalogOf page.now c → ⊥)) }
{
    let Some(catalog) = CatalogView::of(page) else {
        return Ok(None);
    };
    let files = numbers_of(alloc, &catalog)?;
    Ok(Some(Contents {
        next_unique: catalog.next_unique(),
        last: catalog.last_txn(),
        files,
    }))
}

/// What the catalog of a volume says.
pub(crate) fn read_contents<V: ReadVolume>(
    volume: &mut V,
    alloc: Global,
) -> Result<Contents, PortFault>
    requires { V.ready volume.old }
    ensures found { IfOk result (λ contents. V.tells volume.old
        → IsContentsOf (catalog_on (V.image volume.old catalog_no)) contents) }
    ensures sound { IfErr result (λ fault. IsDamage fault → V.tells volume.old → (c : Catalog)
        → CatalogOf (V.image volume.old catalog_no) c → ⊥) }
    ensures kept { Keeps V.Ground volume.old volume.new }
    ensures cause { HasCause (V.faults volume.old) (V.faults volume.new) result }
{
    let page = match volume.get(alloc, PageNo::CATALOG) {
        Ok(page) => page,
        Err(fault) => return Err(fault),
    };
    match contents_on(alloc, page) {
        Ok(Some(contents)) => Ok(contents),
        Ok(None) => Err(NO_CATALOG),
        Err(_) => Err(PortFault::Memory),
    }
}
