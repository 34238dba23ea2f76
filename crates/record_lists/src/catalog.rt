//! The index of a file, as the catalog has it.
ghost use Rattle.std.specs.Prelude.{◌≡◌, Some, IfOk, IfErr, IfSome, IfNone};
ghost use Rattle.ex_base.specs.Ports.{Keeps, HasCause, IsDamage};
ghost use Rattle.ex_base.specs.declared.names.Index.{Index};
ghost use Rattle.file_bodies.specs.Files.{HasFile, index_at, index_in};
ghost use Rattle.object_files.specs.Edits.{IsCatalogPage, entries_on};

use ex_base::{Index, PageNo, PortFault, ReadVolume, Seen};
use object_files::CatalogView;
use std::alloc::Global;

/// The fault of a catalog that is outside of its grammar, or has no such file.
const NO_FILE: PortFault = PortFault::Damaged {
    page: PageNo::CATALOG,
    want: Seen::CATALOG,
    got: Seen::NOTHING,
};

/// The index in the entry of a file, where a catalog that has one stands on the page.
fn index_on(page: &[u8], file_no: u32) -> Option<Index>
    ensures some { IfSome result (λ index. index_in file_no (entries_on page.now) ≡ Some index) }
    ensures none { IfNone result (IsCatalogPage page.now → (index : Index)
        → index_in file_no (entries_on page.now) ≡ Some index → ⊥) }
{
    let view = CatalogView::of(page)?;
    for at in 0..view.len() {
        let entry = view.entry(at);
        if entry.file_no == file_no {
            return Some(Index {
                root: entry.root,
                level: entry.level,
                file_no,
            });
        }
    }
    None
}

/// The index of a file. Damage is told only where there is no such file.
pub(crate) fn index_of<V: ReadVolume>(
    volume: &mut V,
    alloc: Global,
    file_no: u32,
) -> Result<Index, PortFault>
    requires { V.ready volume.old }
    ensures found { IfOk result (λ index. V.tells volume.old
        → index_at (V.image volume.old) file_no ≡ Some index) }
    ensures sound { IfErr result (λ fault. IsDamage fault → V.tells volume.old → (index : Index)
        → HasFile V.Ground volume.old index → index.file_no ≡ file_no → ⊥) }
    ensures kept { Keeps V.Ground volume.old volume.new }
    ensures cause { HasCause (V.faults volume.old) (V.faults volume.new) result }
{
    let page = volume.get(alloc, PageNo::CATALOG)?;
    match index_on(page, file_no) {
        Some(index) => Ok(index),
        None => Err(NO_FILE),
    }
}
