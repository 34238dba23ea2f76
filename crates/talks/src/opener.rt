//! What a run needs of the opening of a volume.
ghost use Rattle.std.specs.Prelude.{◌≡◌, ◌≢◌, List, ℕ, Some, Err, IsTrue, IfOk, OnOk, Option};
ghost use Rattle.disk_model.specs.Outside.{DiskOnly, Leaves, Only, Rose, WritesNothing, Outside};
ghost use Rattle.std.specs.Result.{result_err};
ghost use Rattle.table_model.specs.declared.table.Table.{Table};
ghost use Rattle.session_views.specs.declared.OpenFault.{OpenFault};
ghost use Rattle.session_views.specs.declared.Part.{Part};
ghost use Rattle.session_views.specs.Opening.{StandsOpening};
ghost use Rattle.session_views.specs.View.{View};
ghost use Rattle.talks.specs.Opening.{Opened};

use disk_model::Host;
use engines::Engine;
use session_views::OpenFault;
use std::alloc::Global;

/// A session that is opened on a volume.
pub trait Opener: Engine {
    /// The view is of a session that was just opened: no record of the log counts, and in use is exactly what the volume reaches.
    ghost fresh: { View Self → Type 0 };

    /// What an opening does: of what stood outside before it and after it, and of the fault that it answers, if one.
    ghost opens: { Outside → Outside → Option OpenFault → Type 0 };

    /// Opens the volume on the disk. It begins with a sync. A fault of the disk that came meanwhile is told, in place of anything else.
    fn open<H: Host>(alloc: Global, host: &mut H) -> Result<Self, OpenFault>
        ensures only { DiskOnly (H.outside host.old) (H.outside host.new) }
        ensures disk { result ≡ Err OpenFault.Disk
            → Rose (H.outside host.old).disk_faults (H.outside host.new).disk_faults }
        ensures told { result ≢ Err OpenFault.Disk
            → (H.outside host.new).disk_faults ≡ (H.outside host.old).disk_faults }

        // Ok exactly where the volume, as it reads, stands for a table, and then the session is up, fits the disk and shows it, as it was just opened.
        ensures opened { OnOk result ((image : List ℕ) → (H.outside host.old).disk ≡ Some image
            → (table : Table) × Self.meaning.StandsFor image table) }
        ensures up { IfOk result (λ session. Self.up session) }
        ensures room { IfOk result (λ session. Self.fits session (H.outside host.new).size) }
        ensures shows { (image : List ℕ) (table : Table) → IsTrue (H.outside host.old).honest
            → (H.outside host.old).disk ≡ Some image → Self.meaning.StandsFor image table
            → IfOk result (λ session. Opened Self.meaning fresh table session
            (H.outside host.new)) }
        ensures bad { (part : Part) → result ≡ Err (OpenFault.BadVolume part) → (image : List ℕ)
            → (H.outside host.old).disk ≡ Some image
            → Self.meaning.FirstBad image part }

        // A volume of which a part fails isn't written, whatever is answered; where it is answered, nothing is pending besides.
        ensures left { (image : List ℕ) (part : Part) → (H.outside host.old).disk ≡ Some image
            → Self.meaning.FirstBad image part
            → WritesNothing (H.outside host.old) (H.outside host.new) }
        ensures unwritten { (part : Part) → result ≡ Err (OpenFault.BadVolume part)
            → WritesNothing (H.outside host.old) (H.outside host.new) }
        ensures kept { (part : Part) → result ≡ Err (OpenFault.BadVolume part)
            → IsTrue (H.outside host.old).honest → (image : List ℕ)
            → (H.outside host.old).disk ≡ Some image
            → ((H.outside host.new).disk ≡ Some image) × Only image (H.outside host.new).images }

        // A crash at any moment of it leaves what could be left before, or the volume as it reads, or what stands for the same table.
        ensures any_moment { (image : List ℕ) → IsTrue (H.outside host.old).honest
            → (H.outside host.old).disk ≡ Some image
            → Leaves (H.outside host.old) (H.outside host.new) (StandsOpening Self.meaning
            (H.outside host.old).images image) }

        // Whatever it answers, it did what openings do.
        ensures does { opens (H.outside host.old) (H.outside host.new) (result_err result) };
}
