// Faults of the walk.
ghost use Rattle.std.specs.Prelude.{◌≡◌, ℕ};
ghost use Rattle.ex_base.specs.Faults.{Rose};
ghost use Rattle.ex_base.specs.Ports.{Cause, IsDamage};

use ex_base::PortFault;
use session_views::{OpenFault, Part};

/// A tree that fails its nodes.
pub(crate) const BAD_NODE: OpenFault = OpenFault::BadVolume { part: Part::Node };

/// A tree that fails its balance.
pub(crate) const BAD_BALANCE: OpenFault = OpenFault::BadVolume {
    part: Part::Balance,
};

/// The fault of an opening for one of a port. No port answers `Damaged`.
pub(crate) fn open_fault(fault: PortFault) -> OpenFault
    requires { IsDamage fault → ⊥ }
    ensures fine { (part : Part) → result ≡ OpenFault.BadVolume part → ⊥ }
    ensures disk { (before now : ℕ) → Cause before now fault → result ≡ OpenFault.Disk
        → Rose before now }
{
    match fault {
        PortFault::Memory => OpenFault::Memory,
        PortFault::Disk => OpenFault::Disk,
        PortFault::Damaged { .. } => unreachable!(),
    }
}
