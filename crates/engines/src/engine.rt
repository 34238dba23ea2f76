//! What a run needs of a session.
ghost use Rattle.std.specs.Prelude.{◌≡◌, ◌≢◌, ◌⊎◌, ℕ, Err, IsTrue, IfOk, OnOk};
ghost use Rattle.disk_model.specs.Outside.{DiskOnly, Leaves, ReadsOnly, Rose};
ghost use Rattle.table_model.specs.Requests.{request_of, is_request};
ghost use Rattle.table_model.specs.Requests as request;
ghost use Rattle.session_views.specs.View.{View, Meaning, ShowsNow, Stepped, StandsDuring};
ghost use Rattle.engines.specs.Keeping.{Keeping};

use disk_model::Host;
use ex_base::{PageNo, Seen};
use session_views::Stop;
use std::alloc::Global;
use table_model::{Command, Reply};

/// A session that steps on commands.
pub trait Engine {
    /// When a session shows a volume, and what it decides.
    ghost meaning: { Meaning Self };

    /// No step of it met a fault.
    ghost up: { Self → Type 0 };

    /// A disk of so many bytes is as large as the volume that it was opened on.
    ghost fits: { Self → ℕ → Type 0 };

    /// What each of its steps keeps.
    ghost keeps: { Keeping Self };

    /// Steps on a command, to its reply. Refusals are replies. A fault of the disk that came meanwhile is told, in place of anything else.
    fn step<H: Host>(
        &mut self,
        alloc: Global,
        host: &mut H,
        command: &Command<'_>,
    ) -> Result<Reply, Stop>
        requires form { IsTrue (is_request (request_of command.now)) }
        requires room { fits self.old (H.outside host.old).size }
        ensures room { fits self.new (H.outside host.new).size }
        ensures only { DiskOnly (H.outside host.old) (H.outside host.new) }
        ensures disk { result ≡ Err Stop.Disk
            → Rose (H.outside host.old).disk_faults (H.outside host.new).disk_faults }
        ensures told { result ≢ Err Stop.Disk
            → (H.outside host.new).disk_faults ≡ (H.outside host.old).disk_faults }
        ensures damaged { (page : PageNo) (want got : Seen)
            → result ≡ Err (Stop.Damaged page want got) → want ≢ got }

        // Whatever it gives, it keeps what its steps keep.
        ensures kept { keeps self.old self.new (H.outside host.old) (H.outside host.new)
            (request_of command.now) result }

        // From a view that shows to a view that shows, by the machine's step.
        ensures stepped { (before : View Self) → before.session ≡ self.old
            → ShowsNow meaning (H.outside host.old) before
            → IfOk result (λ told. Stepped meaning before (request_of command.now) told self.new
            (H.outside host.new)) }

        // Where it shows, nothing but a fault of the disk or want of memory stops it.
        ensures sound { (before : View Self) (stop : Stop) → before.session ≡ self.old
            → ShowsNow meaning (H.outside host.old) before
            → result ≡ Err stop → (stop ≡ Stop.Disk) ⊎ (stop ≡ Stop.Memory) }

        // A crash at any moment leaves the committed table before it, or in a commit that one or the next.
        ensures any_moment { (before : View Self) → before.session ≡ self.old
            → ShowsNow meaning (H.outside host.old) before
            → Leaves (H.outside host.old) (H.outside host.new) (StandsDuring meaning before.machine
            (request_of command.now)) }

        // A checkpoint takes no memory. A commit that wants some did nothing but read.
        ensures takes_none { request_of command.now ≡ request.Checkpoint
            → result ≡ Err Stop.Memory → ⊥ }
        ensures unwritten { request_of command.now ≡ request.Commit → result ≡ Err Stop.Memory
            → ReadsOnly (H.outside host.old) (H.outside host.new) }

        // Only a session that isn't up says that it is down, and one that replied is up.
        ensures was_down { result ≡ Err Stop.Down → up self.old → ⊥ }
        ensures stays_up { OnOk result (up self.new) };
}
