//! The top call: what a command line does to a host.
ghost use Rattle.std.specs.Prelude.{◌≡◌, ◌≢◌, ◌⊎◌, List, ℕ, IsTrue};
ghost use Rattle.disk_model.specs.Outside.{Rose, Goes, ReadsOnly};
ghost use Rattle.ex_base.specs.declared.names.PageNo.{PageNo};
ghost use Rattle.ex_base.specs.declared.faults.Seen.{Seen};
ghost use Rattle.command_words.specs.Wishes.{texts, Asks, IsOutside};
ghost use Rattle.exsm_run.specs.Promises.{Promise};
ghost use Rattle.exsm_run.specs.Status.{IsRefusal};

use crate::check::checked;
use crate::dump::dumped;
use crate::format::format;
use crate::generate::generate;
use crate::load::loaded;
use crate::pack::packed;
use crate::script::run_script;
use crate::session::VolumeSession;
use crate::status::Status;
use clients::Schedule;
use command_words::{Wish, wish_of};
use disk_model::Host;
use runs::Script;
use std::alloc::Global;

/// Does on the host what the words of a command line ask for, and says how it ended.
pub fn run<H: Host>(alloc: Global, words: &[String], host: &mut H) -> Status
    ensures goes { Goes (H.outside host.old) (H.outside host.new) }

    // The words are refused exactly where they are outside of the grammar, but for want of memory, and then nothing is called on the host.
    ensures usage { result ≡ Status.Usage → IsOutside (texts words.now) }
    ensures outside { IsOutside (texts words.now)
        → (result ≡ Status.Usage) ⊎ (result ≡ Status.Memory) }
    ensures untouched { IsOutside (texts words.now) → host.new ≡ host.old }

    // A fault is answered only where the count of such faults rose, and one of the disk is answered wherever it rose.
    ensures script_fault { result ≡ Status.ScriptFault
        → Rose (H.outside host.old).read_faults (H.outside host.new).read_faults }
    ensures output_fault { result ≡ Status.OutputFault
        → Rose (H.outside host.old).write_faults (H.outside host.new).write_faults }
    ensures disk_fault { result ≡ Status.DiskFault
        → Rose (H.outside host.old).disk_faults (H.outside host.new).disk_faults }
    ensures told { result ≢ Status.DiskFault
        → (H.outside host.new).disk_faults ≡ (H.outside host.old).disk_faults }

    // What a read gave isn't what the page that names it says.
    ensures damaged { (page : PageNo) (want got : Seen) → result ≡ Status.Damaged page want got
        → want ≢ got }

    // A command that is refused sends nothing and leaves the disk, and each image of a moment of it was an image already.
    ensures refused { IsRefusal result → ReadsOnly (H.outside host.old) (H.outside host.new) }
    ensures refused_images { IsRefusal result → IsTrue (H.outside host.old).honest → (s d : List ℕ)
        → (H.outside host.new).moments (H.outside host.old).clock s d
        → (H.outside host.old).images d }

    // What the command that they ask for promises, but where the words couldn't be read for want of memory: then nothing is called on the host.
    ensures does { (wish : Wish) → Asks (texts words.now) wish
        → Promise H.outside wish (H.outside host.old) (H.outside host.new) result
        ⊎ ((result ≡ Status.Memory) × (host.new ≡ host.old)) }
{
    let asked = match wish_of(alloc, words) {
        Ok(asked) => asked,
        Err(_) => return Status::Memory,
    };
    match asked {
        Some(wish) => fulfil(alloc, host, wish),
        None => Status::Usage,
    }
}

// Does what is asked for.
fn fulfil<H: Host>(alloc: Global, host: &mut H, wish: Wish) -> Status
    ensures goes { Goes (H.outside host.old) (H.outside host.new) }
    ensures never { result ≡ Status.Usage → ⊥ }
    ensures script_fault { result ≡ Status.ScriptFault
        → Rose (H.outside host.old).read_faults (H.outside host.new).read_faults }
    ensures output_fault { result ≡ Status.OutputFault
        → Rose (H.outside host.old).write_faults (H.outside host.new).write_faults }
    ensures disk_fault { result ≡ Status.DiskFault
        → Rose (H.outside host.old).disk_faults (H.outside host.new).disk_faults }
    ensures told { result ≢ Status.DiskFault
        → (H.outside host.new).disk_faults ≡ (H.outside host.old).disk_faults }
    ensures damaged { (page : PageNo) (want got : Seen) → result ≡ Status.Damaged page want got
        → want ≢ got }
    ensures refused { IsRefusal result → ReadsOnly (H.outside host.old) (H.outside host.new) }
    ensures promise { Promise H.outside wish (H.outside host.old) (H.outside host.new) result }
{
    match wish {
        Wish::Format(geometry) => format(alloc, host, &geometry),
        Wish::Run { most } => run_script::<VolumeSession, Script, H>(alloc, host, most),
        Wish::Check => checked(alloc, host),
        Wish::Gen { seed, count } => generate(alloc, host, seed, count),
        Wish::Clients { most } => run_script::<VolumeSession, Schedule, H>(alloc, host, most),
        Wish::Dump => dumped(alloc, host),
        Wish::Load => loaded(alloc, host),
        Wish::Pack => packed(alloc, host),
    }
}
