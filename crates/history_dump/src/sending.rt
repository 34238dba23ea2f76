//! The sending of a volume's stream.
ghost use Rattle.std.specs.Prelude.{◌≡◌, ◌≢◌, ◌≤◌, ◌<◌, ◌+◌, ◌-◌, ◌^◌, ◌++◌, ℕ, List, min, length, take, Some, IfErr, IfOk, OnErr, OnOk, MatchResult, Ok, Err, vec_len};
ghost use Rattle.ex_base.specs.Bytes.{part};
ghost use Rattle.ex_base.specs.Ports.{HasCause, IsDamage};
ghost use Rattle.history_dump.specs.Sending.{ReadsAndSends, SendsFew, SendsWhole, SendsFront, DumpCause, IsSending, KeepsRest, TellsDamage, dump_fault};
ghost use Rattle.history_items.specs.Gathering.{item_most};
ghost use Rattle.history_model.specs.History.{History};
ghost use Rattle.history_model.specs.Stream.{stream_of};
ghost use Rattle.volume_model.specs.Volume.{Decoded, table_of, units_of};
ghost use Rattle.volume_port.specs.Reading.{CanRead};
ghost use Rattle.volume_port.specs.State.{IsAtRest};

use crate::dumper::Dumper;
use crate::fault::DumpFault;
use disk_model::{Disk, Host, send_all};
use ex_base::PortFault;
use std::alloc::{AllocError, Global};
use volume_port::{MAIN, PageRoom, ReadingPort, VolumeState};

/// The most bytes that are sent at once.
const PIECE: usize = 65_536;

/// What is told of a fault of a port.
fn told_of(fault: PortFault) -> DumpFault
    ensures { result ≡ dump_fault fault }
{
    match fault {
        PortFault::Disk => DumpFault::Disk,
        PortFault::Memory => DumpFault::Memory,
        PortFault::Damaged { page, want, got } => DumpFault::Damaged { page, want, got },
    }
}

/// Room for a piece.
fn piece_room(alloc: Global) -> Result<Vec<u8>, AllocError>
    ensures { IfOk result (λ room. vec_len room ≡ 65536) }
{
    vec![in alloc; 0u8; PIECE]
}

/// Plans the stream of a volume. A fault of the disk that came meanwhile is told.
fn plan_stream<D: Disk>(
    alloc: Global,
    disk: &mut D,
    volume: &mut VolumeState,
    room: &mut PageRoom,
) -> Result<Dumper, PortFault>
    requires ready { CanRead volume.old.geometry (D.outside disk.old).size volume.old.groups 0
        volume.old.meta }
    ensures keeps { KeepsRest (D.outside disk.old) (D.outside disk.new) volume.old volume.new }
    ensures plans { IfOk result (λ dumper. (d : Decoded) (image : List ℕ)
        → IsAtRest (D.outside disk.old) volume.old d image
        → (h : History) × IsSending (D.outside disk.old) volume.old d.volume h dumper 0) }
    ensures room { IfOk result (λ dumper. item_most volume.old.geometry ≤ vec_len dumper.room) }
    ensures cause { HasCause (D.outside disk.old).disk_faults (D.outside disk.new).disk_faults
        result }
    ensures told { result ≢ Err PortFault.Disk
        → (D.outside disk.new).disk_faults ≡ (D.outside disk.old).disk_faults }
    ensures sound { IfErr result (λ fault. IsDamage fault → (d : Decoded) (image : List ℕ)
        → IsAtRest (D.outside disk.old) volume.old d image → ⊥) }
{
    let faults = disk.faults();
    let mut port = ReadingPort {
        disk,
        groups: &mut volume.groups,
        room,
        index: MAIN,
        keeps_leaves: false,
        geometry: volume.geometry,
        meta: &volume.meta,
        pages: &volume.pages,
    };
    let made = Dumper::make(alloc, &mut port);
    if disk.faults() != faults {
        return Err(PortFault::Disk);
    }
    made
}

/// Fills a piece with the next bytes of the stream of a volume, and answers how many. A fault of the disk that came meanwhile is told.
fn fill_piece<D: Disk>(
    alloc: Global,
    disk: &mut D,
    volume: &mut VolumeState,
    room: &mut PageRoom,
    dumper: &mut Dumper,
    piece: &mut [u8],
) -> Result<u32, PortFault>
    requires ready { CanRead volume.old.geometry (D.outside disk.old).size volume.old.groups 0
        volume.old.meta }
    requires room { item_most volume.old.geometry ≤ vec_len dumper.old.room }
    requires few { length piece.old < 2 ^ 32 }
    ensures keeps { KeepsRest (D.outside disk.old) (D.outside disk.new) volume.old volume.new }
    ensures given { IfOk result (λ n. (d : Decoded) (image : List ℕ) (h : History) (at : ℕ)
        → IsAtRest (D.outside disk.old) volume.old d image
        → IsSending (D.outside disk.old) volume.old d.volume h dumper.old at
        → (take n piece.new ≡ part (stream_of volume.old.geometry h) at n)
        × IsSending (D.outside disk.old) volume.old d.volume h dumper.new (at + n)
        × (n ≡ min (length piece.old) (length (stream_of volume.old.geometry h) - at))) }
    ensures few { IfOk result (λ n. n ≤ length piece.old) }
    ensures at_end { (d : Decoded) (image : List ℕ) (h : History)
        → IsAtRest (D.outside disk.old) volume.old d image
        → IsSending (D.outside disk.old) volume.old d.volume h dumper.old
        (length (stream_of volume.old.geometry h)) → result ≡ Ok 0 }
    ensures room { vec_len dumper.new.room ≡ vec_len dumper.old.room }
    ensures cause { HasCause (D.outside disk.old).disk_faults (D.outside disk.new).disk_faults
        result }
    ensures told { result ≢ Err PortFault.Disk
        → (D.outside disk.new).disk_faults ≡ (D.outside disk.old).disk_faults }
    ensures sound { IfErr result (λ fault. IsDamage fault → (d : Decoded) (image : List ℕ)
        (h : History) (at : ℕ) → IsAtRest (D.outside disk.old) volume.old d image
        → IsSending (D.outside disk.old) volume.old d.volume h dumper.old at → ⊥) }
{
    let faults = disk.faults();
    let mut port = ReadingPort {
        disk,
        groups: &mut volume.groups,
        room,
        index: MAIN,
        keeps_leaves: false,
        geometry: volume.geometry,
        meta: &volume.meta,
        pages: &volume.pages,
    };
    let filled = dumper.next(alloc, &mut port, piece);
    if disk.faults() != faults {
        return Err(PortFault::Disk);
    }
    filled
}

/// Sends the stream of a volume, piece by piece.
fn send_pieces<H: Host>(
    alloc: Global,
    host: &mut H,
    volume: &mut VolumeState,
    room: &mut PageRoom,
    dumper: &mut Dumper,
    piece: &mut [u8],
) -> Result<(), DumpFault>
    requires ready { CanRead volume.old.geometry (H.outside host.old).size volume.old.groups 0
        volume.old.meta }
    requires room { item_most volume.old.geometry ≤ vec_len dumper.old.room }
    requires long { length piece.old ≡ 65536 }
    ensures only { ReadsAndSends (H.outside host.old) (H.outside host.new) }
    ensures rest { volume.new ≡ record volume.old { groups = volume.new.groups } }
    ensures whole { OnOk result ((d : Decoded) (disk : List ℕ) (h : History)
        → IsAtRest (H.outside host.old) volume.old d disk
        → IsSending (H.outside host.old) volume.old d.volume h dumper.old 0
        → length (stream_of volume.old.geometry h) < 18446744073709551615
        → (was : List ℕ) → (H.outside host.old).sent ≡ Some was
        → (H.outside host.new).sent ≡ Some (was ++ stream_of volume.old.geometry h)) }
    ensures front { OnErr result ((d : Decoded) (disk : List ℕ) (h : History)
        → IsAtRest (H.outside host.old) volume.old d disk
        → IsSending (H.outside host.old) volume.old d.volume h dumper.old 0
        → (was : List ℕ) → (H.outside host.old).sent ≡ Some was
        → SendsFew (stream_of volume.old.geometry h) was (H.outside host.new)) }
    ensures cause { IfErr result (DumpCause (H.outside host.old) (H.outside host.new)) }
    ensures told { result ≢ Err DumpFault.Disk
        → (H.outside host.new).disk_faults ≡ (H.outside host.old).disk_faults }
    ensures sound { IfErr result (λ fault. TellsDamage fault → (d : Decoded) (disk : List ℕ)
        (h : History) → IsAtRest (H.outside host.old) volume.old d disk
        → IsSending (H.outside host.old) volume.old d.volume h dumper.old 0 → ⊥) }
    ensures rests { (d : Decoded) (disk : List ℕ)
        → IsAtRest (H.outside host.old) volume.old d disk
        → IsAtRest (H.outside host.new) volume.new d disk }
{
    // A stream is shorter than 2^64 bytes, so each piece but the last one, which is empty, comes within so many.
    let mut left = u64::MAX;
    'pieces: while 0 < left {
        left -= 1;
        let len = match fill_piece(alloc, host, volume, room, dumper, piece) {
            Ok(len) => len as usize,
            Err(fault) => return Err(told_of(fault)),
        };
        if len == 0 {
            return Ok(());
        }
        match send_all(host, &piece[..len]) {
            Ok(()) => {}
            Err(_) => return Err(DumpFault::Output),
        }
    }
    Ok(())
}

/// Sends the stream of a volume at rest: its history, with each leaf and node that it reaches once. Of the disk nothing is written, and of the volume's state
/// nothing changes but its frames. Where it fails, a front of the stream may have been sent, but never all. A fault of the disk that came meanwhile is
/// told.
pub fn send_dump<H: Host>(
    alloc: Global,
    host: &mut H,
    volume: &mut VolumeState,
) -> Result<(), DumpFault>
    requires ready { CanRead volume.old.geometry (H.outside host.old).size volume.old.groups 0
        volume.old.meta }
    ensures only { ReadsAndSends (H.outside host.old) (H.outside host.new) }
    ensures rest { volume.new ≡ record volume.old { groups = volume.new.groups } }
    ensures sent { (d : Decoded) (disk was : List ℕ)
        → IsAtRest (H.outside host.old) volume.old d disk
        → (H.outside host.old).sent ≡ Some was
        → MatchResult result
        (λ _. SendsWhole disk (table_of (units_of d disk) d.volume) was (H.outside host.new))
        (λ _. SendsFront disk (table_of (units_of d disk) d.volume) was (H.outside host.new)) }
    ensures cause { IfErr result (DumpCause (H.outside host.old) (H.outside host.new)) }
    ensures told { result ≢ Err DumpFault.Disk
        → (H.outside host.new).disk_faults ≡ (H.outside host.old).disk_faults }
    ensures sound { IfErr result (λ fault. TellsDamage fault → (d : Decoded) (disk : List ℕ)
        → IsAtRest (H.outside host.old) volume.old d disk → ⊥) }
    ensures rests { (d : Decoded) (disk : List ℕ)
        → IsAtRest (H.outside host.old) volume.old d disk
        → IsAtRest (H.outside host.new) volume.new d disk }
{
    let mut room = PageRoom::new(alloc);
    let mut dumper = match plan_stream(alloc, host, volume, &mut room) {
        Ok(dumper) => dumper,
        Err(fault) => return Err(told_of(fault)),
    };
    let mut piece = match piece_room(alloc) {
        Ok(piece) => piece,
        Err(_) => return Err(DumpFault::Memory),
    };
    send_pieces(alloc, host, volume, &mut room, &mut dumper, &mut piece)
}
