//! The digest of a version's bytes.
ghost use Rattle.std.specs.Prelude.{◌≡◌, ◌≤◌, ◌<◌, ◌+◌, ◌++◌, ℕ, List, length, min, take, IfOk, IfErr, OnOk};
ghost use Rattle.sha2.specs.Hashers.{Holds256};
ghost use Rattle.sha2.specs.Sha256.{sha256};
ghost use Rattle.ex_base.specs.Bytes.{bytes_at};
ghost use Rattle.ex_base.specs.Ports.{Keeps, HasCause, IsDamage};
ghost use Rattle.object_records.specs.Record.{Content};
ghost use Rattle.object_records.specs.declared.Head.{Head};
ghost use Rattle.ex_base.specs.declared.names.Index.{Index};
ghost use Rattle.versions.specs.Versions.{HoldsVersion};
ghost use Rattle.versions.specs.Damage.{IsFoundAnd, IsReadThrough, IsVersionReadFault};

use crate::finding::read_at;
use ex_base::{Oid, PortFault, ReadVolume};
use sha2::{Digest, Sha256};
use std::alloc::{AllocError, Global};

/// The most bytes of a piece that a version is read in.
const PIECE_LEN: u64 = 65_536;

/// Room for the pieces of a version of `size` bytes: for one piece, and no more than the version has.
pub fn room_for(alloc: Global, size: u64) -> Result<Vec<u8>, AllocError>
    ensures { IfOk result (λ room. length room.items ≡ min size 65536) }
{
    vec![in alloc; 0u8; size.min(PIECE_LEN) as usize]
}

/// How many bytes the next piece has: as many as there is room for, and no more than are left.
fn piece_len(left: u64, room: usize) -> usize
    ensures { result ≡ min left room }
{
    left.min(room as u64) as usize
}

/// Reads a piece of a version, and feeds it to a hasher.
fn feed<V: ReadVolume>(
    volume: &mut V,
    alloc: Global,
    oid: &Oid,
    pos: u64,
    piece: &mut [u8],
    hasher: &mut Sha256,
) -> Result<(), PortFault>
    requires { V.ready volume.old }
    ensures fed { OnOk result (V.tells volume.old
        → (index : Index) (head : Head) (content : Content) (bytes : List ℕ)
        → HoldsVersion V.Ground volume.old index oid.now head content bytes
        → (pos + length piece.old ≤ length bytes) × ((message : List ℕ)
        → Holds256 hasher.old message
        → Holds256 hasher.new (message ++ bytes_at bytes pos (length piece.old)))) }
    ensures reads { OnOk result (V.tells volume.old
        → IsFoundAnd (V.geometry volume.old) (V.image volume.old) oid.now
        (IsReadThrough (V.geometry volume.old) (V.unit volume.old) pos (length piece.old))) }
    ensures sound { IfErr result (λ fault. IsDamage fault → V.tells volume.old
        → (index : Index) (head : Head) (content : Content) (bytes : List ℕ)
        → HoldsVersion V.Ground volume.old index oid.now head content bytes
        → pos + length piece.old ≤ length bytes → ⊥) }
    ensures fault { IfErr result (λ fault. V.tells volume.old
        → IsVersionReadFault (V.geometry volume.old) (V.unit volume.old) (V.image volume.old)
        oid.now pos (length piece.old) fault) }
    ensures kept { Keeps V.Ground volume.old volume.new }
    ensures cause { HasCause (V.faults volume.old) (V.faults volume.new) result }
{
    match read_at(volume, alloc, oid, pos, piece) {
        Ok(()) => {
            hasher.update(&*piece);
            Ok(())
        }
        Err(fault) => Err(fault),
    }
}

/// The SHA-256 of the first `size` bytes of a version. It reads as many at a time as `buffer` has room for.
pub fn digest_at<V: ReadVolume>(
    volume: &mut V,
    alloc: Global,
    oid: &Oid,
    size: u64,
    buffer: &mut [u8],
) -> Result<[u8; 32], PortFault>
    requires ready { V.ready volume.old }
    requires room { 0 < size → 0 < length buffer.old }
    ensures hash { IfOk result (λ hash. V.tells volume.old
        → (index : Index) (head : Head) (content : Content) (bytes : List ℕ)
        → HoldsVersion V.Ground volume.old index oid.now head content bytes
        → (size ≤ length bytes) × (hash ≡ sha256 (take size bytes))) }
    ensures reads { OnOk result (V.tells volume.old → 0 < size
        → IsFoundAnd (V.geometry volume.old) (V.image volume.old) oid.now
        (IsReadThrough (V.geometry volume.old) (V.unit volume.old) 0 size)) }
    ensures sound { IfErr result (λ fault. IsDamage fault → V.tells volume.old
        → (index : Index) (head : Head) (content : Content) (bytes : List ℕ)
        → HoldsVersion V.Ground volume.old index oid.now head content bytes
        → size ≤ length bytes → ⊥) }
    ensures fault { IfErr result (λ fault. V.tells volume.old
        → IsVersionReadFault (V.geometry volume.old) (V.unit volume.old) (V.image volume.old)
        oid.now 0 size fault) }
    ensures kept { Keeps V.Ground volume.old volume.new }
    ensures cause { HasCause (V.faults volume.old) (V.faults volume.new) result }
{
    let mut hasher = Sha256::new();
    let mut at = 0;
    'pieces: while at < size {
        let len = piece_len(size - at, buffer.len());
        match feed(volume, alloc, oid, at, &mut buffer[..len], &mut hasher) {
            Ok(()) => {}
            Err(fault) => return Err(fault),
        }
        at += len as u64;
    }
    Ok(hasher.finalize())
}
