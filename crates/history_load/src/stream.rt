//! The load of a whole stream.
ghost use Rattle.std.specs.Prelude.{◌≡◌, ◌≤◌, ◌<◌, ◌-◌, ◌⊎◌, ℕ, IsTrue, List, [], drop, length, take, None, Some, Err, IfErr, IfOk, OnErr, OnOk};
ghost use Rattle.disk_model.specs.Outside.{Leaves, SourceOnly};
ghost use Rattle.ex_base.specs.Sizes.{volume_bytes};
ghost use Rattle.history_load.specs.Loads.{HoldsDump, IsDumpImage};
ghost use Rattle.history_fronts.specs.Fronts.{IsDumpHead};
ghost use Rattle.history_items.specs.Heads.{stream_head};
ghost use Rattle.history_load.specs.Faults.{LoadCause};
ghost use Rattle.history_load.specs.Loading.{IsLoader};
ghost use Rattle.history_load.specs.Streams.{CountsVersions, Feeds, IsDrawn, IsWrittenAs, LoadsAll, NoneBehindHead, NoneComes, StreamRefused, Takes, TakesAndWrites, most_behind, piece_most};
ghost use Rattle.history_model.specs.Stream.{HasHead, StreamHead, head_len, lack_of};
ghost use Rattle.history_reads.specs.Kept.{AreOfOneStream};
ghost use Rattle.history_reads.specs.declared.heads.HeadFault.{HeadFault as AHeadFault};
ghost use Rattle.history_load.specs.Staying.{StaysEmpty};
ghost use Rattle.restart.specs.Opening.{AreOpened};
ghost use Rattle.table_model.specs.Tables.{empty_table, versions_of};
ghost use Rattle.volume_model.specs.Parts.{StandsFor};
ghost use Rattle.volume_model.specs.Volume.{Decoded, table_of, units_of};
ghost use Rattle.volume_port.specs.State.{IsAtRest};

use crate::ending::finish;
use crate::faults::LoadFault;
use crate::loaded::{Loaded, commit_loaded};
use crate::loader::Loader;
use disk_model::{Disk, Host, Source};
use ex_base::Geometry;
use history_items::{HEAD_LEN, Head};
use history_reads::{HeadFault, test_head};
use std::alloc::{AllocError, Global};
use volume_port::VolumeState;

/// The most bytes that are taken of the source at once.
const PIECE: usize = 65_536;

/// What a load wrote.
#[derive(Clone, Copy, Debug, PartialEq, Eq)]
pub struct Totals {
    /// How many versions came.
    pub versions: u64,
    /// How many leaves came, each a unit of the segment area.
    pub leaves: u32,
}

/// Takes the next bytes of the source into the front of `out`, and answers how many. None is the end, where there is room for some.
fn take_some<S: Source>(source: &mut S, out: &mut [u8]) -> Result<usize, LoadFault>
    ensures only { SourceOnly (S.outside source.old) (S.outside source.new) }
    ensures size { length out.new ≡ length out.old }
    ensures count { IfOk result (λ n. n ≤ length out.old) }
    ensures bytes { IfOk result (λ n. (was : List ℕ) → (S.outside source.old).left ≡ Some was
        → (n ≤ length was) × (take n out.new ≡ take n was)
        × ((S.outside source.new).left ≡ Some (drop n was))) }
    ensures end { IfOk result (λ n. n ≡ 0 → 0 < length out.old → (was : List ℕ)
        → (S.outside source.old).left ≡ Some was → was ≡ []) }
    ensures failed { OnErr result ((S.outside source.new).left
        ≡ (S.outside source.old).left) }
    ensures cause { IfErr result (LoadCause (S.outside source.old) (S.outside source.new)) }
    ensures source { IfErr result (λ fault. fault ≡ LoadFault.Source) }
{
    match source.take(out) {
        Ok(n) => Ok(n),
        Err(_) => Err(LoadFault::Source),
    }
}

/// Fills `out` from the source, as far as that goes, and answers how many bytes came.
fn take_all<S: Source>(source: &mut S, out: &mut [u8]) -> Result<usize, LoadFault>
    ensures only { SourceOnly (S.outside source.old) (S.outside source.new) }
    ensures size { length out.new ≡ length out.old }
    ensures bytes { IfOk result (λ n. (was : List ℕ) → (S.outside source.old).left ≡ Some was
        → (take n out.new ≡ take (length out.old) was)
        × ((S.outside source.new).left ≡ Some (drop n was))) }
    ensures count { IfOk result (λ n. n ≤ length out.old) }
    ensures draws { (n : ℕ) × (n ≤ length out.old)
        × Takes (S.outside source.old) (S.outside source.new) n }
    ensures source { IfErr result (λ fault. fault ≡ LoadFault.Source) }
    ensures cause { IfErr result (LoadCause (S.outside source.old) (S.outside source.new)) }
{
    let mut at = 0;
    'takes: while at < out.len() {
        let n = take_some(source, &mut out[at..])?;
        if n == 0 {
            return Ok(at);
        }
        at += n;
    }
    Ok(at)
}

/// Takes the head of a stream, which may be that of a dump for the volume, and has room in it.
fn take_head<S: Source>(source: &mut S, geometry: &Geometry) -> Result<Head, LoadFault>
    ensures only { SourceOnly (S.outside source.old) (S.outside source.new) }
    ensures head { IfOk result (λ head. (was : List ℕ) → (S.outside source.old).left ≡ Some was
        → HasHead was (stream_head head) × (head_len ≤ length was)
        × ((S.outside source.new).left ≡ Some (drop head_len was))) }
    ensures is { IfOk result (λ head. IsDumpHead geometry.now (stream_head head)) }
    ensures room { IfOk result (λ head. lack_of (geometry.now.pages - 1) geometry.now.segs
        (stream_head head) ≡ None) }
    ensures refused { (fault : AHeadFault) (was : List ℕ) → result ≡ Err (LoadFault.Stream fault)
        → (S.outside source.old).left ≡ Some was → StreamRefused geometry.now was fault }
    ensures draws { (n : ℕ) × (n ≤ head_len)
        × Takes (S.outside source.old) (S.outside source.new) n }
    ensures cause { IfErr result (LoadCause (S.outside source.old) (S.outside source.new)) }
{
    let mut bytes = [0u8; HEAD_LEN];
    if take_all(source, &mut bytes)? < HEAD_LEN {
        return Err(LoadFault::BAD);
    }
    match test_head(&bytes, geometry, geometry.pages - 1, geometry.segs) {
        Ok(head) => Ok(head),
        Err(fault) => Err(LoadFault::Stream(fault)),
    }
}

/// Feeds the loader the next bytes of the source, of which there is room for some, and answers how many.
fn feed_some<H: Host>(
    alloc: Global,
    host: &mut H,
    loader: &mut Loader,
    piece: &mut [u8],
) -> Result<usize, LoadFault>
    requires room { volume_bytes loader.old.progress.geometry ≤ (H.outside host.old).size }
    requires is { IsLoader loader.old.progress.geometry loader.old }
    ensures size { length piece.new ≡ length piece.old }
    ensures count { IfOk result (λ n. n ≤ length piece.old) }
    ensures is { OnOk result (IsLoader loader.old.progress.geometry loader.new) }
    ensures stream { AreOfOneStream loader.old.progress loader.new.progress }
    ensures feeds { IfOk result (Feeds loader.old.progress.geometry (H.outside host.old)
        (H.outside host.new) loader.old loader.new) }
    ensures end { IfOk result (λ n. n ≡ 0 → 0 < length piece.old → (was : List ℕ)
        → (H.outside host.old).left ≡ Some was → was ≡ []) }
    ensures refused { (fault : AHeadFault) → result ≡ Err (LoadFault.Stream fault)
        → (fault ≡ AHeadFault.Bad)
        × NoneComes loader.old.progress.geometry (H.outside host.old) loader.old }
    ensures draws { (n : ℕ) × (n ≤ length piece.old)
        × Takes (H.outside host.old) (H.outside host.new) n }
    ensures stays { (volume : VolumeState) → AreOpened volume
        → volume.geometry ≡ loader.old.progress.geometry
        → StaysEmpty (H.outside host.old) (H.outside host.new) volume }
    ensures only { TakesAndWrites (H.outside host.old) (H.outside host.new) }
    ensures cause { IfErr result (LoadCause (H.outside host.old) (H.outside host.new)) }
{
    let n = take_some(host, piece)?;
    loader.feed(alloc, host, &piece[..n])?;
    Ok(n)
}

/// Feeds the loader the stream behind its head, to its end. A stream that is longer than any dump with its head is none.
fn feed_all<H: Host>(alloc: Global, host: &mut H, loader: &mut Loader) -> Result<(), LoadFault>
    requires room { volume_bytes loader.old.progress.geometry ≤ (H.outside host.old).size }
    requires is { IsLoader loader.old.progress.geometry loader.old }
    ensures is { OnOk result (IsLoader loader.old.progress.geometry loader.new) }
    ensures stream { AreOfOneStream loader.old.progress loader.new.progress }
    ensures loads { OnOk result (LoadsAll loader.old.progress.geometry (H.outside host.old)
        (H.outside host.new) loader.old loader.new) }
    ensures refused { (fault : AHeadFault) → result ≡ Err (LoadFault.Stream fault)
        → (fault ≡ AHeadFault.Bad)
        × NoneBehindHead loader.old.progress.geometry (H.outside host.old) loader.old }
    ensures draws { (n : ℕ) × (n ≤ most_behind loader.old.progress.geometry
        loader.old.progress.head) × Takes (H.outside host.old) (H.outside host.new) n }
    ensures stays { (volume : VolumeState) → AreOpened volume
        → volume.geometry ≡ loader.old.progress.geometry
        → StaysEmpty (H.outside host.old) (H.outside host.new) volume }
    ensures only { TakesAndWrites (H.outside host.old) (H.outside host.new) }
    ensures cause { IfErr result (LoadCause (H.outside host.old) (H.outside host.new)) }
{
    let mut piece = new_piece(alloc)?;
    let mut left = bytes_behind(loader);
    'pieces: while left > 0 {
        let room = left.min(PIECE as u64) as usize;
        let n = feed_some(alloc, host, loader, &mut piece[..room])?;
        if n == 0 {
            return Ok(());
        }
        left -= n as u64;
    }
    Err(LoadFault::BAD)
}

/// Room for a piece.
fn new_piece(alloc: Global) -> Result<Vec<u8>, AllocError>
    ensures { IfOk result (λ piece. length piece.items ≡ piece_most) }
{
    vec![in alloc; 0u8; PIECE]
}

/// How many bytes may come behind the head, with one more.
fn bytes_behind(loader: &Loader) -> u64
    ensures { result ≡ most_behind loader.now.progress.geometry loader.now.progress.head }
{
    let progress = &loader.progress;
    progress.head.bytes_most(&progress.geometry) - (HEAD_LEN as u64 - 1)
}

/// Reads a whole stream, writes what it says behind the catalog of the empty volume, and tests it. What is answered is to be committed.
fn write_stream<H: Host>(
    alloc: Global,
    host: &mut H,
    volume: &VolumeState,
) -> Result<Loaded, LoadFault>
    requires opened { AreOpened volume.now }
    requires room { volume_bytes volume.now.geometry ≤ (H.outside host.old).size }
    ensures page { IfOk result (λ l. length l.catalog.items ≡ volume.now.geometry.page_size) }
    ensures written { IfOk result (λ l. (stream image : List ℕ)
        → IsTrue (H.outside host.old).honest
        → (H.outside host.old).left ≡ Some stream → (H.outside host.old).disk ≡ Some image
        → IsWrittenAs volume.now.geometry (H.outside host.new) stream l) }
    ensures versions { IfOk result (λ l. (stream image : List ℕ)
        → IsTrue (H.outside host.old).honest
        → (H.outside host.old).left ≡ Some stream → (H.outside host.old).disk ≡ Some image
        → CountsVersions volume.now.geometry stream l.versions) }
    ensures fits { OnOk result ((stream : List ℕ) → (H.outside host.old).left ≡ Some stream
        → (head : StreamHead) → HasHead stream head
        → lack_of (volume.now.geometry.pages - 1) volume.now.geometry.segs head ≡ None) }
    ensures refused { (fault : AHeadFault) (stream image : List ℕ)
        → result ≡ Err (LoadFault.Stream fault) → IsTrue (H.outside host.old).honest
        → (H.outside host.old).left ≡ Some stream → (H.outside host.old).disk ≡ Some image
        → StreamRefused volume.now.geometry stream fault }
    ensures draws { (stream : List ℕ) → (H.outside host.old).left ≡ Some stream → (n : ℕ)
        × IsDrawn stream n × ((H.outside host.new).left ≡ Some (drop n stream)) }
    ensures stays { StaysEmpty (H.outside host.old) (H.outside host.new) volume.now }
    ensures only { TakesAndWrites (H.outside host.old) (H.outside host.new) }
    ensures cause { IfErr result (LoadCause (H.outside host.old) (H.outside host.new)) }
{
    let head = take_head(host, &volume.geometry)?;
    let mut loader = Loader::make(alloc, &volume.geometry, &head)?;
    feed_all(alloc, host, &mut loader)?;
    let Loader {
        progress,
        gathered,
        files,
        ..
    } = loader;
    let loaded = finish(
        alloc,
        host,
        &volume.meta,
        &progress,
        gathered.as_slice(),
        files.catalog,
        files.count,
    )?;
    host.sync()?;
    Ok(loaded)
}

/// Loads the stream that the source has left into an empty volume that was opened. Its state is given up, since it tells no more what is in use.
pub fn load_stream<H: Host>(
    alloc: Global,
    host: &mut H,
    volume: VolumeState,
) -> Result<Totals, LoadFault>
    requires opened { AreOpened volume }
    requires room { volume_bytes volume.geometry ≤ (H.outside host.old).size }
    ensures only { TakesAndWrites (H.outside host.old) (H.outside host.new) }
    ensures draws { (stream : List ℕ) → (H.outside host.old).left ≡ Some stream → (n : ℕ)
        × IsDrawn stream n × ((H.outside host.new).left ≡ Some (drop n stream)) }
    ensures cause { IfErr result (LoadCause (H.outside host.old) (H.outside host.new)) }

    // The disk holds a table of which the stream is a dump, whatever a crash leaves, in a volume of as many units of the segment area as leaves came.
    ensures done { IfOk result (λ totals. (d : Decoded) (image stream : List ℕ)
        → IsAtRest (H.outside host.old) volume d image
        → table_of (units_of d image) d.volume ≡ empty_table
        → (H.outside host.old).left ≡ Some stream
        → (holds : HoldsDump (H.outside host.new) volume.geometry stream totals.leaves)
        × (totals.versions ≡ length (versions_of holds.table))) }
    ensures fits { OnOk result ((stream : List ℕ) → (H.outside host.old).left ≡ Some stream
        → (head : StreamHead) → HasHead stream head
        → lack_of (volume.geometry.pages - 1) volume.geometry.segs head ≡ None) }

    // What is refused is no dump for the volume, or hasn't room in it.
    ensures refused { (fault : AHeadFault) (stream image : List ℕ)
        → result ≡ Err (LoadFault.Stream fault) → IsTrue (H.outside host.old).honest
        → (H.outside host.old).left ≡ Some stream → (H.outside host.old).disk ≡ Some image
        → StreamRefused volume.geometry stream fault }

    // Where the disk didn't fail, an error leaves the volume empty.
    ensures kept { IfErr result (λ fault. (fault ≡ LoadFault.Disk → ⊥)
        → StaysEmpty (H.outside host.old) (H.outside host.new) volume) }

    // A crash at any moment leaves the empty table or such a one.
    ensures any_moment { (d : Decoded) (image stream : List ℕ)
        → IsAtRest (H.outside host.old) volume d image
        → table_of (units_of d image) d.volume ≡ empty_table
        → (H.outside host.old).left ≡ Some stream
        → Leaves (H.outside host.old) (H.outside host.new)
        (λ left. StandsFor left empty_table ⊎ IsDumpImage volume.geometry stream left) }
{
    let loaded = write_stream(alloc, host, &volume)?;
    let totals = Totals {
        versions: loaded.versions,
        leaves: loaded.leaves,
    };
    commit_loaded(alloc, host, volume, &loaded)?;
    Ok(totals)
}
