//! Objects are found and read.
ghost use Rattle.std.specs.Prelude.{◌≡◌, ◌≤◌, ◌+◌, ◌⊎◌, ◌^◌, length, Some, None, IfOk, IfErr, IfSome, OnOk, MatchResult};
ghost use Rattle.ex_base.specs.Bytes.{bytes_at};
ghost use Rattle.ex_base.specs.Sizes.{volume_bytes, object_most};
ghost use Rattle.table_model.specs.Requests.{reference_of};
ghost use Rattle.trees.specs.Roots.{IsRootFor};
ghost use Rattle.session_core.specs.Finding.{IfFile, IfFound, IfLive, IfShown, IsFound, IsUnnamed, oid_among, oids_listed, stop_at, stop_or};

use super::Session;
use bound_names::NameMap;
use disk_model::{Disk, Host};
use ex_base::{Oid, PageNo, PortFault};
use session_views::Stop;
use std::alloc::Global;
use table_model::{Refusal, Subject};
use versions::{Found, find, objects, place_of, read_at, read_small};
use volume_port::{MAIN, ReadingPort};

/// What a session stops at where a call of its port failed.
pub(super) fn stopped(fault: PortFault) -> Stop
    ensures { result ≡ stop_at fault }
{
    match fault {
        PortFault::Disk => Stop::Disk,
        PortFault::Memory => Stop::Memory,
        PortFault::Damaged { page, want, got } => Stop::Damaged { page, want, got },
    }
}

/// What a call of a port answered, with what the session stops at where it failed.
pub(super) fn or_stop<T>(told: Result<T, PortFault>) -> Result<T, Stop>
    ensures { result ≡ stop_or told }
{
    match told {
        Ok(found) => Ok(found),
        Err(fault) => Err(stopped(fault)),
    }
}

/// The identifier of these numbers, none where one is out of its field's range.
fn oid_of(page: u64, slot: u64, unique: u64) -> Option<Oid>
    ensures is { IfSome result
        (λ oid. oid ≡ record { page = record { 0 = page }; slot = slot; unique = unique }) }
    ensures none { result ≡ None → (2 ^ 32 ≤ page) ⊎ (2 ^ 16 ≤ slot) }
{
    if page > u64::from(u32::MAX) || slot > u64::from(u16::MAX) {
        return None;
    }
    Some(Oid {
        page: PageNo(page as u32),
        slot: slot as u16,
        unique,
    })
}

/// The identifier that a line gives, or why it names no version.
fn oid_named(names: &NameMap, x: &Subject<'_>) -> Result<Oid, Refusal>
    ensures { MatchResult result (λ oid. oid_among names.now (reference_of x.now)
        ≡ Some oid) (IsUnnamed names.now (reference_of x.now)) }
{
    match x {
        Subject::Name(name) => match names.oid_of(name) {
            Some(oid) => Ok(oid),
            None => Err(Refusal::NoName),
        },
        Subject::Number { page, slot, unique } => match oid_of(*page, *slot, *unique) {
            Some(oid) => Ok(oid),
            None => Err(Refusal::NoObject),
        },
    }
}

/// A version that a line names, and what is told of it.
#[derive(Clone, Copy)]
pub struct Named {
    /// Its identifier.
    pub oid: Oid,
    /// Its size, its head and its root.
    pub found: Found,
}

impl Session {
    ghost use Rattle.session_core.specs.Sessions.{IsSession};
    ghost use Rattle.session_core.specs.Steps.{OnlyFrames};
    ghost use Rattle.versions.specs.Damage.{HasSoundWay, IsFoundAnd, IsReadThrough, IsRootAt, IsWalkedOut};
    ghost use Rattle.session_core.specs.Damage.{TellsDamage, TellsFor, TellsOfFound, image_on, no_version, units_on, version_for};
    ghost use Rattle.volume_edits.specs.Purposes.{ToRead, ToReadSmall};
    ghost use Rattle.session_core.specs.Ways.{IsLookBy, IsLookFor};
    ghost use Rattle.session_core.specs.Finding.{IsNamed, LineStops, IsOutside};
    ghost use Rattle.volume_port.specs.Reading.{TellsBytes};

    /// What is told of the version that an OID names, none where there is none.
    pub fn find_version<D: Disk>(
        &mut self,
        alloc: Global,
        disk: &mut D,
        oid: &Oid,
    ) -> Result<Option<Found>, Stop>
        requires room { volume_bytes self.old.geometry ≤ (D.outside disk.old).size }
        ensures session { IsSession self.old }
        ensures only { OnlyFrames (D.outside disk.old) (D.outside disk.new) self.old self.new }
        ensures found { IfOk result (λ found. IfShown (D.outside disk.old) self.old
            (λ before. IsFound before oid.now found)) }
        ensures limit { IfOk result (λ found. IfSome found (λ found. found.size ≤ object_most)) }
        ensures root { IfOk result (λ found. IfSome found (λ found. IfSome found.root
            (λ root. IsRootFor self.old.geometry root))) }
        ensures large { IfOk result (λ found. IfSome found (λ found. IfSome found.root
            (λ root. found.size ≡ root.size))) }
        ensures rooted { IfOk result (λ found. IfSome found (λ found.
            TellsBytes (D.outside disk.old) self.old.groups → IfSome found.root
            (IsRootAt (image_on (D.outside disk.old) self.old) oid.now))) }
        ensures way { IfOk result (λ found. TellsBytes (D.outside disk.old) self.old.groups
            → IsLookFor self.old.geometry (image_on (D.outside disk.old) self.old)
            oid.now found) }
        ensures stops { IfErr result (LineStops (D.outside disk.old) (D.outside disk.new)) }
        ensures damage { IfErr result (TellsDamage (D.outside disk.old) (D.outside disk.new)
            self.old no_version) }
        ensures sound { IfErr result (λ why. IfShown (D.outside disk.old) self.old
            (λ before. IsOutside why)) }
    {
        let mut port = ReadingPort {
            disk,
            groups: &mut self.volume.groups,
            room: &mut self.room,
            index: MAIN,
            keeps_leaves: false,
            geometry: self.volume.geometry,
            meta: &self.volume.meta,
            pages: &self.volume.pages,
        };
        or_stop(find(&mut port, alloc, oid))
    }

    /// The version that a line names, or why it is refused: a name that is not bound, or an OID of no version. It stops where the disk fails, where memory
    /// is wanted, and at a page that isn't what names it.
    pub fn named<H: Host>(
        &mut self,
        alloc: Global,
        host: &mut H,
        x: &Subject<'_>,
    ) -> Result<Result<Named, Refusal>, Stop>
        requires room { volume_bytes self.old.geometry ≤ (H.outside host.old).size }
        ensures session { IsSession self.old }
        ensures only { OnlyFrames (H.outside host.old) (H.outside host.new) self.old self.new }
        ensures named { IfOk result (λ told. IfShown (H.outside host.old) self.old
            (λ before. IsNamed before (reference_of x.now) told)) }
        ensures limit { IfOk result (λ told. IfOk told (λ version. version.found.size
            ≤ object_most)) }
        ensures root { IfOk result (λ told. IfOk told (λ version. IfSome version.found.root
            (λ root. IsRootFor self.old.geometry root))) }
        ensures large { IfOk result (λ told. IfOk told (λ version. IfSome version.found.root
            (λ root. version.found.size ≡ root.size))) }
        ensures asked { IfOk result (λ told. IfOk told (λ version.
            oid_among self.old.names (reference_of x.now) ≡ Some version.oid)) }
        ensures rooted { IfOk result (λ told. IfOk told (λ version.
            TellsBytes (H.outside host.old) self.old.groups → IfSome version.found.root
            (IsRootAt (image_on (H.outside host.old) self.old) version.oid))) }
        ensures way { IfOk result (λ told. TellsBytes (H.outside host.old) self.old.groups
            → IsLookBy (H.outside host.old) self.old (reference_of x.now) told) }
        ensures stops { IfErr result (LineStops (H.outside host.old) (H.outside host.new)) }
        ensures damage { IfErr result (TellsDamage (H.outside host.old) (H.outside host.new)
            self.old no_version) }
        ensures sound { IfErr result (λ why. IfShown (H.outside host.old) self.old
            (λ before. IsOutside why)) }
    {
        let oid = match oid_named(&self.names, x) {
            Ok(oid) => oid,
            Err(why) => return Ok(Err(why)),
        };
        match self.find_version(alloc, host, &oid)? {
            Some(found) => Ok(Ok(Named { oid, found })),
            None => Ok(Err(Refusal::NoObject)),
        }
    }

    /// Reads bytes of a version from a position on, as many as `out` holds. It stops where the disk fails, where memory is wanted, and at a page that isn't
    /// what names it; then `out` holds nothing that counts.
    pub fn read_bytes<D: Disk>(
        &mut self,
        alloc: Global,
        disk: &mut D,
        oid: &Oid,
        pos: u64,
        out: &mut [u8],
    ) -> Result<(), Stop>
        requires room { volume_bytes self.old.geometry ≤ (D.outside disk.old).size }
        ensures session { IsSession self.old }
        ensures only { OnlyFrames (D.outside disk.old) (D.outside disk.new) self.old self.new }
        ensures bytes { OnOk result (IfShown (D.outside disk.old) self.old
            (λ before. IfLive before oid.now (λ bytes. out.new
            ≡ bytes_at bytes pos (length out.old)))) }
        ensures way { OnOk result (TellsBytes (D.outside disk.old) self.old.groups
            → IsFoundAnd self.old.geometry (image_on (D.outside disk.old) self.old) oid.now
            (IsReadThrough self.old.geometry (units_on (D.outside disk.old) self.old) pos
            (length out.old))) }
        ensures stops { IfErr result (LineStops (D.outside disk.old) (D.outside disk.new)) }
        ensures damage { IfErr result (TellsFor (D.outside disk.old) (D.outside disk.new)
            self.old (version_for oid.now (ToRead (pos + length out.old)))) }
        ensures sound { IfErr result (λ why. IfShown (D.outside disk.old) self.old
            (λ before. IfLive before oid.now (λ bytes. pos + length out.old ≤ length bytes
            → IsOutside why))) }
    {
        let mut port = ReadingPort {
            disk,
            groups: &mut self.volume.groups,
            room: &mut self.room,
            index: MAIN,
            keeps_leaves: false,
            geometry: self.volume.geometry,
            meta: &self.volume.meta,
            pages: &self.volume.pages,
        };
        or_stop(read_at(&mut port, alloc, oid, pos, out))
    }

    /// Reads bytes of a version as it was found, from a position on, as many as `out` holds. A large one isn't looked for again: it is read by its root. It
    /// stops where the disk fails, where memory is wanted, and at a page that isn't what names it.
    pub fn read_found<D: Disk>(
        &mut self,
        alloc: Global,
        disk: &mut D,
        version: &Named,
        pos: u64,
        out: &mut [u8],
    ) -> Result<(), Stop>
        requires room { volume_bytes self.old.geometry ≤ (D.outside disk.old).size }
        requires root { IfSome version.now.found.root (IsRootFor self.old.geometry) }
        requires large { IfSome version.now.found.root
            (λ root. version.now.found.size ≡ root.size) }
        requires range { pos + length out.old ≤ version.now.found.size }
        ensures session { IsSession self.old }
        ensures only { OnlyFrames (D.outside disk.old) (D.outside disk.new) self.old self.new }
        ensures bytes { OnOk result (IfShown (D.outside disk.old) self.old
            (λ before. IfFound before version.now (λ bytes. out.new
            ≡ bytes_at bytes pos (length out.old)))) }
        ensures way { OnOk result (TellsBytes (D.outside disk.old) self.old.groups
            → IfSome version.now.found.root (HasSoundWay self.old.geometry
            (units_on (D.outside disk.old) self.old) pos (length out.old))) }
        ensures stops { IfErr result (LineStops (D.outside disk.old) (D.outside disk.new)) }
        ensures damage { IfErr result (TellsOfFound (D.outside disk.old) (D.outside disk.new)
            self.old version.now.oid (pos + length out.old) version.now.found.root) }
        ensures sound { IfErr result (λ why. IfShown (D.outside disk.old) self.old
            (λ before. IfFound before version.now (λ bytes. pos + length out.old ≤ length bytes
            → IsOutside why))) }
    {
        match version.found.root {
            Some(root) => self.read_tree(alloc, disk, &root, pos, out),
            None => self.read_record(alloc, disk, version, pos, out),
        }
    }

    // Reads bytes of a small version as it was found, from a position on, as many as `out` holds. Of the volume only the page of its record is read.
    fn read_record<D: Disk>(
        &mut self,
        alloc: Global,
        disk: &mut D,
        version: &Named,
        pos: u64,
        out: &mut [u8],
    ) -> Result<(), Stop>
        requires room { volume_bytes self.old.geometry ≤ (D.outside disk.old).size }
        requires small { version.now.found.root ≡ None }
        ensures session { IsSession self.old }
        ensures only { OnlyFrames (D.outside disk.old) (D.outside disk.new) self.old self.new }
        ensures bytes { OnOk result (IfShown (D.outside disk.old) self.old
            (λ before. IfFound before version.now (λ bytes. out.new
            ≡ bytes_at bytes pos (length out.old)))) }
        ensures stops { IfErr result (LineStops (D.outside disk.old) (D.outside disk.new)) }
        ensures damage { IfErr result (TellsFor (D.outside disk.old) (D.outside disk.new)
            self.old (version_for version.now.oid (ToReadSmall (pos + length out.old)))) }
        ensures sound { IfErr result (λ why. IfShown (D.outside disk.old) self.old
            (λ before. IfFound before version.now (λ bytes. pos + length out.old ≤ length bytes
            → IsOutside why))) }
    {
        let mut port = ReadingPort {
            disk,
            groups: &mut self.volume.groups,
            room: &mut self.room,
            index: MAIN,
            keeps_leaves: false,
            geometry: self.volume.geometry,
            meta: &self.volume.meta,
            pages: &self.volume.pages,
        };
        let place = place_of(&version.oid);
        or_stop(read_small(&mut port, alloc, place, pos, out))
    }

    /// The OIDs of the current versions of the file with a number, in order of unique number. It stops where the disk fails, where memory is wanted, and
    /// at a page that isn't what names it.
    pub fn objects_of<D: Disk>(
        &mut self,
        alloc: Global,
        disk: &mut D,
        file_no: u32,
    ) -> Result<Vec<Oid>, Stop>
        requires room { volume_bytes self.old.geometry ≤ (D.outside disk.old).size }
        ensures session { IsSession self.old }
        ensures only { OnlyFrames (D.outside disk.old) (D.outside disk.new) self.old self.new }
        ensures oids { IfOk result (λ oids. IfFile (D.outside disk.old) self.old file_no
            (λ before name. oids.items ≡ oids_listed before.machine name)) }
        ensures way { OnOk result (TellsBytes (D.outside disk.old) self.old.groups
            → IsWalkedOut self.old.geometry (image_on (D.outside disk.old) self.old)
            file_no) }
        ensures stops { IfErr result (LineStops (D.outside disk.old) (D.outside disk.new)) }
        ensures damage { IfErr result (TellsDamage (D.outside disk.old) (D.outside disk.new)
            self.old no_version) }
        ensures sound { IfErr result (λ why. IfFile (D.outside disk.old) self.old file_no
            (λ before name. IsOutside why)) }
    {
        let mut port = ReadingPort {
            disk,
            groups: &mut self.volume.groups,
            room: &mut self.room,
            index: MAIN,
            keeps_leaves: false,
            geometry: self.volume.geometry,
            meta: &self.volume.meta,
            pages: &self.volume.pages,
        };
        or_stop(objects(&mut port, alloc, file_no))
    }
}
