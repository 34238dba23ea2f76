//! The digest of a version.
ghost use Rattle.std.specs.Prelude.{◌≡◌, ◌≤◌, ◌<◌, length, IfOk, IfErr, OnOk};
ghost use Rattle.sha2.specs.Sha256.{sha256};
ghost use Rattle.ex_base.specs.Sizes.{volume_bytes};
ghost use Rattle.session_core.specs.Finding.{IfLive, IfShown};

use super::Session;
use super::objects::or_stop;
use disk_model::Disk;
use ex_base::Oid;
use session_views::Stop;
use std::alloc::Global;
use versions::digest_at;
use volume_port::{MAIN, ReadingPort};

impl Session {
    ghost use Rattle.session_core.specs.Sessions.{IsSession};
    ghost use Rattle.session_core.specs.Steps.{OnlyFrames};
    ghost use Rattle.session_core.specs.Damage.{TellsFor, image_on, units_on, version_for};
    ghost use Rattle.volume_edits.specs.Purposes.{ToRead};
    ghost use Rattle.versions.specs.Damage.{IsFoundAnd, IsReadThrough};
    ghost use Rattle.volume_port.specs.Reading.{TellsBytes};
    ghost use Rattle.session_core.specs.Finding.{LineStops, IsOutside};

    /// The SHA-256 digest of a version of `size` bytes, which are read as many at a time as `buffer` has room for: what it holds afterwards says nothing. It
    /// stops where the disk fails, where memory is wanted, and at a page that isn't what names it.
    pub fn digest_bytes<D: Disk>(
        &mut self,
        alloc: Global,
        disk: &mut D,
        oid: &Oid,
        size: u64,
        buffer: &mut [u8],
    ) -> Result<[u8; 32], Stop>
        requires room { volume_bytes self.old.geometry ≤ (D.outside disk.old).size }
        requires buffer { 0 < size → 0 < length buffer.old }
        ensures session { IsSession self.old }
        ensures only { OnlyFrames (D.outside disk.old) (D.outside disk.new) self.old self.new }
        ensures hash { IfOk result (λ hash. IfShown (D.outside disk.old) self.old
            (λ before. IfLive before oid.now
            (λ bytes. length bytes ≡ size → hash ≡ sha256 bytes))) }
        ensures way { OnOk result (TellsBytes (D.outside disk.old) self.old.groups → 0 < size
            → IsFoundAnd self.old.geometry (image_on (D.outside disk.old) self.old) oid.now
            (IsReadThrough self.old.geometry (units_on (D.outside disk.old) self.old) 0
            size)) }
        ensures stops { IfErr result (LineStops (D.outside disk.old) (D.outside disk.new)) }
        ensures damage { IfErr result (TellsFor (D.outside disk.old) (D.outside disk.new)
            self.old (version_for oid.now (ToRead size))) }
        ensures sound { IfErr result (λ why. IfShown (D.outside disk.old) self.old
            (λ before. IfLive before oid.now (λ bytes. size ≤ length bytes → IsOutside why))) }
    {
        let mut port = ReadingPort {
            disk,
            groups: &mut self.volume.groups,
            room: &mut self.room,
            index: MAIN,
            keeps_leaves: false,
            geometry: self.volume.geometry,
            meta: &self.volume.meta,
            pages: &self.volume.pages,
        };
        or_stop(digest_at(&mut port, alloc, oid, size, buffer))
    }
}
