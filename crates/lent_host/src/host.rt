//! The host. What stands outside of it is the file of which the image is lent, as the listed calls leave it, at each of their fronts.
ghost use Rattle.std.specs.Prelude.{◌≡◌, ◌≤◌, ◌+◌, ◌++◌, [], ◌∷◌, false, length, IsTrue, if◌then◌else◌};
ghost use Rattle.ex_base.specs.Bytes.{IsBytes, part, repl};
ghost use Rattle.lent_host.specs.Lent.{IsLent, lent_world, outside_of, state_after};
ghost use Rattle.lent_host.specs.declared.host.Asked.TheVariants.{Write};

use crate::file_bytes::FileBytes;
use disk_model::{Disk, Failed, Host, Sink, Source, World};
use std::alloc::Global;

/// A call that the caller is to make on the file.
#[derive(Drop)]
pub enum Asked {
    /// Write these bytes from this place on.
    Write { at: usize, bytes: Vec<u8> },
    /// Settle all that was written.
    Sync,
}

/// An image that is lent for one step, and the calls that are asked for on the file. The image is what those make of the file.
///
/// It has no source and no sink, so that each take and each put fails, and it counts no faults: each count stands at its top.
#[derive(Drop)]
pub struct LentHost<'a> {
    alloc: Global,
    /// What the file held before the calls that are listed.
    pub file: &'a FileBytes,
    pub image: &'a mut [u8],
    pub asked: &'a mut Vec<Asked>,
    pub ghost lent: { (state_after file.now.bytes asked.now.items).disk ≡ image.now },
    pub ghost whole: { length image.now ≡ length file.now.bytes },
    pub ghost of_bytes: { IsBytes image.now },
}

impl<'a> LentHost<'a> {
    /// A host over the image that the listed calls make of a file.
    pub fn over(
        alloc: Global,
        file: &'a FileBytes,
        image: &'a mut [u8],
        asked: &'a mut Vec<Asked>,
    ) -> LentHost<'a>
        requires { IsLent file.now.bytes asked.old.items image.old }
        ensures file { result.file.now.bytes ≡ file.now.bytes }
        ensures image { result.image.ghost_name ≡ image.entry.ghost_name }
        ensures asked { result.asked.ghost_name ≡ asked.entry.ghost_name }
        ensures image_now { result.image.now ≡ image.old }
        ensures asked_now { result.asked.now.items ≡ asked.old.items }
    {
        LentHost {
            alloc,
            file,
            image,
            asked,
        }
    }
}

impl<'a> World for LentHost<'a> {
    ghost outside = { λ s. outside_of s.file.now.bytes s.asked.now.items s.image.ghost_name
        s.asked.ghost_name };

    ghost is_world = { λ s. lent_world s.file.now.bytes s.asked.now.items s.image.now
        s.image.ghost_name s.asked.ghost_name s.lent s.whole s.of_bytes };
}

impl<'a> Disk for LentHost<'a> {
    fn size(&self) -> u64 {
        self.image.len() as u64
    }

    fn faults(&self) -> u64 {
        u64::MAX
    }

    fn read(&mut self, at: u64, out: &mut [u8]) -> Result<(), Failed> {
        read_from(self.image, at as usize, out);
        Ok(())
    }

    fn write(&mut self, at: u64, bytes: &[u8]) -> Result<(), Failed> {
        if list_write(self.image, self.asked, self.alloc, at as usize, bytes) {
            Ok(())
        } else {
            Err(Failed)
        }
    }

    fn sync(&mut self) -> Result<(), Failed> {
        if list(self.asked, Asked::Sync) {
            Ok(())
        } else {
            Err(Failed)
        }
    }
}

impl<'a> Source for LentHost<'a> {
    fn take(&mut self, _out: &mut [u8]) -> Result<usize, Failed> {
        Err(Failed)
    }
}

impl<'a> Sink for LentHost<'a> {
    fn put(&mut self, _bytes: &[u8]) -> Result<usize, Failed> {
        Err(Failed)
    }
}

impl<'a> Host for LentHost<'a> {}

// Lists a call, and says whether there was memory for it.
fn list(asked: &mut Vec<Asked>, call: Asked) -> bool
    ensures { asked.new.items ≡ (if result then asked.old.items ++ call ∷ [] else asked.old.items) }
{
    asked.push(call).is_ok()
}

// Writes over the image, and lists that; or finds no memory for it and changes nothing.
fn list_write(
    image: &mut [u8],
    asked: &mut Vec<Asked>,
    alloc: Global,
    at: usize,
    bytes: &[u8],
) -> bool
    requires { at + length bytes.now ≤ length image.old }
    ensures done { IsTrue result → (copy : _) × (copy.items ≡ bytes.now)
        × (asked.new.items ≡ asked.old.items ++ Write at copy ∷ [])
        × (image.new ≡ repl image.old at bytes.now) }
    ensures asked { result ≡ false → asked.new.items ≡ asked.old.items }
    ensures image { result ≡ false → image.new ≡ image.old }
{
    let Ok(copy) = bytes.to_vec(alloc) else {
        return false;
    };
    if !list(asked, Asked::Write { at, bytes: copy }) {
        return false;
    }
    write_over(image, at, bytes);
    true
}

// Fills `out` with the bytes of the image from a place on.
fn read_from(image: &mut [u8], at: usize, out: &mut [u8])
    requires { at + length out.old ≤ length image.old }
    ensures bytes { out.new ≡ part image.old at (length out.old) }
    ensures image { image.new ≡ image.old }
{
    out.copy_from_slice(&image[at..at + out.len()]);
}

// Puts bytes over those of the image from a place on.
fn write_over(image: &mut [u8], at: usize, bytes: &[u8])
    requires { at + length bytes.now ≤ length image.old }
    ensures { image.new ≡ repl image.old at bytes.now }
{
    image[at..at + bytes.len()].copy_from_slice(bytes);
}
