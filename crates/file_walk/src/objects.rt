//! The objects of a file, whose records are read.
ghost use Rattle.std.specs.Prelude.{◌≡◌, ◌<◌, ◌++◌, ℕ, false, length, slice_index, IfOk, OnOk, IsTrue};
ghost use Rattle.record_links.specs.Links.{AreLinked, InPlaceOrder};
ghost use Rattle.file_walk.specs.Objects.{AddsNumbered, found_by, links_of};

use crate::Found;
use crate::records::Standing;
use record_links::{Linked, label_records};
use std::alloc::{AllocError, Global};

/// Where records stand, and their heads.
fn links_of(alloc: Global, records: &[Standing]) -> Result<Vec<Linked>, AllocError>
    ensures { IfOk result (λ links. links.items ≡ links_of records.now) }
{
    let mut links = Vec::with_capacity(alloc, records.len())?;
    for standing in records {
        links.push(standing.linked)?;
    }
    Ok(links)
}

/// Adds records with their labels as objects, behind all records before.
fn add_labelled(
    records: &[Standing],
    labels: &[usize],
    found: &mut Vec<Found>,
) -> Result<(), AllocError>
    requires len { length labels.now ≡ length records.now }
    requires within { (k : ℕ) → k < length records.now
        → slice_index labels.now k < length records.now }
    ensures { OnOk result (found.new.items
        ≡ found.old.items ++ found_by (length found.old.items) records.now labels.now) }
{
    let first = found.len();
    for at in 0..records.len() {
        let standing = records[at];
        found.push(Found {
            place: standing.linked.place,
            unique: standing.linked.head.unique,
            object: first + labels[at],
            root: standing.root,
        })?;
    }
    Ok(())
}

/// Adds the records of a file, each with its object. False where one of them names another than it may as its older or its newer one.
pub(crate) fn add_objects(
    alloc: Global,
    records: &[Standing],
    found: &mut Vec<Found>,
) -> Result<bool, AllocError>
    requires { InPlaceOrder (links_of records.now) }
    ensures linked { IfOk result (λ good. IsTrue good → AreLinked (links_of records.now)) }
    ensures numbered { IfOk result
        (λ good. IsTrue good → AddsNumbered found.old.items found.new.items records.now) }
    ensures bad { IfOk result (λ good. good ≡ false → AreLinked (links_of records.now) → ⊥) }
{
    let links = links_of(alloc, records)?;
    match label_records(alloc, &links)? {
        None => Ok(false),
        Some(labels) => {
            add_labelled(records, &labels, found)?;
            Ok(true)
        }
    }
}
