//! The item of a version, as it is read.
ghost use Rattle.std.specs.Prelude.{◌≡◌, ◌≤◌, ◌<◌, ℕ, List, Option, length, take, Some, None, IfOk, IfErr, IfSome};
ghost use Rattle.ex_base.specs.Fields.{IsPageField};
ghost use Rattle.ex_base.specs.Ports.{Keeps, HasCause, IsDamage};
ghost use Rattle.ex_base.specs.declared.names.Index.{Index};
ghost use Rattle.history_items.specs.Gathering.{item_most};
ghost use Rattle.history_model.specs.History.{HistoryVersion};
ghost use Rattle.history_model.specs.Stream.{version_item};
ghost use Rattle.history_plans.specs.Plans.{pages_at};
ghost use Rattle.object_records.specs.Reads.{content_of};
ghost use Rattle.object_records.specs.Record.{BodyOf, Content, IsContent, Record};
ghost use Rattle.volume_model.specs.Volume.{is_frozen};
ghost use Rattle.history_dump.specs.Items.{IsListedVersion, IsNumberedContent, IsOlderNumber, IsVersionOf, page_numbered};

use ex_base::{PageNo, Place, PortFault, ReadVolume, Root};
use file_bodies::body_at;
use history_items::{VersionItem, write_version};
use history_plans::Plan;
use object_records::{Payload, RecordView, State};
use record_lists::Listed;
use std::alloc::Global;
use versions::{head_at, no_record};

/// The number of the root page of a tree of a height, if it has one: none where the plan hasn't the page.
fn page_numbered(plan: &Plan, height: u8, page: Option<PageNo>) -> Option<Option<PageNo>>
    ensures is { result ≡ page_numbered (pages_at height plan.now) page }
    ensures field { IfSome result IsPageField }
{
    match page {
        None => Some(None),
        Some(page) => match plan.number_of(height, page) {
            None => None,
            Some(number) => Some(Some(PageNo(number))),
        },
    }
}

/// The root of a tree with its number in the place of its page: none where the plan hasn't the page.
fn root_numbered(plan: &Plan, root: Root) -> Option<Root>
    ensures some { IfSome result (λ numbered. (numbered.height ≡ root.height)
        × (numbered.size ≡ root.size)
        × (page_numbered (pages_at root.height plan.now) root.page ≡ Some numbered.page)) }
    ensures field { IfSome result (λ numbered. IsPageField numbered.page) }
    ensures none { result ≡ None → page_numbered (pages_at root.height plan.now) root.page ≡ None }
{
    match page_numbered(plan, root.height, root.page) {
        None => None,
        Some(page) => Some(Root {
            height: root.height,
            page,
            size: root.size,
        }),
    }
}

/// The number of the version at an older place, where there is one.
fn older_at<V: ReadVolume>(
    volume: &mut V,
    alloc: Global,
    older: Option<Place>,
) -> Result<Option<u64>, PortFault>
    requires { V.ready volume.old }
    ensures number { IfOk result (λ number. V.tells volume.old → (index : Index) (is : Option ℕ)
        → IsOlderNumber V.Ground volume.old index older is → is ≡ number) }
    ensures sound { IfErr result (λ fault. IsDamage fault → V.tells volume.old → (index : Index)
        (is : Option ℕ) → IsOlderNumber V.Ground volume.old index older is → ⊥) }
    ensures kept { Keeps V.Ground volume.old volume.new }
    ensures cause { HasCause (V.faults volume.old) (V.faults volume.new) result }
{
    match older {
        None => Ok(None),
        Some(place) => match head_at(volume, alloc, place) {
            Ok(head) => Ok(Some(head.unique)),
            Err(fault) => Err(fault),
        },
    }
}

/// Whether a version is frozen.
fn is_frozen(state: State) -> bool
    ensures { result ≡ is_frozen state }
{
    match state {
        State::Current => false,
        State::Frozen => true,
    }
}

/// What a version holds, with the number of its root: none where the plan hasn't the root's page.
fn content_numbered<'a>(plan: &Plan, content: Payload<'a>) -> Option<Payload<'a>>
    ensures some { IfSome result (λ numbered. IsNumberedContent plan.now (content_of content.entry)
        (content_of numbered)) }
    ensures fits { IfSome result (λ numbered. IsContent (content_of content.entry)
        → IsContent (content_of numbered)) }
    ensures none { result ≡ None → (numbered : Content)
        → IsNumberedContent plan.now (content_of content.entry) numbered → ⊥ }
{
    match content {
        Payload::Small(bytes) => Some(Payload::Small(bytes)),
        Payload::Large(root) => match root_numbered(plan, root) {
            None => None,
            Some(root) => Some(Payload::Large(root)),
        },
    }
}

/// Makes the item of the version of a record over the first bytes; it answers how many they are.
fn put_record(
    body: &[u8],
    plan: &Plan,
    place: Place,
    older: Option<u64>,
    out: &mut [u8],
) -> Result<usize, PortFault>
    ensures item { IfOk result (λ n. (is : Record) (v : HistoryVersion)
        → BodyOf body.now is → IsVersionOf plan.now is older v
        → take n out.new ≡ version_item v) }
    ensures some { IfOk result (λ n. 0 < n) }
    ensures inside { IfOk result (λ n. n ≤ length out.old) }
    ensures sound { IfErr result (λ fault. (is : Record) (v : HistoryVersion)
        → BodyOf body.now is → length body.now ≤ length out.old
        → IsVersionOf plan.now is older v → ⊥) }
    ensures cause { (before now : ℕ) → HasCause before now result }
{
    let Some(record) = RecordView::of(body) else {
        return Err(no_record(place));
    };
    let Some(content) = content_numbered(plan, record.payload()) else {
        return Err(no_record(place));
    };
    if body.len() > out.len() {
        return Err(no_record(place));
    }
    let head = record.head();
    let version = VersionItem {
        unique: head.unique,
        frozen: is_frozen(head.state),
        older,
        content,
    };
    Ok(write_version(&version, out))
}

/// Makes the item of the version whose record is in the body at a place over the first bytes; it answers how many they are.
fn put_body(
    body: Option<&[u8]>,
    plan: &Plan,
    place: Place,
    older: Option<u64>,
    out: &mut [u8],
) -> Result<usize, PortFault>
    ensures item { IfOk result (λ n. IfSome body.entry (λ body. (is : Record) (v : HistoryVersion)
        → BodyOf body.now is → IsVersionOf plan.now is older v
        → take n out.new ≡ version_item v)) }
    ensures some { IfOk result (λ n. 0 < n) }
    ensures inside { IfOk result (λ n. n ≤ length out.old) }
    ensures sound { IfErr result (λ fault. IfSome body.entry (λ body. (is : Record)
        (v : HistoryVersion) → BodyOf body.now is → length body.now ≤ length out.old
        → IsVersionOf plan.now is older v → ⊥)) }
    ensures cause { (before now : ℕ) → HasCause before now result }
{
    let Some(body) = body else {
        return Err(no_record(place));
    };
    put_record(body, plan, place, older, out)
}

/// Reads the record of a version and makes its item over the first bytes; it answers how many they are.
pub(crate) fn put_version<V: ReadVolume>(
    volume: &mut V,
    alloc: Global,
    plan: &Plan,
    listed: &Listed,
    out: &mut [u8],
) -> Result<usize, PortFault>
    requires ready { V.ready volume.old }
    requires room { item_most (V.geometry volume.old) ≤ length out.old }
    ensures item { IfOk result (λ n. V.tells volume.old → (index : Index) (v : HistoryVersion)
        → IsListedVersion V.Ground volume.old plan.now index listed.now v
        → take n out.new ≡ version_item v) }
    ensures some { IfOk result (λ n. 0 < n) }
    ensures inside { IfOk result (λ n. n ≤ length out.old) }
    ensures sound { IfErr result (λ fault. IsDamage fault → V.tells volume.old → (index : Index)
        (v : HistoryVersion) → IsListedVersion V.Ground volume.old plan.now index listed.now v
        → ⊥) }
    ensures kept { Keeps V.Ground volume.old volume.new }
    ensures cause { HasCause (V.faults volume.old) (V.faults volume.new) result }
{
    let older = older_at(volume, alloc, listed.head.older)?;
    match body_at(volume, alloc, listed.place) {
        Ok(body) => put_body(body, plan, listed.place, older, out),
        Err(fault) => Err(fault),
    }
}
