//! The records of a page, laid on another one with their links.
ghost use Rattle.std.specs.Prelude.{◌≡◌, ◌≤◌, ◌+◌, ◌∷◌, ◌++◌, [], ℕ, List, None, false, length, take, IfSome, IfNone, IsTrue};
ghost use Rattle.std.specs.List.{AllByRecursion};
ghost use Rattle.object_records.specs.Reads.{content_of, record_on};
ghost use Rattle.object_records.specs.Record.{BodyOf, IsRecord, NewerFits, Record, content_bytes};
ghost use Rattle.slotted_pages.specs.Edits.{place_for, slots_of};
ghost use Rattle.slotted_pages.specs.FilePage.{SlotsOf};
ghost use Rattle.slotted_pages.specs.Reads.{IsPage};
ghost use Rattle.history_writes.specs.Laid.{page_of};
ghost use Rattle.history_writes.specs.Linked.{AllMayHave, HaveFields, MayHave, head_linked, record_linked, records_linked};

use history_links::Links;
use object_records::{Head, Payload, RecordView, State, write_large, write_small};
use slotted_pages::{SlottedView, empty_page, insert_body};

/// A head with other links. None where a version of its state has no newer one, and the links name one.
fn head_with(head: &Head, links: &Links) -> Option<Head>
    ensures linked { IfSome result (λ linked. linked ≡ head_linked links.now head.now) }
    ensures fits { IfSome result (λ linked. NewerFits linked.state linked.newer) }
    ensures none { IfNone result (NewerFits head.now.state links.now.newer → ⊥) }
{
    if head.state == State::Current && links.newer.is_some() {
        return None;
    }
    Some(Head {
        state: head.state,
        unique: head.unique,
        older: links.older,
        newer: links.newer,
    })
}

/// Writes the record of a head and a content over all of `out`, which is as long as it.
fn write_record(head: &Head, payload: &Payload<'_>, out: &mut [u8])
    requires fits { IsRecord (record { head = head.now; content = content_of payload.now }) }
    requires room { length out.old ≡ 22 + length (content_bytes (content_of payload.now)) }
    ensures { BodyOf out.new (record { head = head.now; content = content_of payload.now }) }
{
    match payload {
        Payload::Small(bytes) => write_small(head, bytes, out),
        Payload::Large(root) => write_large(head, root, out),
    }
}

/// Writes the record that a body is over the first bytes, with other links, and answers how many they are: as many as the body's. None where the body is no record, or
/// one that has no such links.
fn write_linked(body: &[u8], links: &Links, out: &mut [u8]) -> Option<usize>
    requires fields { HaveFields links.now }
    requires room { length body.now ≤ length out.old }
    ensures len { IfSome result (λ len. len ≡ length body.now) }
    ensures is { IfSome result (λ len. BodyOf body.now (record_on body.now)) }
    ensures linked { IfSome result (λ len.
        BodyOf (take len out.new) (record_linked links.now (record_on body.now))) }
    ensures none { IfNone result ((r : Record) → BodyOf body.now r → MayHave links.now r → ⊥) }
{
    let Some(view) = RecordView::of(body) else {
        return None;
    };
    let Some(head) = head_with(&view.head(), links) else {
        return None;
    };
    write_record(&head, &view.payload(), &mut out[..body.len()]);
    Some(body.len())
}

/// Lays the record that a body is behind the last one of a page, with other links. False where the body is no record, or one that has no such links, or the page has no
/// room for it. The record is made in `out`.
fn lay_linked(body: &[u8], links: &Links, out: &mut [u8], into: &mut [u8]) -> bool
    requires fields { HaveFields links.now }
    requires room { length body.now ≤ length out.old }
    requires page { IsPage into.old }
    ensures laid { IsTrue result → (file_no : ℕ) (records : List Record) (r : Record)
        → SlotsOf into.old (page_of file_no records) → BodyOf body.now r
        → SlotsOf into.new (page_of file_no (records ++ record_linked links.now r ∷ [])) }
    ensures no_room { result ≡ false → (r : Record) → BodyOf body.now r → MayHave links.now r
        → place_for (length into.old) (slots_of into.old) (length body.now) ≡ None }
    ensures page { IsPage into.new }
{
    let Some(len) = write_linked(body, links, out) else {
        return false;
    };
    match insert_body(into, &out[..len]) {
        Some(_) => true,
        None => false,
    }
}

/// Makes a page that of the records of another one, each with its links, and answers how many they are. None where that isn't a page of a file without a vacant slot, or
/// there are fewer links than records, or one is no record or one that has no such links. Each record is made in `out`.
pub(crate) fn copy_linked(
    from: &[u8],
    links: &[Links],
    out: &mut [u8],
    into: &mut [u8],
) -> Option<usize>
    requires fields { AllByRecursion HaveFields links.now }
    requires size { length into.old ≡ length from.now }
    requires page { (16 ≤ length from.now) × (length from.now ≤ 8192) }
    requires room { length from.now ≤ length out.old }
    ensures counts { IfSome result (λ count. (file_no : ℕ) (records : List Record)
        → SlotsOf from.now (page_of file_no records) → count ≡ length records) }
    ensures copied { IfSome result (λ count. (file_no : ℕ) (records : List Record)
        → SlotsOf from.now (page_of file_no records) → AllByRecursion IsRecord records
        → SlotsOf into.new (page_of file_no (records_linked links.now records))) }
    ensures few { IfSome result (λ count. count ≤ length links.now) }
    ensures none { IfNone result ((file_no : ℕ) (records : List Record)
        → SlotsOf from.now (page_of file_no records) → AllByRecursion IsRecord records
        → AllMayHave links.now records → ⊥) }
{
    let Some(view) = SlottedView::of(from) else {
        return None;
    };
    empty_page(into, view.file_no());
    for slot in 0..view.slots() {
        let Some(body) = view.body(slot) else {
            return None;
        };
        let Some(one) = links.get(slot as usize) else {
            return None;
        };
        if !lay_linked(body, one, out, into) {
            return None;
        }
    }
    Some(view.slots() as usize)
}
