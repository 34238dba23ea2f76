//! The text of a reply, appended to one buffer.
#![tactic(auto, using(crate::proofs::Fronts::front_same, crate::proofs::Fronts::front_after))]

ghost use Rattle.std.specs.Prelude.{◌≡◌, ◌++◌, ◌∷◌, [], List, map, length, codes, decimal, OnOk, IfOk, OnErr};
ghost use Rattle.hex.specs.Hex.{encode_lower};
ghost use Rattle.script_replies.specs.ReplyText.{oid_word, hex_words, area_word, counted_words, refusal_words, ok, text_of};
ghost use Rattle.script_replies.specs.Texts.{line_of, spaced, refusal_name, value_words, IsFront};

use crate::digits::write_digits;
use crate::text::Text;
use ex_base::{Area, Oid};
use itoa::Buffer;
use std::alloc::{AllocError, Global};
use table_model::{Name, Refusal, Reply};

/// Appends the number in decimal.
fn push_number(out: &mut Vec<u8>, n: u64) -> Result<(), AllocError>
    ensures text { OnOk result (out.new.items ≡ out.old.items ++ decimal n) }
    ensures front { OnErr result (IsFront out.old.items out.new.items) }
{
    let mut buffer = Buffer::new();
    out.extend_from_slice(buffer.format(n).as_bytes())
}

/// Appends a space and the word.
fn push_word(out: &mut Vec<u8>, word: &[u8]) -> Result<(), AllocError>
    ensures text { OnOk result (out.new.items ≡ out.old.items ++ 32 ∷ word.now) }
    ensures front { OnErr result (IsFront out.old.items out.new.items) }
{
    out.extend_from_slice(b" ")?;
    out.extend_from_slice(word)?;
    Ok(())
}

fn push_text(out: &mut Vec<u8>, word: &str) -> Result<(), AllocError>
    ensures text { OnOk result (out.new.items ≡ out.old.items ++ 32 ∷ word.now) }
    ensures front { OnErr result (IsFront out.old.items out.new.items) }
{
    push_word(out, word.as_bytes())
}

fn push_count(out: &mut Vec<u8>, n: u64) -> Result<(), AllocError>
    ensures text { OnOk result (out.new.items ≡ out.old.items ++ 32 ∷ decimal n) }
    ensures front { OnErr result (IsFront out.old.items out.new.items) }
{
    out.extend_from_slice(b" ")?;
    push_number(out, n)?;
    Ok(())
}

/// Appends a space and `page.slot.unique`.
fn push_oid(out: &mut Vec<u8>, oid: Oid) -> Result<(), AllocError>
    ensures text { OnOk result (out.new.items ≡ out.old.items ++ 32 ∷ oid_word oid) }
    ensures front { OnErr result (IsFront out.old.items out.new.items) }
{
    push_count(out, u64::from(oid.page.0))?;
    out.extend_from_slice(b".")?;
    push_number(out, u64::from(oid.slot))?;
    out.extend_from_slice(b".")?;
    push_number(out, oid.unique)?;
    Ok(())
}

/// Appends the bytes as lower-case hexadecimal digits.
fn push_digits(out: &mut Vec<u8>, bytes: &[u8]) -> Result<(), AllocError>
    ensures text { OnOk result (out.new.items ≡ out.old.items ++ encode_lower bytes.now) }
    ensures front { OnErr result (IsFront out.old.items out.new.items) }
{
    let start = out.len();
    let digits = bytes.len() * 2;
    out.reserve(digits)?;
    out.resize(start + digits, 0)?;
    write_digits(bytes, &mut out[start..]);
    Ok(())
}

/// Appends a space and the bytes as digits; of no bytes nothing.
fn push_hex(out: &mut Vec<u8>, bytes: &[u8]) -> Result<(), AllocError>
    ensures text { OnOk result (out.new.items ≡ out.old.items ++ spaced (hex_words bytes.now)) }
    ensures front { OnErr result (IsFront out.old.items out.new.items) }
{
    if bytes.is_empty() {
        return Ok(());
    }
    out.extend_from_slice(b" ")?;
    push_digits(out, bytes)?;
    Ok(())
}

#[tactic(auto, using(crate::proofs::Fronts::front_trans, crate::proofs::Fronts::front_more, crate::proofs::Fronts::front_same))]
fn push_names(out: &mut Vec<u8>, names: &[Name]) -> Result<(), AllocError>
    ensures text { OnOk result (out.new.items ≡ out.old.items ++ spaced names.now) }
    ensures front { OnErr result (IsFront out.old.items out.new.items) }
{
    'names: for name in names {
        push_word(out, name.as_slice())?;
    }
    Ok(())
}

#[tactic(auto, using(crate::proofs::Fronts::front_trans, crate::proofs::Fronts::front_more, crate::proofs::Fronts::front_same))]
fn push_oids(out: &mut Vec<u8>, oids: &[Oid]) -> Result<(), AllocError>
    ensures text { OnOk result (out.new.items ≡ out.old.items ++ spaced (map oid_word oids.now)) }
    ensures front { OnErr result (IsFront out.old.items out.new.items) }
{
    'oids: for oid in oids {
        push_oid(out, *oid)?;
    }
    Ok(())
}

#[tactic(auto, using(crate::proofs::Fronts::front_trans, crate::proofs::Fronts::front_more, crate::proofs::Fronts::front_same))]
fn push_lengths(out: &mut Vec<u8>, lengths: &[u32]) -> Result<(), AllocError>
    ensures text { OnOk result (out.new.items ≡ out.old.items ++ spaced (map decimal lengths.now)) }
    ensures front { OnErr result (IsFront out.old.items out.new.items) }
{
    'lengths: for length in lengths {
        push_count(out, u64::from(*length))?;
    }
    Ok(())
}

fn push_end(out: &mut Vec<u8>) -> Result<(), AllocError>
    ensures text { OnOk result (out.new.items ≡ out.old.items ++ 10 ∷ []) }
    ensures front { OnErr result (IsFront out.old.items out.new.items) }
{
    out.extend_from_slice(b"\n")
}

/// Appends `ok` and the word.
fn push_ok(out: &mut Vec<u8>, word: &str) -> Result<(), AllocError>
    ensures text { OnOk result (out.new.items ≡ out.old.items ++ (codes "ok" ++ 32 ∷ word.now)) }
    ensures front { OnErr result (IsFront out.old.items out.new.items) }
{
    out.extend_from_slice(b"ok")?;
    push_text(out, word)?;
    Ok(())
}

fn push_alone(out: &mut Vec<u8>, word: &str) -> Result<(), AllocError>
    ensures text { OnOk result (out.new.items ≡ out.old.items ++ line_of (ok word.now [])) }
    ensures front { OnErr result (IsFront out.old.items out.new.items) }
{
    push_ok(out, word)?;
    push_end(out)?;
    Ok(())
}

fn push_with_number(out: &mut Vec<u8>, word: &str, n: u64) -> Result<(), AllocError>
    ensures text { OnOk result (out.new.items ≡ out.old.items
        ++ line_of (ok word.now (decimal n ∷ []))) }
    ensures front { OnErr result (IsFront out.old.items out.new.items) }
{
    push_ok(out, word)?;
    push_count(out, n)?;
    push_end(out)?;
    Ok(())
}

fn push_with_name(out: &mut Vec<u8>, word: &str, name: &[u8]) -> Result<(), AllocError>
    ensures text { OnOk result (out.new.items ≡ out.old.items
        ++ line_of (ok word.now (name.now ∷ []))) }
    ensures front { OnErr result (IsFront out.old.items out.new.items) }
{
    push_ok(out, word)?;
    push_word(out, name)?;
    push_end(out)?;
    Ok(())
}

fn push_with_oid(out: &mut Vec<u8>, word: &str, oid: Oid) -> Result<(), AllocError>
    ensures text { OnOk result (out.new.items ≡ out.old.items
        ++ line_of (ok word.now (oid_word oid ∷ []))) }
    ensures front { OnErr result (IsFront out.old.items out.new.items) }
{
    push_ok(out, word)?;
    push_oid(out, oid)?;
    push_end(out)?;
    Ok(())
}

fn push_with_bytes(out: &mut Vec<u8>, word: &str, bytes: &[u8]) -> Result<(), AllocError>
    ensures text { OnOk result (out.new.items ≡ out.old.items
        ++ line_of (ok word.now (decimal (length bytes.now) ∷ hex_words bytes.now))) }
    ensures front { OnErr result (IsFront out.old.items out.new.items) }
{
    push_ok(out, word)?;
    push_count(out, bytes.len() as u64)?;
    push_hex(out, bytes)?;
    push_end(out)?;
    Ok(())
}

fn push_with_names(out: &mut Vec<u8>, word: &str, names: &[Name]) -> Result<(), AllocError>
    ensures text { OnOk result (out.new.items ≡ out.old.items
        ++ line_of (ok word.now (counted_words names.now))) }
    ensures front { OnErr result (IsFront out.old.items out.new.items) }
{
    push_ok(out, word)?;
    push_count(out, names.len() as u64)?;
    push_names(out, names)?;
    push_end(out)?;
    Ok(())
}

/// Appends how many there are, and each.
fn push_counted_oids(out: &mut Vec<u8>, oids: &[Oid]) -> Result<(), AllocError>
    ensures text { OnOk result (out.new.items ≡ out.old.items
        ++ spaced (counted_words (map oid_word oids.now))) }
    ensures front { OnErr result (IsFront out.old.items out.new.items) }
{
    push_count(out, oids.len() as u64)?;
    push_oids(out, oids)?;
    Ok(())
}

fn push_with_oids(out: &mut Vec<u8>, word: &str, oids: &[Oid]) -> Result<(), AllocError>
    ensures text { OnOk result (out.new.items ≡ out.old.items
        ++ line_of (ok word.now (counted_words (map oid_word oids.now)))) }
    ensures front { OnErr result (IsFront out.old.items out.new.items) }
{
    push_ok(out, word)?;
    push_counted_oids(out, oids)?;
    push_end(out)?;
    Ok(())
}

fn push_digest(out: &mut Vec<u8>, hash: &[u8; 32]) -> Result<(), AllocError>
    ensures text { OnOk result (out.new.items ≡ out.old.items
        ++ line_of (ok (codes "digest") (hex_words hash.now))) }
    ensures front { OnErr result (IsFront out.old.items out.new.items) }
{
    push_ok(out, "digest")?;
    push_hex(out, hash)?;
    push_end(out)?;
    Ok(())
}

/// The number and the name of a refusal.
fn refusal_name(why: &Refusal) -> &'static str
    ensures { result.now ≡ refusal_name why.now }
{
    match why {
        Refusal::LineLong => "1 line_long",
        Refusal::Syntax => "2 syntax",
        Refusal::DataLimit => "3 data_limit",
        Refusal::NoTxn => "4 no_txn",
        Refusal::TxnOpen => "5 txn_open",
        Refusal::NoName => "6 no_name",
        Refusal::NameTaken => "7 name_taken",
        Refusal::NoFile => "8 no_file",
        Refusal::FileExists => "9 file_exists",
        Refusal::FilesFull => "10 files_full",
        Refusal::NoObject => "11 no_object",
        Refusal::Frozen => "12 frozen",
        Refusal::Current => "13 current",
        Refusal::NotEmpty => "14 not_empty",
        Refusal::HasVersions => "15 has_versions",
        Refusal::NoScan => "16 no_scan",
        Refusal::NoGroup => "17 no_group",
        Refusal::Range => "18 range",
        Refusal::TooLarge => "19 too_large",
        Refusal::TooMany { .. } => "20 too_many",
        Refusal::IdsSpent => "21 ids_spent",
        Refusal::LongTxn { .. } => "22 long_txn",
        Refusal::Full { .. } => "23 full",
        Refusal::Branches { .. } => "24 branches",
        Refusal::Busy { .. } => "25 busy",
    }
}

fn area_name(area: Area) -> &'static str
    ensures { result.now ≡ area_word area }
{
    match area {
        Area::Page => "pages",
        Area::Segment => "segs",
    }
}

/// Appends the values of a refusal.
fn push_values(out: &mut Vec<u8>, why: &Refusal) -> Result<(), AllocError>
    ensures text { OnOk result (out.new.items ≡ out.old.items ++ spaced (value_words why.now)) }
    ensures front { OnErr result (IsFront out.old.items out.new.items) }
{
    match why {
        Refusal::TooMany { scans } => push_text(out, if *scans { "scans" } else { "groups" }),
        Refusal::LongTxn { updates, touched } => {
            push_count(out, u64::from(*updates))?;
            push_count(out, u64::from(*touched))
        }
        Refusal::Full { area, need, free } => {
            push_text(out, area_name(*area))?;
            push_count(out, *need)?;
            push_count(out, *free)
        }
        Refusal::Branches { derived } => push_count(out, *derived),
        Refusal::Busy { client } => push_count(out, u64::from(*client)),
        _ => Ok(()),
    }
}

fn push_refusal(out: &mut Vec<u8>, why: &Refusal) -> Result<(), AllocError>
    ensures text { OnOk result (out.new.items ≡ out.old.items
        ++ line_of (codes "no" ∷ refusal_words why.now)) }
    ensures front { OnErr result (IsFront out.old.items out.new.items) }
{
    out.extend_from_slice(b"no")?;
    push_text(out, refusal_name(why))?;
    push_values(out, why)?;
    push_end(out)?;
    Ok(())
}

fn push_small(out: &mut Vec<u8>, size: u64) -> Result<(), AllocError>
    ensures text { OnOk result (out.new.items ≡ out.old.items
        ++ line_of (ok (codes "stat") (codes "small" ∷ decimal size ∷ []))) }
    ensures front { OnErr result (IsFront out.old.items out.new.items) }
{
    push_ok(out, "stat")?;
    push_text(out, "small")?;
    push_count(out, size)?;
    push_end(out)?;
    Ok(())
}

/// Appends the leaves of a tree.
fn push_leaves(out: &mut Vec<u8>, leaves: u64, first: &[u32]) -> Result<(), AllocError>
    ensures text { OnOk result (out.new.items ≡ out.old.items ++ spaced (codes "leaves"
        ∷ decimal leaves ∷ map decimal first.now)) }
    ensures front { OnErr result (IsFront out.old.items out.new.items) }
{
    push_text(out, "leaves")?;
    push_count(out, leaves)?;
    push_lengths(out, first)?;
    Ok(())
}

/// Appends the size and the shape of a tree.
fn push_shape(
    out: &mut Vec<u8>,
    size: u64,
    height: u8,
    leaves: u64,
    first: &[u32],
) -> Result<(), AllocError>
    ensures text { OnOk result (out.new.items ≡ out.old.items
        ++ spaced (codes "large" ∷ decimal size ∷ codes "height" ∷ decimal height ∷ codes "leaves"
        ∷ decimal leaves ∷ map decimal first.now)) }
    ensures front { OnErr result (IsFront out.old.items out.new.items) }
{
    push_text(out, "large")?;
    push_count(out, size)?;
    push_text(out, "height")?;
    push_count(out, u64::from(height))?;
    push_leaves(out, leaves, first)?;
    Ok(())
}

fn push_large(
    out: &mut Vec<u8>,
    size: u64,
    height: u8,
    leaves: u64,
    first: &[u32],
) -> Result<(), AllocError>
    ensures text { OnOk result (out.new.items ≡ out.old.items
        ++ line_of (ok (codes "stat") (codes "large" ∷ decimal size ∷ codes "height"
        ∷ decimal height ∷ codes "leaves" ∷ decimal leaves ∷ map decimal first.now))) }
    ensures front { OnErr result (IsFront out.old.items out.new.items) }
{
    push_ok(out, "stat")?;
    push_shape(out, size, height, leaves, first)?;
    push_end(out)?;
    Ok(())
}

fn push_scan(out: &mut Vec<u8>, name: &[u8], size: u64) -> Result<(), AllocError>
    ensures text { OnOk result (out.new.items ≡ out.old.items
        ++ line_of (ok (codes "scan") (name.now ∷ decimal size ∷ []))) }
    ensures front { OnErr result (IsFront out.old.items out.new.items) }
{
    push_ok(out, "scan")?;
    push_word(out, name)?;
    push_count(out, size)?;
    push_end(out)?;
    Ok(())
}

/// Appends how many units of an area are in use.
fn push_used(out: &mut Vec<u8>, area: &str, used: u32, of: u32) -> Result<(), AllocError>
    ensures text { OnOk result (out.new.items ≡ out.old.items ++ spaced (area.now ∷ decimal used
        ∷ codes "of" ∷ decimal of ∷ [])) }
    ensures front { OnErr result (IsFront out.old.items out.new.items) }
{
    push_text(out, area)?;
    push_count(out, u64::from(used))?;
    push_text(out, "of")?;
    push_count(out, u64::from(of))?;
    Ok(())
}

fn push_space(
    out: &mut Vec<u8>,
    pages: u32,
    of_pages: u32,
    segs: u32,
    of_segs: u32,
) -> Result<(), AllocError>
    ensures text { OnOk result (out.new.items ≡ out.old.items
        ++ line_of (ok (codes "space") (codes "pages" ∷ decimal pages ∷ codes "of"
        ∷ decimal of_pages ∷ codes "segs" ∷ decimal segs ∷ codes "of" ∷ decimal of_segs ∷ []))) }
    ensures front { OnErr result (IsFront out.old.items out.new.items) }
{
    push_ok(out, "space")?;
    push_used(out, "pages", pages, of_pages)?;
    push_used(out, "segs", segs, of_segs)?;
    push_end(out)?;
    Ok(())
}

/// Appends the text of the reply. An `Err` may leave a part of it.
pub fn push_reply(out: &mut Vec<u8>, reply: &Reply) -> Result<(), AllocError>
    ensures text { OnOk result (out.new.items ≡ out.old.items ++ text_of reply.now) }
    ensures front { OnErr result (IsFront out.old.items out.new.items) }
{
    match reply {
        Reply::Begin { number } => push_with_number(out, "begin", *number),
        Reply::Commit { number } => push_with_number(out, "commit", *number),
        Reply::Abort => push_alone(out, "abort"),
        Reply::Checkpoint => push_alone(out, "checkpoint"),
        Reply::Log { records } => push_with_number(out, "log", u64::from(*records)),
        Reply::File { name } => push_with_name(out, "file", name.as_slice()),
        Reply::Unfile { name } => push_with_name(out, "unfile", name.as_slice()),
        Reply::Files { names } => push_with_names(out, "files", names.as_slice()),
        Reply::List { oids } => push_with_oids(out, "list", oids.as_slice()),
        Reply::Create { oid } => push_with_oid(out, "create", *oid),
        Reply::Destroy { oid } => push_with_oid(out, "destroy", *oid),
        Reply::Size { size } => push_with_number(out, "size", *size),
        Reply::StatSmall { size } => push_small(out, *size),
        Reply::StatLarge {
            size,
            height,
            leaves,
            first,
        } => push_large(out, *size, *height, *leaves, first.as_slice()),
        Reply::Digest { hash } => push_digest(out, hash),
        Reply::Read { bytes } => push_with_bytes(out, "read", bytes.as_slice()),
        Reply::Insert { size } => push_with_number(out, "insert", *size),
        Reply::Append { size } => push_with_number(out, "append", *size),
        Reply::Replace { size } => push_with_number(out, "replace", *size),
        Reply::Delete { size } => push_with_number(out, "delete", *size),
        Reply::Freeze { oid } => push_with_oid(out, "freeze", *oid),
        Reply::Derive { oid } => push_with_oid(out, "derive", *oid),
        Reply::Versions { oids } => push_with_oids(out, "versions", oids.as_slice()),
        Reply::DropVersion { oid } => push_with_oid(out, "drop", *oid),
        Reply::Group { name } => push_with_name(out, "group", name.as_slice()),
        Reply::Scan { name, size } => push_scan(out, name.as_slice(), *size),
        Reply::Next { bytes } => push_with_bytes(out, "next", bytes.as_slice()),
        Reply::Close { name } => push_with_name(out, "close", name.as_slice()),
        Reply::Space {
            pages,
            of_pages,
            segs,
            of_segs,
        } => push_space(out, *pages, *of_pages, *segs, *of_segs),
        Reply::No(why) => push_refusal(out, why),
    }
}

/// The text of the reply.
pub fn reply_text(alloc: Global, reply: &Reply) -> Result<Text, AllocError>
    ensures { IfOk result (λ text. text ≡ text_of reply.now) }
{
    let mut out = Vec::new(alloc);
    push_reply(&mut out, reply)?;
    Ok(Text::of(out))
}
