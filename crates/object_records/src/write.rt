ghost use Rattle.std.specs.Prelude.{◌≡◌, ◌+◌, ◌≤◌, max, [], ◌∷◌, ◌++◌, length, drop};
ghost use Rattle.ex_base.specs.Fields.{eight_bytes, place_field};
ghost use Rattle.object_records.specs.Record.{BodyOf, IsRecord, state_byte};
ghost use Rattle.object_records.specs.Reads.{small_record, large_record};

use crate::{
    BYTES, CURRENT, FORM, FROZEN, Head, LARGE, LEAST_PAYLOAD, LENGTH, NEWER, OLDER, PAGE, SIZE,
    SMALL, STATE, State, UNIQUE,
};
use ex_base::{Root, clear_from, put_bytes, put_page, put_place, put_u16, put_u64};

/// The bytes of the record of a small version of so many bytes. The record of a large one, of 36 bytes, fits in its place.
pub fn body_len(small: u32) -> u32
    requires { small ≤ 4294967271 }
    ensures length { result ≡ 24 + max 12 small }
    ensures fits_large { 36 ≤ result }
{
    BYTES as u32 + small.max(LEAST_PAYLOAD as u32)
}

/// What a state is written as.
fn state_code(state: State) -> u8
    ensures { result ≡ state_byte state }
{
    match state {
        State::Current => CURRENT,
        State::Frozen => FROZEN,
    }
}

/// Writes a form and a head.
fn write_head(form: u8, head: &Head, out: &mut [u8])
    requires { 36 ≤ length out.old }
    ensures { out.new ≡ (form ∷ state_byte head.now.state ∷ []) ++ eight_bytes head.now.unique
        ++ place_field head.now.older ++ place_field head.now.newer ++ drop 22 out.old }
{
    out[FORM] = form;
    out[STATE] = state_code(head.state);
    put_u64(out, UNIQUE, head.unique);
    put_place(out, OLDER, head.older);
    put_place(out, NEWER, head.newer);
}

/// Writes the record of a small version. `out` has as many bytes as `body_len` gives.
pub fn write_small(head: &Head, bytes: &[u8], out: &mut [u8])
    requires fits { IsRecord (small_record head.now bytes.now) }
    requires room { length out.old ≡ 24 + max 12 (length bytes.now) }
    ensures { BodyOf out.new (small_record head.now bytes.now) }
{
    write_head(SMALL, head, out);
    put_u16(out, LENGTH, bytes.len() as u16);
    put_bytes(out, BYTES, bytes);
    clear_from(out, BYTES + bytes.len());
}

/// Writes the record of a large version. `out` has 36 bytes.
pub fn write_large(head: &Head, root: &Root, out: &mut [u8])
    requires fits { IsRecord (large_record head.now root.now) }
    requires room { length out.old ≡ 36 }
    ensures { BodyOf out.new (large_record head.now root.now) }
{
    write_head(LARGE, head, out);
    put_u16(out, LENGTH, u16::from(root.height));
    put_u64(out, SIZE, root.size);
    put_page(out, PAGE, root.page);
}
