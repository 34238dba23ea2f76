ghost use Rattle.std.specs.Prelude.{◌≡◌, IfSome, IfNone};
ghost use Rattle.object_records.specs.Record.{Record, BodyOf};
ghost use Rattle.object_records.specs.Reads.{RecordReads, record_on, content_of};

use crate::reads::is_record;
use crate::{
    BYTES, FORM, FROZEN, Head, LARGE, LENGTH, NEWER, OLDER, PAGE, Payload, SIZE, STATE, State,
    UNIQUE,
};
use ex_base::{Root, get_page, get_place, get_u16, get_u64};
use std::marker::Model;

/// A body that is a record, seen as its head and its content.
#[derive(Drop)]
pub struct RecordView<'a> {
    body: &'a [u8],
}

impl<'a> Model for RecordView<'a> {
    ghost Value = { Record };

    ghost view = { λ v. record_on v.body.now };

    ghost invariant = { λ v. RecordReads v.body.now };
}

impl<'a> RecordView<'a> {
    /// The view of a body, exactly where it is a record.
    pub fn of(body: &'a [u8]) -> Option<RecordView<'a>>
        ensures found { IfSome result (λ found. BodyOf body.now found) }
        ensures none { IfNone result ((r : Record) → BodyOf body.now r → ⊥) }
    {
        if !is_record(body) {
            return None;
        }
        Some(RecordView { body })
    }

    /// The state of the version, its unique number and its neighbours.
    pub fn head(&self) -> Head
        ensures { result ≡ self.now.head }
    {
        let state = if self.body[STATE] == FROZEN {
            State::Frozen
        } else {
            State::Current
        };
        Head {
            state,
            unique: get_u64(self.body, UNIQUE),
            older: get_place(self.body, OLDER),
            newer: get_place(self.body, NEWER),
        }
    }

    /// The bytes of a small version, lent, or the root of a large one.
    pub fn payload(&self) -> Payload<'a>
        ensures { content_of result ≡ self.now.content }
    {
        let len = get_u16(self.body, LENGTH);
        if self.body[FORM] == LARGE {
            return Payload::Large(Root {
                height: len as u8,
                page: get_page(self.body, PAGE),
                size: get_u64(self.body, SIZE),
            });
        }
        Payload::Small(&self.body[BYTES..BYTES + len as usize])
    }
}
