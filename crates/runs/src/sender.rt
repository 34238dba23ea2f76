//! How a reply is sent.
ghost use Rattle.std.specs.Prelude.{◌≡◌, ◌++◌, Err, length, OnOk, IfErr};
ghost use Rattle.script_replies.specs.ReplyText.{text_of};
ghost use Rattle.talks.specs.Sending.{SentFront, SentPart};
ghost use Rattle.talks.specs.Stops.{CausedBy, IsSendingStop};

use disk_model::{Sink, send_all};
use script_replies::push_reply;
use std::alloc::Global;
use table_model::Reply;
use talks::Stopped;

/// The most bytes that the buffer for replies keeps between two of them.
const TEXT_KEPT: usize = 65_536;

/// Sends these bytes and the text of a reply behind them, which are put into the buffer first. What a long one took is given back. They are never sent
/// whole where this fails.
pub fn say<S: Sink>(
    alloc: Global,
    text: &mut Vec<u8>,
    sink: &mut S,
    front: &[u8],
    reply: Reply,
) -> Result<(), Stopped>
    ensures sent { OnOk result (SentFront (S.outside sink.old) (S.outside sink.new)
        (front.now ++ text_of reply) (length (front.now ++ text_of reply))) }
    ensures part { IfErr result (λ why. SentPart why (S.outside sink.old) (S.outside sink.new)
        (front.now ++ text_of reply)) }
    ensures unsent { result ≡ Err Stopped.Memory → sink.new ≡ sink.old }
    ensures caused { IfErr result (λ why. CausedBy why (S.outside sink.old) (S.outside sink.new)) }
    ensures stops { IfErr result IsSendingStop }
{
    text.clear();
    text.extend_from_slice(front)?;
    push_reply(text, &reply)?;
    if send_all(sink, text.as_slice()).is_err() {
        return Err(Stopped::Output);
    }
    if text.capacity() > TEXT_KEPT {
        *text = Vec::new(alloc);
    }
    Ok(())
}
