//! What the replies to a script come to.
ghost use Rattle.std.specs.Prelude.{◌≡◌, ◌<◌, ◌+◌, ◌++◌, ◌∷◌, ◌^◌, [], List, ℕ, length, IfOk, OnOk, string_bytes};
ghost use Rattle.table_model.specs.declared.reply.Reply.{Reply};

use script_replies::push_reply;
use sha2::{Digest, Sha256};
use std::alloc::{AllocError, Global};
use table_model::Reply;

/// How many replies there were, accepted and refused, and a hash of their texts.
#[derive(Drop)]
pub struct Tally {
    accepted: u64,
    refused: u64,
    hasher: Sha256,
    /// The text of one reply.
    text: Vec<u8>,
}

impl Tally {
    ghost use Rattle.generated.specs.Replies.{IsTallyOf, gen_line};

    /// That of no reply.
    pub(crate) fn make(alloc: Global) -> Tally
        ensures { IsTallyOf [] result }
    {
        Tally {
            accepted: 0,
            refused: 0,
            hasher: Sha256::new(),
            text: Vec::new(alloc),
        }
    }

    /// Takes one more reply in.
    pub(crate) fn add(&mut self, told: &Reply) -> Result<(), AllocError>
        ensures { OnOk result ((replies : List Reply) → IsTallyOf replies self.old
            → length replies + 1 < 2 ^ 64 → IsTallyOf (replies ++ told.now ∷ []) self.new) }
    {
        self.text.clear();
        push_reply(&mut self.text, told)?;
        self.hasher.update(self.text.as_slice());
        match told {
            Reply::No(_) => self.refused = self.refused.saturating_add(1),
            _ => self.accepted = self.accepted.saturating_add(1),
        }
        Ok(())
    }

    /// The line that says it: how many replies, how many accepted and refused, and the hash.
    pub(crate) fn line(self, alloc: Global) -> Result<String, AllocError>
        ensures { IfOk result (λ line. (replies : List Reply) → IsTallyOf replies self
            → string_bytes line ≡ gen_line replies) }
    {
        let Tally {
            accepted,
            refused,
            hasher,
            text: _,
        } = self;
        let hash = hex::encode(alloc, hasher.finalize())?;
        let replies = accepted.saturating_add(refused);
        format!(in alloc; "ok gen {replies} {accepted} {refused} {hash}\n")
    }
}
