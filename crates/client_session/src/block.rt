//! The block that a connection's answers are cut out of.
ghost use Rattle.std.specs.Prelude.{◌≡◌, ◌<◌, ◌^◌, [], IfOk, OnOk};
ghost use Rattle.{mcbp_frame.specs.Spelling.{spelling}, mcbp_kv.specs.Replies.{reply_frame, reply_with, ReplyFits}};

use crate::Alloc;
use bytes::{Bytes, BytesMut};
use mcbp_kv::{ReplyHead, answer_bytes, write_answer};
use std::alloc::Global;

/// The longest value of an answer that is cut out of the block. One that is kept keeps its block.
const MOST_CUT: usize = 128;

/// How much room a block has.
const ROOM: usize = 1024;

/// How much room an answer may take that is cut out of the block.
const MOST_TAKEN: usize = 24 + 16 + MOST_CUT;

/// A block that short answers are cut out of, one behind another, so that most take no memory of
/// their own. Once it is full it is used again, where its answers are gone.
#[derive(Drop)]
pub struct AnswerBlock {
    alloc: Global,
    block: BytesMut,
}

impl AnswerBlock {
    /// A block that has no room yet.
    pub fn new(alloc: Global) -> AnswerBlock {
        AnswerBlock {
            alloc,
            block: BytesMut::new(alloc),
        }
    }

    /// Makes room for a short answer, if there is none.
    fn make_room(&mut self) -> Alloc<()>
        ensures { OnOk result (self.new.block.items ≡ []) }
    {
        self.block.clear();
        if self.block.capacity() < MOST_TAKEN {
            self.block.reserve(ROOM)?;
        }
        Ok(())
    }

    /// The answer of a head, these extras and this value.
    pub fn spell(&mut self, head: &ReplyHead, extras: &[u8], value: &[u8]) -> Alloc<Bytes>
        requires { ReplyFits (reply_with head.now extras.now value.now) }
        ensures { IfOk result (λ bytes. bytes ≡ spelling (reply_frame (reply_with head.now extras.now value.now))) }
    {
        if value.len() > MOST_CUT {
            return answer_bytes(self.alloc, head, extras, value);
        }
        self.make_room()?;
        write_answer(head, extras, value, &mut self.block)?;
        let len = self.block.len();
        self.block.freeze_to(len)
    }
}
