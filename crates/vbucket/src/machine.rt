//! A vBucket is an object that seats call in turns.
ghost use Rattle.vb_calls.specs.Forms.{TakesMemory};
ghost use Rattle.vb_calls.specs.Plain.{Plain as PlainVb, plain_step};
ghost use Rattle.vbucket.specs.Highs.{high_of, may_reply};
ghost use Rattle.vbucket.specs.Stands.{StandsFor};

use crate::vbucket::VBucket;
use std::alloc::AllocError;
use vb_calls::{VbCall, VbReply};
use vb_turn::{Machine, Turn, TurnSeat};

impl Machine<VbCall, VbReply> for VBucket {
    ghost Plain = { PlainVb };

    ghost stands = { StandsFor };

    ghost next = { plain_step };

    ghost number = { high_of };

    ghost has_form = { may_reply };

    ghost may_fail = { TakesMemory };

    fn step(&mut self, call: VbCall) -> Result<VbReply, AllocError> {
        VBucket::step(self, call)
    }

    fn high(&self) -> u64 {
        VBucket::high(self)
    }
}

/// A vBucket that seats call in turns.
pub type TurnVb = Turn<VBucket, VbCall, VbReply>;

/// The right to call such a vBucket, and what its holder has seen and done.
pub type VbSeat = TurnSeat<VBucket, VbCall, VbReply>;
