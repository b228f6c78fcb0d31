//! What a consumer asked last, and what a frame comes to.
ghost use Rattle.std.specs.Prelude.{◌≡◌};
ghost use Rattle.dcp_consumer.specs.Machine.{over_why, answered, moved_by, streaming};

use crate::Passive;
use takeover::TakeStep;
use vb_events::EndReason;
use vb_types::{Listed, LogEntry};

/// Which link this is, whose vBucket it feeds, and at which node.
#[derive(Clone, Copy)]
pub struct Dialed {
    pub link: u32,
    pub node: u8,
    pub vb: u16,
    /// The size of the producer's window: a frame goes only while fewer bytes than this are not
    /// acknowledged; 0 for no window.
    pub buffer: u32,
    /// Whether the link takes the vBucket over from its producer, and does not follow it alone.
    pub takeover: bool,
}

/// What a consumer asked last and was not answered yet, or how its link stands.
#[derive(Clone, Copy, Debug, PartialEq, Eq)]
pub enum Handshake {
    /// OPEN, with the opaque 1.
    Opening,
    /// CONTROL, for the buffer, with the opaque 2; only where the buffer is not 0.
    Buffering,
    /// CONTROL, for prepares, commits and aborts, with the opaque 2, or 3 with a buffer.
    SyncWrites,
    /// CONTROL, for the name under which it acknowledges, with the next opaque.
    Naming,
    /// STREAM_REQUEST, with an opaque from 4, or from 5 with a buffer.
    Asking,
    /// The stream is granted.
    Streaming,
    /// The link is over.
    Over(EndReason),
}

/// What a frame comes to.
#[derive(Drop)]
pub enum ConsumerStep {
    /// OPEN or CONTROL was answered with Success.
    Answered,
    /// The vBucket is to take this log over; `granted` says that it did.
    Adopt(Listed<LogEntry>),
    /// The vBucket is sent back to this seqno; `roll_done` says that it went back.
    Roll(u64),
    /// A message of the stream, or one that no stream has.
    Passive(Passive),
    /// A NOOP, which `answer_noop` answers with this opaque.
    Noop(u32),
    /// A state that is in order: the vBucket is to make this step of its takeover, and then
    /// `answer_state` answers with this opaque.
    State { take: TakeStep, opaque: u32 },
    /// An answer ended the link.
    Over(EndReason),
    /// Nothing waits for such an answer, or the link was over.
    Dropped,
}

impl Handshake {
    /// Why the link is over, if it is.
    pub fn over(self) -> Option<EndReason>
        ensures { result ≡ over_why self }
    {
        match self {
            Handshake::Over(why) => Some(why),
            _ => None,
        }
    }

    /// OPEN or CONTROL was answered, of a link with this buffer.
    fn answered(self, buffer: u32) -> Handshake
        ensures { result ≡ answered buffer self }
    {
        match self {
            Handshake::Opening if buffer != 0 => Handshake::Buffering,
            Handshake::Opening | Handshake::Buffering => Handshake::SyncWrites,
            Handshake::SyncWrites => Handshake::Naming,
            Handshake::Naming => Handshake::Asking,
            other => other,
        }
    }

    /// The handshake after a step, of a link with this buffer.
    pub fn after(self, buffer: u32, step: &ConsumerStep) -> Handshake
        ensures { result ≡ moved_by buffer step.now self }
    {
        match step {
            ConsumerStep::Answered => self.answered(buffer),
            ConsumerStep::Over(why) => Handshake::Over(*why),
            ConsumerStep::Passive(Passive::End(why)) => Handshake::Over(*why),
            ConsumerStep::Passive(Passive::Protocol) => Handshake::Over(EndReason::Protocol),
            _ => self,
        }
    }

    /// The stream is granted, where it is asked for.
    pub fn granted(self) -> Handshake
        ensures { result ≡ streaming self }
    {
        match self {
            Handshake::Asking => Handshake::Streaming,
            other => other,
        }
    }
}
