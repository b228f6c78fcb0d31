//! What a vBucket's replies say to a dial.
ghost use Rattle.std.specs.Prelude.{◌≡◌};
ghost use Rattle.node_core.specs.Dials.{is_done, is_pending, follower_ask, dues_of_reply};

use vb_calls::{VbAnswer, VbReply};
use vb_types::{Role, StreamAsk};

/// Whether there is such a vBucket, and it made the call.
pub fn is_done(reply: &Option<VbReply>) -> bool
    ensures { result ≡ is_done reply.now }
{
    match reply {
        Some(made) => matches!(made.answer, VbAnswer::Done),
        None => false,
    }
}

/// Whether there is such a vBucket, and it tells that it is to take over.
pub fn is_pending(reply: &Option<VbReply>) -> bool
    ensures { result ≡ is_pending reply.now }
{
    match reply {
        Some(made) => match made.answer {
            VbAnswer::Shown { role, .. } => role == Role::Pending,
            _ => false,
        },
        None => false,
    }
}

/// What the vBucket asks for, where there is one that follows.
pub fn follower_ask(reply: &Option<VbReply>) -> Option<StreamAsk>
    ensures { result ≡ follower_ask reply.now }
{
    match reply {
        Some(made) => match made.answer {
            VbAnswer::Named(ask) => Some(ask),
            _ => None,
        },
        None => None,
    }
}

/// The seqno that the vBucket may acknowledge, 0 for none, and the one up to which it has written all
/// down.
pub fn dues_of_reply(reply: &Option<VbReply>) -> Option<(u64, u64)>
    ensures { result ≡ dues_of_reply reply.now }
{
    match reply {
        Some(made) => match made.answer {
            VbAnswer::Dues { seq, saved } => Some((seq, saved)),
            _ => None,
        },
        None => None,
    }
}
