//! Answers to a client.
ghost use Rattle.std.specs.Prelude.{◌≡◌};
ghost use Rattle.{client_session.specs.Heads.{bare_head, stored_head, found_head}, client_session.specs.Serving.{outcome_of}, mcbp_kv.specs.Answers.{seqno_extras}};

use crate::Settings;
use mcbp_frame::Frame;
use mcbp_kv::ReplyHead;
use vb_calls::{Resolution, Resolved};
use vb_types::{Doc, Status};

/// What stands in front of an empty body, of an answer with this status.
pub fn bare_head(opcode: u8, opaque: u32, status: Status) -> ReplyHead
    ensures { result ≡ bare_head opcode status opaque }
{
    ReplyHead {
        opcode,
        status,
        opaque,
        cas: 0,
        datatype: 0,
    }
}

/// What stands in front of the branch and seqno of a write that was made.
pub fn stored_head(opcode: u8, opaque: u32, cas: u64) -> ReplyHead
    ensures { result ≡ stored_head opcode opaque cas }
{
    ReplyHead {
        cas,
        ..bare_head(opcode, opaque, Status::Success)
    }
}

/// What stands in front of the flags and value of a document that was found.
pub fn found_head(settings: Settings, f: &Frame, doc: &Doc) -> ReplyHead
    ensures { result ≡ found_head settings f.now doc.now }
{
    ReplyHead {
        datatype: if settings.json { doc.datatype } else { 0 },
        ..stored_head(f.opcode, f.opaque, doc.cas)
    }
}

/// The branch and the seqno of a write.
pub fn token(uuid: u64, seq: u64) -> [u8; 16]
    ensures { result ≡ seqno_extras uuid seq }
{
    let [u0, u1, u2, u3, u4, u5, u6, u7] = uuid.to_be_bytes();
    let [s0, s1, s2, s3, s4, s5, s6, s7] = seq.to_be_bytes();
    [
        u0, u1, u2, u3, u4, u5, u6, u7, s0, s1, s2, s3, s4, s5, s6, s7,
    ]
}

/// The outcome for a waiter, where it is among these.
pub fn outcome_of(waiter: u64, resolved: &[Resolved]) -> Option<Resolution>
    ensures { result ≡ outcome_of waiter resolved.now }
{
    let found = resolved.iter().find(|one| one.waiter == waiter)?;
    Some(found.how)
}
