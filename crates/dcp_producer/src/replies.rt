//! What the replies of a vBucket say to a producer.
ghost use Rattle.std.specs.Prelude.{◌≡◌, []};
ghost use Rattle.{std.specs.Option.{option_map}, dcp_producer.specs.Dropping.{flag_said}, dcp_producer.specs.Frames.{place_said}, dcp_producer.specs.Serving.{log_given, IsSendable, log_of_reply, high_of_reply, place_of_reply, ask_verdict, refuse, verdict_with}};
ghost use Rattle.{vb_calls.specs.Forms.{HasForm}, vb_calls.specs.declared.calls.VbCall.TheVariants.{Log}, vb_types.specs.declared.stream.Place.TheVariants.{Memory}};

use std::alloc::Global;
use vb_calls::{VbAnswer, VbReply};
use vb_types::{AskAnswer, Listed, LogEntry, Place, Status};

/// A vBucket's one reply to a request for a stream: its answer, failover log and last seqno, and where
/// the changes of one that it opened come from.
#[derive(Drop)]
pub struct Standing {
    pub said: AskAnswer,
    pub log: Listed<LogEntry>,
    pub high: u64,
    pub place: Place,
}

/// The answer of a reply, where there is such a vBucket.
pub fn answer_of(reply: Option<VbReply>) -> Option<VbAnswer>
    ensures { result ≡ option_map (λ r. r.answer) reply }
{
    Some(reply?.answer)
}

/// The failover log of a vBucket, if it told it.
pub fn log_of(reply: VbReply) -> Option<Listed<LogEntry>>
    requires { HasForm Log reply.answer }
    ensures log { result ≡ log_given reply.answer }
    ensures sendable { IsSendable result }
{
    let VbReply { answer, .. } = reply;
    match answer {
        VbAnswer::Logged { log } => Some(log),
        other => {
            drop(other);
            None
        }
    }
}

/// That a request is refused, with this status.
fn refusal(status: Status) -> AskAnswer
    ensures { result ≡ refuse status }
{
    AskAnswer::Refuse(status.code())
}

/// That a request is refused with this status, of which the vBucket told nothing.
fn untold(alloc: Global, status: Status) -> Standing
    ensures said { result.said ≡ refuse status }
    ensures log { result.log ≡ [] }
    ensures high { result.high ≡ 0 }
    ensures place { result.place ≡ Memory }
{
    Standing {
        said: refusal(status),
        log: Listed::new(alloc),
        high: 0,
        place: Place::Memory,
    }
}

/// What the vBucket told; no log and no seqno where there is no such vBucket. A refusal of the
/// producer's own stands before what the vBucket said.
pub fn standing_of(alloc: Global, own: Option<Status>, reply: Option<VbReply>) -> Standing
    ensures said { result.said ≡ verdict_with own (ask_verdict reply) }
    ensures log { result.log ≡ log_of_reply reply }
    ensures high { result.high ≡ high_of_reply reply }
    ensures place { result.place ≡ place_of_reply reply }
{
    let mut standing = match answer_of(reply) {
        Some(VbAnswer::Asked { said, log, high }) => Standing {
            said,
            log,
            high,
            place: Place::Memory,
        },
        Some(VbAnswer::Opened { log, high, place }) => Standing {
            said: AskAnswer::Go,
            log,
            high,
            place,
        },
        Some(other) => {
            drop(other);
            untold(alloc, Status::Einval)
        }
        None => untold(alloc, Status::NotMyVbucket),
    };
    if let Some(status) = own {
        standing.said = refusal(status);
    }
    standing
}

/// Whether a vBucket says that a stream had a cursor.
pub fn flag_said(reply: Option<VbReply>) -> bool
    ensures { result ≡ flag_said reply }
{
    match answer_of(reply) {
        Some(VbAnswer::Flag(had)) => had,
        other => {
            drop(other);
            false
        }
    }
}

/// Where a stream's next changes come from, if the vBucket says so.
pub fn place_said(reply: Option<VbReply>) -> Option<Place>
    ensures { result ≡ place_said reply }
{
    match answer_of(reply) {
        Some(VbAnswer::Placed(place)) => Some(place),
        other => {
            drop(other);
            None
        }
    }
}
