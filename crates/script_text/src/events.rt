//! The lines of events.
ghost use Rattle.std.specs.Prelude.{◌≡◌, ◌++◌, ◌∷◌, [], OnOk, OnErr, decimal};
ghost use Rattle.vb_events.specs.declared.event.Event.TheVariants as event;
ghost use Rattle.script_text.specs.Transcript.{StartsWith, spaced, hex_text, parent_text, sent_text, request_text, event_text, event_words, stream_words, follower_words, acknowledged_words, shown_words, counted_words, armed_words};

use crate::parts::{
    level_word, push_act, push_ask, push_at, push_count, push_counts, push_doc, push_hex, push_key,
    push_log, push_name, push_named, push_number, push_numbers, push_parent, push_stream,
    push_verdict, push_word, reason_word, role_word, sent_word,
};
use bytes::BytesMut;
use std::alloc::AllocError;
use vb_events::{Event, ItemAct, StreamName};
use vb_types::{AskAnswer, Change, Doc, Level, LogEntry, Role};

/// An event's line, without its newline.
#[tactic(auto, unfolding(crate::specs::Transcript::event_text))]
pub fn push_event(text: &mut BytesMut, event: &Event) -> Result<(), AllocError>
    ensures ok { OnOk result (text.new.items ≡ text.old.items ++ event_text event.now) }
    ensures err { OnErr result (StartsWith text.new.items text.old.items) }
{
    match event {
        Event::Branch {
            node,
            vb,
            uuid,
            parent,
            fork,
            high,
        } => {
            push_at(text, b"branch", *node, *vb)?;
            push_branch(text, *uuid, *parent, *fork, *high)
        }
        Event::Role { node, vb, role } => {
            push_at(text, b"role", *node, *vb)?;
            push_word(text, role_word(*role))
        }
        Event::Changed {
            node,
            vb,
            uuid,
            change,
        } => push_changed(text, *node, *vb, *uuid, change),
        Event::Reply {
            node,
            client,
            bytes,
        } => push_reply(text, *node, *client, bytes.as_slice()),
        Event::Closed { node, client } => {
            push_count(text, b"closed", u64::from(*node))?;
            push_number(text, b' ', u64::from(*client))
        }
        other => push_stream_event(text, other),
    }
}

/// What stands in a branch's line behind its vBucket.
fn push_branch(
    text: &mut BytesMut,
    uuid: u64,
    parent: Option<u64>,
    fork: u64,
    high: u64,
) -> Result<(), AllocError>
    ensures ok { OnOk result (text.new.items ≡ text.old.items ++ 32 ∷ spaced (decimal uuid ∷ parent_text parent ∷ decimal fork ∷ decimal high ∷ [])) }
    ensures err { OnErr result (StartsWith text.new.items text.old.items) }
{
    push_number(text, b' ', uuid)?;
    push_parent(text, parent)?;
    push_numbers(text, &[fork, high])
}

/// The line of a change that the active vBucket made.
fn push_changed(
    text: &mut BytesMut,
    node: u8,
    vb: u16,
    uuid: u64,
    change: &Change,
) -> Result<(), AllocError>
    ensures ok { OnOk result (text.new.items ≡ text.old.items ++ spaced (event_words (event.Changed node vb uuid change.now))) }
    ensures err { OnErr result (StartsWith text.new.items text.old.items) }
{
    push_counts(text, b"change", node, vb, &[uuid, change.seq])?;
    push_act(text, change)
}

/// The line of a frame for a client.
fn push_reply(text: &mut BytesMut, node: u8, client: u32, bytes: &[u8]) -> Result<(), AllocError>
    ensures ok { OnOk result (text.new.items ≡ text.old.items ++ spaced (event_words (event.Reply node client bytes.now))) }
    ensures err { OnErr result (StartsWith text.new.items text.old.items) }
{
    push_count(text, b"reply", u64::from(node))?;
    push_number(text, b' ', u64::from(client))?;
    push_hex(text, bytes)
}

/// The line of an event of a producer's stream. The kinds below have theirs there.
fn push_stream_event(text: &mut BytesMut, event: &Event) -> Result<(), AllocError>
    ensures ok { OnOk result (text.new.items ≡ text.old.items ++ spaced (stream_words event.now)) }
    ensures err { OnErr result (StartsWith text.new.items text.old.items) }
{
    match event {
        Event::Asked {
            stream,
            node,
            vb,
            ask,
            high,
            log,
            answer,
        } => {
            push_stream(text, b"ask", *stream, *node, *vb)?;
            push_ask(text, *ask)?;
            push_asked(text, *high, log.as_slice(), *answer)
        }
        Event::Marked {
            stream,
            start,
            end,
            flags,
        } => push_marked(text, *stream, *start, *end, *flags),
        Event::Item {
            stream,
            seq,
            act,
            key,
        } => push_item(text, *stream, *seq, *act, key.as_slice()),
        Event::Finished { stream, reason } => {
            push_named(text, b"fin", *stream)?;
            push_number(text, b' ', u64::from(*reason))
        }
        Event::Stated { stream, role } => push_stated(text, *stream, *role),
        other => push_follower_event(text, other),
    }
}

/// The producer's history, and how it answered a stream request.
#[tactic(auto, unfolding(crate::specs::Transcript::request_text))]
fn push_asked(
    text: &mut BytesMut,
    high: u64,
    log: &[LogEntry],
    answer: AskAnswer,
) -> Result<(), AllocError>
    ensures ok { OnOk result (text.new.items ≡ text.old.items ++ 32 ∷ request_text high log.now answer) }
    ensures err { OnErr result (StartsWith text.new.items text.old.items) }
{
    push_number(text, b' ', high)?;
    push_log(text, log)?;
    push_verdict(text, answer)
}

/// The line of a snapshot marker.
fn push_marked(
    text: &mut BytesMut,
    stream: StreamName,
    start: u64,
    end: u64,
    flags: u32,
) -> Result<(), AllocError>
    ensures ok { OnOk result (text.new.items ≡ text.old.items ++ spaced (stream_words (event.Marked stream start end flags))) }
    ensures err { OnErr result (StartsWith text.new.items text.old.items) }
{
    push_named(text, b"mark", stream)?;
    push_numbers(text, &[start, end, u64::from(flags)])
}

/// The line of a change that is sent.
fn push_item(
    text: &mut BytesMut,
    stream: StreamName,
    seq: u64,
    act: ItemAct,
    key: &[u8],
) -> Result<(), AllocError>
    ensures ok { OnOk result (text.new.items ≡ text.old.items ++ spaced (stream_words (event.Item stream seq act key.now))) }
    ensures err { OnErr result (StartsWith text.new.items text.old.items) }
{
    push_named(text, b"item", stream)?;
    push_number(text, b' ', seq)?;
    push_sent(text, act, key)
}

/// The act of a change that is sent, and its key.
fn push_sent(text: &mut BytesMut, act: ItemAct, key: &[u8]) -> Result<(), AllocError>
    ensures ok { OnOk result (text.new.items ≡ text.old.items ++ 32 ∷ spaced (sent_text act ∷ hex_text key.now ∷ [])) }
    ensures err { OnErr result (StartsWith text.new.items text.old.items) }
{
    push_word(text, sent_word(act))?;
    push_hex(text, key)
}

/// The line of a state that is put on a stream.
fn push_stated(text: &mut BytesMut, stream: StreamName, role: Role) -> Result<(), AllocError>
    ensures ok { OnOk result (text.new.items ≡ text.old.items ++ spaced (stream_words (event.Stated stream role))) }
    ensures err { OnErr result (StartsWith text.new.items text.old.items) }
{
    push_named(text, b"state", stream)?;
    push_word(text, role_word(role))
}

/// The line of an event of a consumer or its link. The kinds below have theirs there.
#[tactic(auto, unfolding(crate::specs::Transcript::link_text))]
fn push_follower_event(text: &mut BytesMut, event: &Event) -> Result<(), AllocError>
    ensures ok { OnOk result (text.new.items ≡ text.old.items ++ spaced (follower_words event.now)) }
    ensures err { OnErr result (StartsWith text.new.items text.old.items) }
{
    match event {
        Event::Adopted { node, vb, log } => {
            push_at(text, b"adopt", *node, *vb)?;
            push_log(text, log.as_slice())
        }
        Event::Ranged { node, vb, ss, se } => {
            push_counts(text, b"range", *node, *vb, &[*ss, *se])
        }
        Event::Got {
            node,
            vb,
            stream,
            change,
        } => push_got(text, *node, *vb, *stream, change),
        Event::Rolled {
            node,
            vb,
            named,
            to,
        } => push_counts(text, b"rolled", *node, *vb, &[*named, *to]),
        Event::Ended { link, reason } => {
            push_named(text, b"end", StreamName::Link(*link))?;
            push_word(text, reason_word(*reason))
        }
        other => push_acknowledged_event(text, other),
    }
}

/// The line of a change that a consumer took.
fn push_got(
    text: &mut BytesMut,
    node: u8,
    vb: u16,
    stream: StreamName,
    change: &Change,
) -> Result<(), AllocError>
    ensures ok { OnOk result (text.new.items ≡ text.old.items ++ spaced (follower_words (event.Got node vb stream change.now))) }
    ensures err { OnErr result (StartsWith text.new.items text.old.items) }
{
    push_at(text, b"got", node, vb)?;
    push_name(text, stream)?;
    push_number(text, b' ', change.seq)?;
    push_act(text, change)
}

/// The line of an acknowledgement, where it is written and where it is counted. The kinds below have
/// theirs there.
fn push_acknowledged_event(text: &mut BytesMut, event: &Event) -> Result<(), AllocError>
    ensures ok { OnOk result (text.new.items ≡ text.old.items ++ spaced (acknowledged_words event.now)) }
    ensures err { OnErr result (StartsWith text.new.items text.old.items) }
{
    match event {
        Event::Acknowledged {
            stream,
            node,
            vb,
            seq,
            saved,
        } => {
            push_stream(text, b"ack", *stream, *node, *vb)?;
            push_numbers(text, &[*seq, *saved])
        }
        Event::Counted {
            stream,
            node,
            vb,
            member,
            seq,
        } => {
            push_stream(text, b"acked", *stream, *node, *vb)?;
            push_numbers(text, &[u64::from(*member), *seq])
        }
        other => push_shown_event(text, other),
    }
}

/// The line of an event that is a part of what is shown of a vBucket. The kinds below have theirs
/// there.
#[tactic(auto, unfolding(crate::specs::Transcript::extent_text))]
fn push_shown_event(text: &mut BytesMut, event: &Event) -> Result<(), AllocError>
    ensures ok { OnOk result (text.new.items ≡ text.old.items ++ spaced (shown_words event.now)) }
    ensures err { OnErr result (StartsWith text.new.items text.old.items) }
{
    match event {
        Event::Shown {
            node,
            vb,
            role,
            uuid,
            at,
            ss,
            se,
            docs,
            preps,
        } => {
            push_at(text, b"shown", *node, *vb)?;
            push_word(text, role_word(*role))?;
            push_numbers(text, &[*uuid, *at, *ss, *se, *docs, *preps])
        }
        Event::Logged { node, vb, log } => {
            push_at(text, b"logged", *node, *vb)?;
            push_log(text, log.as_slice())
        }
        Event::Document { key, doc } => push_document(text, key.as_slice(), doc),
        Event::Prepared { key, seq, level } => push_prepared(text, key.as_slice(), *seq, *level),
        other => push_counted_event(text, other),
    }
}

/// The line of a document of the vBucket that is shown.
fn push_document(text: &mut BytesMut, key: &[u8], doc: &Doc) -> Result<(), AllocError>
    ensures ok { OnOk result (text.new.items ≡ text.old.items ++ spaced (shown_words (event.Document key.now doc.now))) }
    ensures err { OnErr result (StartsWith text.new.items text.old.items) }
{
    push_key(text, b"doc", key)?;
    push_doc(text, doc)
}

/// The line of a pending prepare of the vBucket that is shown.
fn push_prepared(text: &mut BytesMut, key: &[u8], seq: u64, level: Level) -> Result<(), AllocError>
    ensures ok { OnOk result (text.new.items ≡ text.old.items ++ spaced (shown_words (event.Prepared key.now seq level))) }
    ensures err { OnErr result (StartsWith text.new.items text.old.items) }
{
    push_key(text, b"prep", key)?;
    push_number(text, b' ', seq)?;
    push_word(text, level_word(level))
}

/// The line of an event that tells numbers of what a vBucket holds and saves. The kinds below have
/// theirs there.
fn push_counted_event(text: &mut BytesMut, event: &Event) -> Result<(), AllocError>
    ensures ok { OnOk result (text.new.items ≡ text.old.items ++ spaced (counted_words event.now)) }
    ensures err { OnErr result (StartsWith text.new.items text.old.items) }
{
    match event {
        Event::Batch {
            node,
            vb,
            ss,
            se,
            at,
            count,
        } => push_counts(text, b"batch", *node, *vb, &[*ss, *se, *at, *count]),
        Event::Stat {
            node,
            vb,
            windows,
            items,
            cursors,
            saved,
            high,
        } => {
            let counts = [*windows, *items, *cursors, *saved, *high];
            push_counts(text, b"stat", *node, *vb, &counts)
        }
        other => push_armed_event(text, other),
    }
}

/// The line of an event that tells of a node that an arm met.
fn push_armed_event(text: &mut BytesMut, event: &Event) -> Result<(), AllocError>
    ensures ok { OnOk result (text.new.items ≡ text.old.items ++ spaced (armed_words event.now)) }
    ensures err { OnErr result (StartsWith text.new.items text.old.items) }
{
    match event {
        Event::CallFailed { node } => push_count(text, b"failed", u64::from(*node)),
        Event::NodeStopped { node } => push_count(text, b"stopped", u64::from(*node)),
        // Each other kind has its line above.
        _ => Ok(()),
    }
}
