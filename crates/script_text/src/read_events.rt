//! The events of a transcript's lines, each taken by the words of its line.
ghost use Rattle.std.specs.Prelude.{◌≡◌, IfOk, map};
ghost use Rattle.script_text.specs.TakenLines.{as_event, as_branch, as_changed, as_reply, as_streamed, as_asked, as_item, as_follower, as_ranged, as_got, as_rolled, as_acknowledged, as_shown, as_extent, as_document, as_prepared, as_counted, as_batch, as_stat, as_armed};

use crate::line::says;
use crate::numbers::number;
use crate::read_words::{
    ask, byte, bytes, change, doc, int, key, level, link, log, long, reason, role, sent, short,
    stream, verdict, word_at,
};
use std::alloc::{AllocError, Global};
use vb_events::Event;

/// What a line tells, if its first word is that of an event.
pub fn event(alloc: Global, words: &[&[u8]]) -> Result<Option<Event>, AllocError>
    ensures { IfOk result (λ event. event ≡ as_event (map (λ word. word.now) words.now)) }
{
    let word = word_at(words, 0);
    if says(word, b"branch") {
        Ok(Some(branch(words)))
    } else if says(word, b"role") {
        Ok(Some(Event::Role {
            node: byte(word_at(words, 1)),
            vb: short(word_at(words, 2)),
            role: role(word_at(words, 3)),
        }))
    } else if says(word, b"change") {
        changed(alloc, words)
    } else if says(word, b"reply") {
        reply(alloc, words)
    } else if says(word, b"closed") {
        Ok(Some(Event::Closed {
            node: byte(word_at(words, 1)),
            client: int(word_at(words, 2)),
        }))
    } else {
        stream_event(alloc, words)
    }
}

/// A branch that was made.
fn branch(words: &[&[u8]]) -> Event
    ensures { result ≡ as_branch (map (λ word. word.now) words.now) }
{
    Event::Branch {
        node: byte(word_at(words, 1)),
        vb: short(word_at(words, 2)),
        uuid: long(word_at(words, 3)),
        parent: number(word_at(words, 4)),
        fork: long(word_at(words, 5)),
        high: long(word_at(words, 6)),
    }
}

/// A change that the active vBucket made.
fn changed(alloc: Global, words: &[&[u8]]) -> Result<Option<Event>, AllocError>
    ensures { IfOk result (λ event. event ≡ as_changed (map (λ word. word.now) words.now)) }
{
    let Some(change) = change(alloc, words, 4)? else {
        return Ok(None);
    };
    Ok(Some(Event::Changed {
        node: byte(word_at(words, 1)),
        vb: short(word_at(words, 2)),
        uuid: long(word_at(words, 3)),
        change,
    }))
}

/// A frame for a client.
fn reply(alloc: Global, words: &[&[u8]]) -> Result<Option<Event>, AllocError>
    ensures { IfOk result (λ event. event ≡ as_reply (map (λ word. word.now) words.now)) }
{
    Ok(Some(Event::Reply {
        node: byte(word_at(words, 1)),
        client: int(word_at(words, 2)),
        bytes: bytes(alloc, word_at(words, 3))?,
    }))
}

/// An event of a producer's stream. The kinds below are taken there.
fn stream_event(alloc: Global, words: &[&[u8]]) -> Result<Option<Event>, AllocError>
    ensures { IfOk result (λ event. event ≡ as_streamed (map (λ word. word.now) words.now)) }
{
    let word = word_at(words, 0);
    if says(word, b"ask") {
        asked(alloc, words)
    } else if says(word, b"mark") {
        Ok(Some(Event::Marked {
            stream: stream(word_at(words, 1)),
            start: long(word_at(words, 2)),
            end: long(word_at(words, 3)),
            flags: int(word_at(words, 4)),
        }))
    } else if says(word, b"item") {
        item(alloc, words)
    } else if says(word, b"fin") {
        Ok(Some(Event::Finished {
            stream: stream(word_at(words, 1)),
            reason: int(word_at(words, 2)),
        }))
    } else if says(word, b"state") {
        Ok(Some(Event::Stated {
            stream: stream(word_at(words, 1)),
            role: role(word_at(words, 2)),
        }))
    } else {
        follower_event(alloc, words)
    }
}

/// A stream request, and how it was answered.
fn asked(alloc: Global, words: &[&[u8]]) -> Result<Option<Event>, AllocError>
    ensures { IfOk result (λ event. event ≡ as_asked (map (λ word. word.now) words.now)) }
{
    Ok(Some(Event::Asked {
        stream: stream(word_at(words, 1)),
        node: byte(word_at(words, 2)),
        vb: short(word_at(words, 3)),
        ask: ask(words, 4),
        high: long(word_at(words, 10)),
        log: log(alloc, word_at(words, 11))?,
        answer: verdict(words, 12),
    }))
}

/// A change that is sent.
fn item(alloc: Global, words: &[&[u8]]) -> Result<Option<Event>, AllocError>
    ensures { IfOk result (λ event. event ≡ as_item (map (λ word. word.now) words.now)) }
{
    let Some(key) = key(alloc, word_at(words, 4))? else {
        return Ok(None);
    };
    Ok(Some(Event::Item {
        stream: stream(word_at(words, 1)),
        seq: long(word_at(words, 2)),
        act: sent(word_at(words, 3)),
        key,
    }))
}

/// An event of a consumer or its link. The kinds below are taken there.
fn follower_event(alloc: Global, words: &[&[u8]]) -> Result<Option<Event>, AllocError>
    ensures { IfOk result (λ event. event ≡ as_follower (map (λ word. word.now) words.now)) }
{
    let word = word_at(words, 0);
    if says(word, b"adopt") {
        Ok(Some(Event::Adopted {
            node: byte(word_at(words, 1)),
            vb: short(word_at(words, 2)),
            log: log(alloc, word_at(words, 3))?,
        }))
    } else if says(word, b"range") {
        Ok(Some(ranged(words)))
    } else if says(word, b"got") {
        got(alloc, words)
    } else if says(word, b"rolled") {
        Ok(Some(rolled(words)))
    } else if says(word, b"end") {
        Ok(Some(Event::Ended {
            link: link(word_at(words, 1)),
            reason: reason(word_at(words, 2)),
        }))
    } else {
        acknowledged_event(alloc, words)
    }
}

/// A snapshot marker that a consumer took.
fn ranged(words: &[&[u8]]) -> Event
    ensures { result ≡ as_ranged (map (λ word. word.now) words.now) }
{
    Event::Ranged {
        node: byte(word_at(words, 1)),
        vb: short(word_at(words, 2)),
        ss: long(word_at(words, 3)),
        se: long(word_at(words, 4)),
    }
}

/// A change that a consumer took.
fn got(alloc: Global, words: &[&[u8]]) -> Result<Option<Event>, AllocError>
    ensures { IfOk result (λ event. event ≡ as_got (map (λ word. word.now) words.now)) }
{
    let Some(change) = change(alloc, words, 4)? else {
        return Ok(None);
    };
    Ok(Some(Event::Got {
        node: byte(word_at(words, 1)),
        vb: short(word_at(words, 2)),
        stream: stream(word_at(words, 3)),
        change,
    }))
}

/// A consumer that rolled back.
fn rolled(words: &[&[u8]]) -> Event
    ensures { result ≡ as_rolled (map (λ word. word.now) words.now) }
{
    Event::Rolled {
        node: byte(word_at(words, 1)),
        vb: short(word_at(words, 2)),
        named: long(word_at(words, 3)),
        to: long(word_at(words, 4)),
    }
}

/// An acknowledgement, written or counted. The kinds below are taken there.
fn acknowledged_event(alloc: Global, words: &[&[u8]]) -> Result<Option<Event>, AllocError>
    ensures { IfOk result (λ event. event ≡ as_acknowledged (map (λ word. word.now) words.now)) }
{
    let word = word_at(words, 0);
    if says(word, b"ack") {
        Ok(Some(Event::Acknowledged {
            stream: stream(word_at(words, 1)),
            node: byte(word_at(words, 2)),
            vb: short(word_at(words, 3)),
            seq: long(word_at(words, 4)),
            saved: long(word_at(words, 5)),
        }))
    } else if says(word, b"acked") {
        Ok(Some(Event::Counted {
            stream: stream(word_at(words, 1)),
            node: byte(word_at(words, 2)),
            vb: short(word_at(words, 3)),
            member: byte(word_at(words, 4)),
            seq: long(word_at(words, 5)),
        }))
    } else {
        shown_event(alloc, words)
    }
}

/// A part of what is shown of a vBucket. The kinds below are taken there.
fn shown_event(alloc: Global, words: &[&[u8]]) -> Result<Option<Event>, AllocError>
    ensures { IfOk result (λ event. event ≡ as_shown (map (λ word. word.now) words.now)) }
{
    let word = word_at(words, 0);
    if says(word, b"shown") {
        Ok(Some(shown(words)))
    } else if says(word, b"logged") {
        Ok(Some(Event::Logged {
            node: byte(word_at(words, 1)),
            vb: short(word_at(words, 2)),
            log: log(alloc, word_at(words, 3))?,
        }))
    } else if says(word, b"doc") {
        document(alloc, words)
    } else if says(word, b"prep") {
        prepared(alloc, words)
    } else {
        Ok(counted_event(words))
    }
}

/// A vBucket that is shown.
fn shown(words: &[&[u8]]) -> Event
    ensures { result ≡ as_extent (map (λ word. word.now) words.now) }
{
    Event::Shown {
        node: byte(word_at(words, 1)),
        vb: short(word_at(words, 2)),
        role: role(word_at(words, 3)),
        uuid: long(word_at(words, 4)),
        at: long(word_at(words, 5)),
        ss: long(word_at(words, 6)),
        se: long(word_at(words, 7)),
        docs: long(word_at(words, 8)),
        preps: long(word_at(words, 9)),
    }
}

/// A document that is shown.
fn document(alloc: Global, words: &[&[u8]]) -> Result<Option<Event>, AllocError>
    ensures { IfOk result (λ event. event ≡ as_document (map (λ word. word.now) words.now)) }
{
    let Some(key) = key(alloc, word_at(words, 1))? else {
        return Ok(None);
    };
    let Some(doc) = doc(alloc, words, 2)? else {
        return Ok(None);
    };
    Ok(Some(Event::Document { key, doc }))
}

/// A pending prepare that is shown.
fn prepared(alloc: Global, words: &[&[u8]]) -> Result<Option<Event>, AllocError>
    ensures { IfOk result (λ event. event ≡ as_prepared (map (λ word. word.now) words.now)) }
{
    let Some(key) = key(alloc, word_at(words, 1))? else {
        return Ok(None);
    };
    Ok(Some(Event::Prepared {
        key,
        seq: long(word_at(words, 2)),
        level: level(word_at(words, 3)),
    }))
}

/// Numbers of what a vBucket holds and saves. The kinds below are taken there.
fn counted_event(words: &[&[u8]]) -> Option<Event>
    ensures { result ≡ as_counted (map (λ word. word.now) words.now) }
{
    let word = word_at(words, 0);
    if says(word, b"batch") {
        Some(batch(words))
    } else if says(word, b"stat") {
        Some(stat(words))
    } else {
        armed_event(words)
    }
}

/// A batch that was taken.
fn batch(words: &[&[u8]]) -> Event
    ensures { result ≡ as_batch (map (λ word. word.now) words.now) }
{
    Event::Batch {
        node: byte(word_at(words, 1)),
        vb: short(word_at(words, 2)),
        ss: long(word_at(words, 3)),
        se: long(word_at(words, 4)),
        at: long(word_at(words, 5)),
        count: long(word_at(words, 6)),
    }
}

/// The numbers of a vBucket.
fn stat(words: &[&[u8]]) -> Event
    ensures { result ≡ as_stat (map (λ word. word.now) words.now) }
{
    Event::Stat {
        node: byte(word_at(words, 1)),
        vb: short(word_at(words, 2)),
        windows: long(word_at(words, 3)),
        items: long(word_at(words, 4)),
        cursors: long(word_at(words, 5)),
        saved: long(word_at(words, 6)),
        high: long(word_at(words, 7)),
    }
}

/// A node that an arm met.
fn armed_event(words: &[&[u8]]) -> Option<Event>
    ensures { result ≡ as_armed (map (λ word. word.now) words.now) }
{
    let (word, node) = (word_at(words, 0), byte(word_at(words, 1)));
    if says(word, b"failed") {
        Some(Event::CallFailed { node })
    } else if says(word, b"stopped") {
        Some(Event::NodeStopped { node })
    } else {
        None
    }
}
