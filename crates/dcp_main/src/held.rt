//! That what a group tells is as its types hold it: numbers of their widths, keys and values of their
//! lengths. Each function reads what it is given and does nothing; what its types say is its clause.
ghost use Rattle.std.specs.Prelude.{◌≡◌, ◌<◌, ◌^◌, true};
ghost use Rattle.dcp_main.specs.EventKinds.{is_of_acknowledged, is_of_branch, is_of_consumer, is_of_frame, is_of_node, is_of_request, is_of_saving, is_of_shown};
ghost use Rattle.hex.specs.Hex.{IsBytes};
ghost use Rattle.script_text.specs.Held.{IsActHeld, IsAnswerHeld, IsAskHeld, IsChangeHeld, IsDocHeld, IsEventHeld, IsGroupHeld, IsInt, IsKeyHeld, IsLogHeld, IsLong, IsParentHeld, IsPlace, IsStreamHeld, IsVerdictHeld};

use vb_events::{Answer, Event, Group, StreamName};
use vb_types::{Act, AskAnswer, Change, Doc, Key, LogEntry, StreamAsk};

/// A number of 64 bits, as are a seqno, a CAS and a count.
fn long(number: u64)
    ensures { IsLong number }
{
    let _number = number;
}

/// A number of 32 bits.
fn int(number: u32)
    ensures { IsInt number }
{
    let _number = number;
}

/// A number of 8 bits.
fn byte(number: u8)
    ensures { number < 2 ^ 8 }
{
    let _number = number;
}

/// A vBucket of a node.
fn place(node: u8, vb: u16)
    ensures { IsPlace node vb }
{
    let _place = (node, vb);
}

/// Bytes.
fn bytes_held(bytes: &[u8])
    ensures { IsBytes bytes.now }
{
    let _bytes = bytes;
}

/// A key.
fn key_held(key: &Key)
    ensures { IsKeyHeld key.now }
{
    bytes_held(key.as_slice());
}

/// A document.
fn doc_held(doc: &Doc)
    ensures { IsDocHeld doc.now }
{
    long(doc.cas);
    long(doc.rev);
    int(doc.flags);
    int(doc.expiry);
    byte(doc.datatype);
    bytes_held(doc.value.as_slice());
}

/// What a change does.
fn act_held(act: &Act)
    ensures { IsActHeld act.now }
{
    match act {
        Act::Set(doc) => doc_held(doc),
        Act::Remove { cas, rev } => {
            long(*cas);
            long(*rev);
        }
        Act::Prepare { doc, .. } => doc_held(doc),
        Act::Commit { prepared, doc, .. } => {
            long(*prepared);
            doc_held(doc);
        }
        Act::Abort { prepared } => long(*prepared),
    }
}

/// A change.
fn change_held(change: &Change)
    ensures { IsChangeHeld change.now }
{
    long(change.seq);
    key_held(&change.key);
    act_held(&change.act)
}

/// A log.
fn log_held(log: &[LogEntry])
    ensures { IsLogHeld log.now }
{
    for entry in log {
        long(entry.uuid);
        long(entry.seq);
    }
}

/// A stream's name.
fn stream_held(stream: StreamName)
    ensures { IsStreamHeld stream }
{
    let _stream = stream;
}

/// A request.
fn ask_held(ask: StreamAsk)
    ensures { IsAskHeld ask }
{
    let _ask = ask;
}

/// How it was answered.
fn verdict_held(said: AskAnswer)
    ensures { IsVerdictHeld said }
{
    let _said = said;
}

/// The branch that a branch comes from.
fn parent_held(parent: Option<u64>)
    ensures { IsParentHeld parent }
{
    let _parent = parent;
}

/// An answer.
fn answer_held(said: Answer)
    ensures { IsAnswerHeld said }
{
    let _said = said;
}

/// An event of a vBucket: a branch, a role, a change.
fn branch_held(event: &Event)
    ensures { is_of_branch event.now ≡ true → IsEventHeld event.now }
{
    match event {
        Event::Branch {
            node,
            vb,
            uuid,
            parent,
            fork,
            high,
        } => {
            place(*node, *vb);
            long(*uuid);
            parent_held(*parent);
            long(*fork);
            long(*high);
        }
        Event::Role { node, vb, .. } => place(*node, *vb),
        Event::Changed {
            node,
            vb,
            uuid,
            change,
        } => {
            place(*node, *vb);
            long(*uuid);
            change_held(change);
        }
        _ => {}
    }
}

/// An event of a node: a frame for its client, a client closed, a device call that failed or stopped it.
fn node_held(event: &Event)
    ensures { is_of_node event.now ≡ true → IsEventHeld event.now }
{
    match event {
        Event::Reply {
            node,
            client,
            bytes,
        } => {
            byte(*node);
            int(*client);
            bytes_held(bytes.as_slice());
        }
        Event::Closed { node, client } => {
            byte(*node);
            int(*client);
        }
        Event::CallFailed { node } => byte(*node),
        Event::NodeStopped { node } => byte(*node),
        _ => {}
    }
}

/// An answer of a producer, and the end of a stream.
fn request_held(event: &Event)
    ensures { is_of_request event.now ≡ true → IsEventHeld event.now }
{
    match event {
        Event::Asked {
            stream,
            node,
            vb,
            ask,
            high,
            log,
            answer,
        } => {
            stream_held(*stream);
            place(*node, *vb);
            ask_held(*ask);
            long(*high);
            log_held(log.as_slice());
            verdict_held(*answer);
        }
        Event::Finished { stream, reason } => {
            stream_held(*stream);
            int(*reason);
        }
        _ => {}
    }
}

/// What a producer puts on a stream.
fn frame_held(event: &Event)
    ensures { is_of_frame event.now ≡ true → IsEventHeld event.now }
{
    match event {
        Event::Marked {
            stream,
            start,
            end,
            flags,
        } => {
            stream_held(*stream);
            long(*start);
            long(*end);
            int(*flags);
        }
        Event::Item {
            stream,
            seq,
            key,
            ..
        } => {
            stream_held(*stream);
            long(*seq);
            key_held(key);
        }
        Event::Stated { stream, .. } => stream_held(*stream),
        _ => {}
    }
}

/// An event of a consumer or its link.
fn consumer_held(event: &Event)
    ensures { is_of_consumer event.now ≡ true → IsEventHeld event.now }
{
    match event {
        Event::Adopted { node, vb, log } => {
            place(*node, *vb);
            log_held(log.as_slice());
        }
        Event::Ranged { node, vb, ss, se } => {
            place(*node, *vb);
            long(*ss);
            long(*se);
        }
        Event::Got {
            node,
            vb,
            stream,
            change,
        } => {
            place(*node, *vb);
            stream_held(*stream);
            change_held(change);
        }
        Event::Rolled {
            node,
            vb,
            named,
            to,
        } => {
            place(*node, *vb);
            long(*named);
            long(*to);
        }
        Event::Ended { link, .. } => int(*link),
        _ => {}
    }
}

/// An acknowledgement, written or counted.
fn acknowledged_held(event: &Event)
    ensures { is_of_acknowledged event.now ≡ true → IsEventHeld event.now }
{
    match event {
        Event::Acknowledged {
            stream,
            node,
            vb,
            seq,
            saved,
        } => {
            stream_held(*stream);
            place(*node, *vb);
            long(*seq);
            long(*saved);
        }
        Event::Counted {
            stream,
            node,
            vb,
            member,
            seq,
        } => {
            stream_held(*stream);
            place(*node, *vb);
            byte(*member);
            long(*seq);
        }
        _ => {}
    }
}

/// A batch to be written down, and the numbers of a vBucket.
fn saving_held(event: &Event)
    ensures { is_of_saving event.now ≡ true → IsEventHeld event.now }
{
    match event {
        Event::Batch {
            node,
            vb,
            ss,
            se,
            at,
            count,
        } => {
            place(*node, *vb);
            long(*ss);
            long(*se);
            long(*at);
            long(*count);
        }
        Event::Stat {
            node,
            vb,
            windows,
            items,
            cursors,
            saved,
            high,
        } => {
            place(*node, *vb);
            long(*windows);
            long(*items);
            long(*cursors);
            long(*saved);
            long(*high);
        }
        _ => {}
    }
}

/// A line of what is shown.
fn shown_held(event: &Event)
    ensures { is_of_shown event.now ≡ true → IsEventHeld event.now }
{
    match event {
        Event::Shown {
            node,
            vb,
            uuid,
            at,
            ss,
            se,
            docs,
            preps,
            ..
        } => {
            place(*node, *vb);
            long(*uuid);
            long(*at);
            long(*ss);
            long(*se);
            long(*docs);
            long(*preps);
        }
        Event::Logged { node, vb, log } => {
            place(*node, *vb);
            log_held(log.as_slice());
        }
        Event::Document { key, doc } => {
            key_held(key);
            doc_held(doc);
        }
        Event::Prepared { key, seq, .. } => {
            key_held(key);
            long(*seq);
        }
        _ => {}
    }
}

/// An event.
fn event_held(event: &Event)
    ensures { IsEventHeld event.now }
{
    branch_held(event);
    node_held(event);
    request_held(event);
    frame_held(event);
    consumer_held(event);
    acknowledged_held(event);
    saving_held(event);
    shown_held(event);
}

/// A group.
pub fn hold(group: &Group)
    ensures { IsGroupHeld group.now }
{
    long(group.line);
    for event in group.events.as_slice() {
        event_held(event);
    }
    answer_held(group.answer);
}
