//! A connection in a call: what it is, and what it told and put so far.
ghost use Rattle.std.specs.Prelude.{◌≡◌, map, ◌<◌, ◌≤◌, ◌+◌, ◌*◌, ◌^◌, ◌==◌, OnOk, OnErr};
ghost use Rattle.std.specs.{List.{All, position}, Option.{option_copied}};
ghost use Rattle.{dcp_producer.specs.Dropping.{cursor_dropped}, dcp_producer.specs.Ending.{ended_in, ended_by, streams_closed, end_closed}, vb_calls.specs.Programs.{Ran}};
ghost use Rattle.{dcp_producer.specs.Producers.{begun, new_end, stream_at, with_opened, without_id, without_stream}, dcp_producer.specs.Serving.{heard, with_source_at, with_event, with_frame, status_sent}, dcp_producer.specs.Wanting.{Sent}, mcbp_dcp.specs.DcpFrames.{dcp_frame, IsSpelled}};
ghost use Rattle.{mcbp_dcp.specs.declared.message.DcpMsg.TheVariants.{StreamAnswer}, mcbp_dcp.specs.declared.message.StreamVerdict.TheVariants.{Refused}};

use crate::{ActiveStream, Alloc, Asked, Desk, Handshake, close_stream, drop_cursor};
use bytes::{Bytes, BytesMut};
use flow_control::{Ring, Window};
use mcbp_dcp::{DcpMsg, Opcode, write_dcp};
use mcbp_frame::{Frame, RESPONSE, write_frame};
use mcbp_kv::{KvReply, write_reply};
use std::alloc::Global;
use std::marker::Model;
use vb_calls::{Resolved, VbAccess};
use vb_events::Event;
use vb_types::{Listed, Place, Status};

/// A connection with its window and its streams, in the order in which they were opened, and with
/// the lines that tell what happened in this call, the bytes for the consumer, how many frames of
/// the streams were put, and what became of durable writes that are waited for. `asked` is how many
/// streams it asked vBuckets to open.
#[derive(Drop)]
pub struct Connection {
    pub alloc: Global,
    pub desk: Desk,
    pub handshake: Handshake,
    pub asked: u32,
    pub streams: Vec<ActiveStream>,
    pub ring: Ring,
    pub window: Window,
    pub events: Listed<Event>,
    pub out: BytesMut,
    pub count: u64,
    pub resolved: Listed<Resolved>,
}

impl Model for Connection {
    ghost use Rattle.dcp_producer.specs.Producers.{Served, IsKept};

    ghost Value = { Served };

    ghost view = { λ s. record {
      end = record { desk = s.desk; handshake = s.handshake; asked = s.asked; streams = s.streams.items; turn = s.ring.turn; window = s.window };
      events = s.events;
      out = s.out.items;
      count = s.count;
      resolved = s.resolved;
    } };

    ghost invariant = { λ s. IsKept s.desk.base s.asked s.streams.items s.ring };
}

/// Where the stream of a number stands.
pub fn place_of(streams: &[ActiveStream], id: u64) -> Option<usize>
    ensures { result ≡ position (λ stream. stream.id == id) streams.now }
{
    streams.iter().position(|stream| stream.id == id)
}

/// Takes out the stream of a number.
fn remove_stream(streams: &mut Vec<ActiveStream>, id: u64)
    ensures { streams.new.items ≡ without_id id streams.old.items }
{
    if let Some(at) = place_of(streams, id) {
        drop(streams.remove(at));
    }
}

/// Ends each stream of `vb` that has one of these numbers.
fn end_each(streams: &mut Vec<ActiveStream>, vb: u16, ids: &[u64])
    ensures { streams.new.items ≡ map (ended_in vb ids.now) streams.old.items }
{
    for stream in streams.iter_mut() {
        stream.end_if(vb, ids);
    }
}

/// The streams that put a state with this opaque go on, as it was answered.
fn hear_each(streams: &mut Vec<ActiveStream>, opaque: u32)
    ensures { streams.new.items ≡ map (heard opaque) streams.old.items }
{
    for stream in streams.iter_mut() {
        stream.hear(opaque);
    }
}

/// Where the first changes of the stream of a number come from is known now.
fn source_each(streams: &mut Vec<ActiveStream>, id: u64, from: Place)
    ensures { streams.new.items ≡ map (with_source_at from id) streams.old.items }
{
    for stream in streams.iter_mut() {
        stream.begin_if(id, from);
    }
}

/// Closes each stream that no change of role ended.
fn close_each<A: VbAccess>(streams: &[ActiveStream], vbs: &mut A)
    ensures { Ran A.step (streams_closed streams.now) vbs.old tt vbs.new }
{
    for stream in streams {
        if !stream.is_ended() {
            close_stream(vbs, stream.vb, stream.id);
        }
    }
}

impl Connection {
    /// The connection of a desk, before OPEN.
    pub fn new(alloc: Global, desk: Desk) -> Connection
        ensures { result ≡ begun (new_end desk) }
    {
        Connection {
            alloc,
            desk,
            handshake: Handshake::Fresh,
            asked: 0,
            streams: Vec::new(alloc),
            ring: Ring::new(alloc),
            window: Window::new(0),
            events: Listed::new(alloc),
            out: BytesMut::new(alloc),
            count: 0,
            resolved: Listed::new(alloc),
        }
    }

    /// The stream of a vBucket, if the connection has one.
    pub fn stream_at(&self, vb: u16) -> Option<&ActiveStream>
        ensures { option_copied result ≡ stream_at vb self.now.end.streams }
    {
        self.streams.iter().find(|stream| stream.vb == vb)
    }

    /// Has one more stream, behind all others. An `Err` changes nothing.
    pub fn list_stream(&mut self, stream: ActiveStream) -> Alloc<()>
        requires later { All (λ other. other.id < stream.id) self.old.end.streams }
        requires asked { stream.id ≤ self.old.end.desk.base * 2 ^ 32 + self.old.end.asked }
        ensures ok { OnOk result (self.new ≡ record self.old { end = with_opened stream self.old.end }) }
        ensures err { OnErr result (self.new ≡ self.old) }
    {
        let id = stream.id;
        self.streams.push(stream)?;
        match self.ring.add(id) {
            Ok(()) => Ok(()),
            Err(stop) => {
                drop(self.streams.pop());
                Err(stop)
            }
        }
    }

    /// Has the stream of a number no more; the others keep their turns.
    pub fn drop_stream(&mut self, id: u64)
        ensures { self.new ≡ record self.old { end = without_stream id self.old.end } }
    {
        remove_stream(&mut self.streams, id);
        self.ring.remove(id);
    }

    /// Ends the streams of `vb` that have one of these numbers.
    pub fn end_streams(&mut self, vb: u16, ids: &[u64])
        ensures { self.new ≡ record self.old { end = ended_by vb ids.now self.old.end } }
    {
        end_each(&mut self.streams, vb, ids);
    }

    /// The streams that put a state with this opaque go on, as it was answered.
    pub fn hear_answer(&mut self, opaque: u32)
        ensures { self.new ≡ record self.old { end = record self.old.end { streams = map (heard opaque) self.old.end.streams } } }
    {
        hear_each(&mut self.streams, opaque);
    }

    /// Where the first changes of the stream of a number come from is known now.
    pub fn source_stream(&mut self, id: u64, from: Place)
        ensures { self.new ≡ record self.old { end = record self.old.end { streams = map (with_source_at from id) self.old.end.streams } } }
    {
        source_each(&mut self.streams, id, from);
    }

    /// Closes the streams that no change of role ended, in the order in which they were opened.
    #[tactic(auto, unfolding(crate::specs::Ending::end_closed))]
    pub fn close_streams<A: VbAccess>(&self, vbs: &mut A)
        ensures { Ran A.step (end_closed self.now.end) vbs.old tt vbs.new }
    {
        close_each(&self.streams, vbs);
    }

    /// Takes away the cursor of the stream of a vBucket, and says whether it had one. The number of one
    /// that a change of role ended may be another stream's there.
    pub fn drop_cursor<A: VbAccess>(&self, vbs: &mut A, vb: u16) -> bool
        ensures { Ran A.step (cursor_dropped vb self.now.end) vbs.old result vbs.new }
    {
        match self.stream_at(vb) {
            Some(stream) if !stream.is_ended() => drop_cursor(vbs, stream.vb, stream.id),
            _ => false,
        }
    }

    /// Takes out what was told and put, and begins to count again.
    pub fn told(&mut self) -> Asked
        ensures events { result.events ≡ self.old.events }
        ensures out { result.out.items ≡ self.old.out }
        ensures resolved { result.resolved ≡ self.old.resolved }
        ensures rest { self.new ≡ begun self.old.end }
    {
        self.count = 0;
        Asked {
            events: std::mem::replace(&mut self.events, Listed::new(self.alloc)),
            out: std::mem::replace(&mut self.out, BytesMut::new(self.alloc)),
            resolved: std::mem::replace(&mut self.resolved, Listed::new(self.alloc)),
        }
    }

    /// Tells of what happened.
    pub fn tell(&mut self, line: Event) -> Alloc<()>
        ensures { Sent result self.new (with_event self.old line) }
    {
        self.events.push(line)
    }

    /// Puts a message on its way.
    pub fn send(&mut self, message: DcpMsg, opaque: u32, vb: u16) -> Alloc<()>
        requires { IsSpelled message }
        ensures { Sent result self.new (with_frame self.old (dcp_frame message opaque vb)) }
    {
        let sent = write_dcp(&message, opaque, vb, &mut self.out);
        drop(message);
        sent
    }

    /// Answers a request with a status alone.
    #[tactic(auto, unfolding(crate::specs::Serving::status_sent))]
    pub fn send_status(&mut self, f: &Frame, status: Status) -> Alloc<()>
        ensures { Sent result self.new (status_sent f.now status self.old) }
    {
        let reply = KvReply {
            opcode: f.opcode,
            status,
            opaque: f.opaque,
            cas: 0,
            datatype: 0,
            extras: Bytes::new(),
            value: Bytes::new(),
        };
        write_reply(&reply, &mut self.out)
    }

    /// Refuses a request for a stream.
    #[tactic(auto, unfolding(mcbp_dcp::specs::DcpFrames::dcp_frame))]
    pub fn send_refusal(&mut self, opaque: u32, status: u16) -> Alloc<()>
        ensures { Sent result self.new (with_frame self.old (dcp_frame (StreamAnswer (Refused status)) opaque 0)) }
    {
        let frame = Frame {
            magic: RESPONSE,
            opcode: Opcode::StreamRequest.number(),
            datatype: 0,
            vb_or_status: status,
            opaque,
            cas: 0,
            framing: Bytes::new(),
            extras: Bytes::new(),
            key: Bytes::new(),
            value: Bytes::new(),
        };
        write_frame(&frame, &mut self.out)
    }
}
