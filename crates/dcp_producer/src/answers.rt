//! How a producer answers the requests of a connection.
ghost use Rattle.std.specs.Prelude.{◌≡◌, ◌<◌, ◌-◌, ◌^◌, IfOk, OnOk, OnErr};
ghost use Rattle.dcp_producer.specs.Serving.{with_frame, ask_verdict, high_of_reply, kept_listed, log_of_reply, place_of_reply, with_granted, set_answered, sized_as, control_answered, close_requested, log_requested, log_sent, IsSendable, new_stream, next_stream, noop_answered, opening_requested, refusal_requested, request_refusal, response_heard, stream_verdict, stream_answered, stream_request, with_asked, message_answered, read_answered, frame_answered};
ghost use Rattle.{dcp_producer.specs.Producers.{is_sync, with_opened, without_stream}, dcp_producer.specs.Wanting.{Cut, Sent}, mcbp_dcp.specs.DcpFrames.{dcp_frame, IsVerdict}, mcbp_dcp.specs.declared.message.DcpMsg.TheVariants.{StreamAnswer}};
ghost use Rattle.{mcbp_dcp.specs.declared.message.StreamVerdict.TheVariants.{Go, Roll}, vb_calls.specs.Programs.{Ran}};
ghost use Rattle.vb_types.specs.declared.stream.{AskAnswer.{AskAnswer as Verdict}, Place.{Place as Source}, Place.TheVariants.{Memory}};

use crate::replies::{Standing, log_of, standing_of};
use crate::{ActiveStream, Alloc, Connection, Handshake, close_stream};
use mcbp_dcp::{DcpFault, DcpMsg, Opcode, StreamVerdict, is_dcp, read_dcp};
use mcbp_frame::{Frame, RESPONSE};
use vb_calls::{VbAccess, VbCall, VbReply};
use vb_events::Event;
use vb_types::{AskAnswer, Listed, LogEntry, Place, Status, StreamAsk};

impl Connection {
    /// Answers OPEN or CONTROL, by what it sets or why it is refused.
    fn answer_set(&mut self, f: &Frame, set: Result<Handshake, Status>) -> Alloc<()>
        ensures { Sent result self.new (set_answered set f.now self.old) }
    {
        match set {
            Ok(handshake) => {
                self.handshake = handshake;
                self.send_status(f, Status::Success)
            }
            Err(status) => self.send_status(f, status),
        }
    }

    /// Answers CONTROL of the window, by the size that it gets, if it gets one.
    fn answer_size(&mut self, f: &Frame, size: Option<u32>) -> Alloc<()>
        ensures { Sent result self.new (sized_as size f.now self.old) }
    {
        match size {
            Some(size) => {
                self.window.resize(size);
                self.send_status(f, Status::Success)
            }
            None => self.send_status(f, Status::Einval),
        }
    }

    /// Answers CONTROL.
    #[tactic(auto, using(crate::proofs::Handshaking::control_set))]
    fn answer_control(&mut self, f: &Frame, key: &[u8], value: &[u8]) -> Alloc<()>
        ensures { Sent result self.new (control_answered f.now key.now value.now self.old) }
    {
        if key == b"connection_buffer_size".as_slice() {
            self.answer_size(f, self.handshake.sized(value))
        } else {
            let set = self.handshake.controlled(key, value);
            self.answer_set(f, set.ok_or(Status::Einval))
        }
    }

    /// Answers that a stream begins, with this failover log.
    fn send_log(&mut self, opaque: u32, log: &[LogEntry]) -> Alloc<()>
        requires { IsVerdict (Go log.now) }
        ensures { Sent result self.new (with_frame self.old (dcp_frame (StreamAnswer (Go log.now)) opaque 0)) }
    {
        let log = Listed::from_vec(Vec::from_slice(self.alloc, log)?);
        let told = StreamVerdict::Go { log };
        self.send(DcpMsg::StreamAnswer { told }, opaque, 0)
    }

    /// Answers that a consumer is to go back to a point.
    fn send_point(&mut self, opaque: u32, point: u64) -> Alloc<()>
        ensures { Sent result self.new (with_frame self.old (dcp_frame (StreamAnswer (Roll point)) opaque 0)) }
    {
        let told = StreamVerdict::Roll { point };
        self.send(DcpMsg::StreamAnswer { told }, opaque, 0)
    }

    /// Puts the answer to a request for a stream on its way.
    fn send_verdict(&mut self, f: &Frame, standing: &Standing) -> Alloc<()>
        requires { IsVerdict (Go standing.now.log) }
        ensures { Sent result self.new (with_frame self.old (dcp_frame (StreamAnswer (stream_verdict standing.now.log standing.now.said)) f.now.opaque 0)) }
    {
        match standing.said {
            AskAnswer::Go => self.send_log(f.opaque, standing.log.as_slice()),
            AskAnswer::Roll(point) => self.send_point(f.opaque, point),
            AskAnswer::Refuse(status) => self.send_refusal(f.opaque, status),
        }
    }

    /// Puts the answer to a request for a stream on its way, and tells of it.
    #[tactic(auto, unfolding(crate::specs::Serving::stream_answered))]
    fn answer_stream(&mut self, f: &Frame, ask: &StreamAsk, standing: Standing) -> Alloc<()>
        requires { IsVerdict (Go standing.log) }
        ensures { Sent result self.new (stream_answered f.now ask.now self.old standing.log standing.high standing.said) }
    {
        self.send_verdict(f, &standing)?;
        self.events.push(Event::Asked {
            stream: self.desk.stream,
            node: self.desk.node,
            vb: f.vb_or_status,
            ask: *ask,
            high: standing.high,
            log: standing.log,
            answer: standing.said,
        })
    }

    /// Why the producer itself refuses a request for a stream.
    fn request_refusal(&self, ask: &StreamAsk) -> Option<Status>
        ensures { result ≡ request_refusal self.now.end ask.now }
    {
        if !self.handshake.is_open() || ask.flags > 1 {
            Some(Status::Einval)
        } else if ask.flags == 1 && self.desk.is_client() {
            Some(Status::NotSupported)
        } else if self.asked == u32::MAX {
            Some(Status::Etmpfail)
        } else {
            None
        }
    }

    /// Asks the vBucket what it says to a request that opens no stream, and answers so.
    fn refuse_request<A: VbAccess>(&mut self, vbs: &mut A, f: &Frame, ask: &StreamAsk) -> Alloc<()>
        ensures ok { OnOk result (Ran A.step (refusal_requested f.now ask.now self.old) vbs.old self.new vbs.new) }
        ensures err { OnErr result (Cut A.step (refusal_requested f.now ask.now self.old) self.old.end vbs.old self.new.end vbs.new) }
    {
        let call = VbCall::OpenStream {
            id: 0,
            ask: *ask,
            sync: self.handshake.is_sync(),
        };
        let reply = vbs.call(f.vb_or_status, call)?;
        let own = self.request_refusal(ask);
        self.answer_stream(f, ask, standing_of(self.alloc, own, reply))
    }

    /// Lists the stream that a request asks for, and gives its number. An `Err` changes nothing but
    /// how many streams were asked for.
    fn begin_stream(&mut self, f: &Frame, ask: &StreamAsk) -> Alloc<u64>
        requires { self.old.end.asked < 2 ^ 32 - 1 }
        ensures id { IfOk result (λ id. id ≡ next_stream self.old.end) }
        ensures ok { OnOk result (self.new ≡ record self.old { end = with_opened (new_stream (next_stream self.old.end) f.now ask.now (is_sync self.old.end.handshake) Memory) (with_asked self.old.end) }) }
        ensures err { OnErr result (self.new ≡ record self.old { end = with_asked self.old.end }) }
        ensures back { without_stream (next_stream self.old.end) (with_opened (new_stream (next_stream self.old.end) f.now ask.now (is_sync self.old.end.handshake) Memory) (with_asked self.old.end)) ≡ with_asked self.old.end }
        ensures kept { (from : Source) (said : Verdict) → kept_listed said from (next_stream self.old.end) (with_opened (new_stream (next_stream self.old.end) f.now ask.now (is_sync self.old.end.handshake) Memory) (with_asked self.old.end)) ≡ with_granted (with_asked self.old.end) (next_stream self.old.end) f.now ask.now from said }
    {
        let id = u64::from(self.desk.base) * 4_294_967_296 + (u64::from(self.asked) + 1);
        self.asked += 1;
        let sync = self.handshake.is_sync();
        self.list_stream(ActiveStream::new(self.alloc, id, f, ask, sync))?;
        Ok(id)
    }

    /// Has the stream that was listed under a number no more, unless it begins; then it is known where
    /// its first changes come from.
    fn keep_listed(&mut self, id: u64, said: AskAnswer, from: Place)
        ensures { self.new ≡ record self.old { end = kept_listed said from id self.old.end } }
    {
        match said {
            AskAnswer::Go => self.source_stream(id, from),
            AskAnswer::Roll(_) | AskAnswer::Refuse(_) => self.drop_stream(id),
        }
    }

    /// Answers the request that asked for the stream of a number, by the vBucket's reply.
    fn answer_opened(
        &mut self,
        f: &Frame,
        ask: &StreamAsk,
        id: u64,
        reply: Option<VbReply>,
    ) -> Alloc<()>
        requires { IsVerdict (Go (log_of_reply reply)) }
        ensures { Sent result self.new (stream_answered f.now ask.now (record self.old { end = kept_listed (ask_verdict reply) (place_of_reply reply) id self.old.end }) (log_of_reply reply) (high_of_reply reply) (ask_verdict reply)) }
    {
        let standing = standing_of(self.alloc, None, reply);
        self.keep_listed(id, standing.said, standing.place);
        self.answer_stream(f, ask, standing)
    }

    /// Asks the vBucket to open a stream, which is listed first, so that none is opened that the
    /// connection does not know; it is listed no more where it does not begin.
    fn open_stream<A: VbAccess>(&mut self, vbs: &mut A, f: &Frame, ask: &StreamAsk) -> Alloc<()>
        requires { self.old.end.asked < 2 ^ 32 - 1 }
        ensures ok { OnOk result (Ran A.step (opening_requested f.now ask.now self.old) vbs.old self.new vbs.new) }
        ensures err { OnErr result (Cut A.step (opening_requested f.now ask.now self.old) self.old.end vbs.old self.new.end vbs.new) }
    {
        let id = self.begin_stream(f, ask)?;
        let call = VbCall::OpenStream {
            id,
            ask: *ask,
            sync: self.handshake.is_sync(),
        };
        match vbs.call(f.vb_or_status, call) {
            Ok(reply) => self.answer_opened(f, ask, id, reply),
            Err(stop) => {
                self.drop_stream(id);
                Err(stop)
            }
        }
    }

    /// Answers STREAM_REQUEST.
    #[tactic(auto, unfolding(crate::specs::Serving::stream_request))]
    fn answer_request<A: VbAccess>(&mut self, vbs: &mut A, f: &Frame, ask: &StreamAsk) -> Alloc<()>
        ensures ok { OnOk result (Ran A.step (stream_request f.now ask.now self.old) vbs.old self.new vbs.new) }
        ensures err { OnErr result (Cut A.step (stream_request f.now ask.now self.old) self.old.end vbs.old self.new.end vbs.new) }
    {
        if self.request_refusal(ask).is_none() && self.stream_at(f.vb_or_status).is_none() {
            self.open_stream(vbs, f, ask)
        } else {
            self.refuse_request(vbs, f, ask)
        }
    }

    /// Answers CLOSE_STREAM.
    fn answer_close<A: VbAccess>(&mut self, vbs: &mut A, f: &Frame) -> Alloc<()>
        ensures ok { OnOk result (Ran A.step (close_requested f.now self.old) vbs.old self.new vbs.new) }
        ensures err { OnErr result (Cut A.step (close_requested f.now self.old) self.old.end vbs.old self.new.end vbs.new) }
    {
        if !self.handshake.is_open() {
            return self.send_status(f, Status::Einval);
        }
        let Some(stream) = self.stream_at(f.vb_or_status) else {
            return self.send_status(f, Status::KeyEnoent);
        };
        let id = stream.id;
        if !stream.is_ended() {
            close_stream(vbs, stream.vb, id);
        }
        self.drop_stream(id);
        self.send_status(f, Status::Success)
    }

    /// Answers GET_FAILOVER_LOG, by the log that the vBucket gave.
    fn answer_log(&mut self, f: &Frame, log: Option<Listed<LogEntry>>) -> Alloc<()>
        requires { IsSendable log }
        ensures { Sent result self.new (log_sent f.now self.old log) }
    {
        match log {
            Some(log) => {
                let status = Status::Success.code();
                self.send(DcpMsg::LogAnswer { status, log }, f.opaque, 0)
            }
            None => self.send_status(f, Status::Einval),
        }
    }

    /// Answers GET_FAILOVER_LOG.
    fn request_log<A: VbAccess>(&mut self, vbs: &mut A, f: &Frame) -> Alloc<()>
        ensures ok { OnOk result (Ran A.step (log_requested f.now self.old) vbs.old self.new vbs.new) }
        ensures err { OnErr result (Cut A.step (log_requested f.now self.old) self.old.end vbs.old self.new.end vbs.new) }
    {
        if !self.handshake.is_open() {
            return self.send_status(f, Status::Einval);
        }
        match vbs.call(f.vb_or_status, VbCall::Log)? {
            Some(reply) => self.answer_log(f, log_of(reply)),
            None => self.send_status(f, Status::NotMyVbucket),
        }
    }

    /// Answers NOOP.
    fn answer_noop(&mut self, f: &Frame) -> Alloc<()>
        ensures { Sent result self.new (noop_answered f.now self.old) }
    {
        let status = if self.handshake.is_open() {
            Status::Success
        } else {
            Status::Einval
        };
        self.send_status(f, status)
    }

    /// Answers a message.
    #[tactic(auto, using(vb_calls::proofs::Runs::runs, crate::proofs::Handshaking::open_set))]
    fn answer_message<A: VbAccess>(&mut self, vbs: &mut A, f: &Frame, message: &DcpMsg) -> Alloc<()>
        ensures ok { OnOk result (Ran A.step (message_answered f.now message.now self.old) vbs.old self.new vbs.new) }
        ensures err { OnErr result (Cut A.step (message_answered f.now message.now self.old) self.old.end vbs.old self.new.end vbs.new) }
    {
        match message {
            DcpMsg::Open { flags, .. } => self.answer_set(f, self.handshake.opened(*flags)),
            DcpMsg::Control { key, value } => {
                self.answer_control(f, key.as_slice(), value.as_slice())
            }
            DcpMsg::StreamRequest { ask } => self.answer_request(vbs, f, ask),
            DcpMsg::SeqnoAcknowledged { seq } => self.acknowledge(vbs, f, *seq),
            DcpMsg::BufferAcknowledgement { bytes } => self.acknowledge_bytes(f, *bytes),
            DcpMsg::CloseStream => self.answer_close(vbs, f),
            DcpMsg::GetFailoverLog => self.request_log(vbs, f),
            DcpMsg::Noop => self.answer_noop(f),
            _ => self.send_status(f, Status::Einval),
        }
    }

    /// Answers a frame of DCP, by what was read of it.
    #[tactic(auto, using(vb_calls::proofs::Runs::runs))]
    fn answer_read<A: VbAccess>(
        &mut self,
        vbs: &mut A,
        f: &Frame,
        read: Option<Result<DcpMsg, DcpFault>>,
    ) -> Alloc<()>
        requires { f.now.datatype ≡ 0 }
        ensures ok { OnOk result (Ran A.step (read_answered f.now read self.old) vbs.old self.new vbs.new) }
        ensures err { OnErr result (Cut A.step (read_answered f.now read self.old) self.old.end vbs.old self.new.end vbs.new) }
    {
        let answered = match &read {
            Some(Ok(message)) => self.answer_message(vbs, f, message),
            _ => self.send_status(f, Status::Einval),
        };
        drop(read);
        answered
    }

    /// Hears a response: that a state was taken, by the streams of its opaque. Any other answers
    /// nothing that is waited for, and is dropped.
    fn hear_response(&mut self, f: &Frame)
        ensures { self.new ≡ response_heard f.now self.old }
    {
        let taken = f.opcode == Opcode::SetVbucketState.number()
            && f.vb_or_status == Status::Success.code();
        if taken {
            self.hear_answer(f.opaque);
        }
    }

    /// Answers a frame.
    #[tactic(auto, using(vb_calls::proofs::Runs::runs), unfolding(crate::specs::Serving::frame_answered, mcbp_dcp::specs::Messages::read_of))]
    pub fn answer_frame<A: VbAccess>(&mut self, vbs: &mut A, f: &Frame) -> Alloc<()>
        ensures ok { OnOk result (Ran A.step (frame_answered f.now self.old) vbs.old self.new vbs.new) }
        ensures err { OnErr result (Cut A.step (frame_answered f.now self.old) self.old.end vbs.old self.new.end vbs.new) }
    {
        if f.magic == RESPONSE {
            self.hear_response(f);
            return Ok(());
        }
        if !is_dcp(f.opcode) {
            return self.send_status(f, Status::UnknownCommand);
        }
        if f.datatype != 0 {
            return self.send_status(f, Status::Einval);
        }
        let read = read_dcp(self.alloc, f)?;
        self.answer_read(vbs, f, read)
    }
}
