//! How a connection serves the frames that come, one a turn.
ghost use Rattle.std.specs.Prelude.{◌≡◌, ◌∷◌, [], ◌⊎◌, ◌≤◌, ◌<◌, ◌==◌, true, false, length, IfOk, OnOk, OnErr, Some};
ghost use Rattle.{client_session.specs.Answers.{reply_line, value_reply}, client_session.specs.Serving.{with_lines, MOST_DURABLE, deadline_of, next_waiter, greeted, asked, durable_called, durable_requested, request_handled, is_dcp, frame_handled, ended_at, turn, turn_handled, turns_handled}, mcbp_kv.specs.Features.{feature_bytes, has_feature}};
ghost use Rattle.{mcbp_frame.specs.Cutting.{front_fault}, mcbp_frame.specs.declared.frame.TheConstants.{RESPONSE}, mcbp_kv.specs.Fitting.{AsksFew}, vb_calls.specs.Programs.{Ran, Began}};

use crate::answers::bare_head;
use crate::{Alloc, Connection, Settings};
use mcbp_dcp::is_dcp;
use mcbp_frame::{Frame, FrameFault, RESPONSE};
use mcbp_kv::{Durability, Feature, KvRequest, hello_value, read_request};
use vb_calls::{VbAccess, VbCall};
use vb_types::{Status, Write};

/// Whether a feature is among these.
fn has(features: &[Feature], wanted: Feature) -> bool
    ensures { result ≡ has_feature wanted features.now }
{
    features.contains(&wanted)
}

/// How many durable writes a connection may ask for: its waits have numbers for so many.
const MOST_DURABLE: u32 = u32::MAX;

/// When a durable write is given up, so many milliseconds from now.
fn deadline_of(clock: u64, timeout: u16) -> u64
    ensures { result ≡ deadline_of clock timeout }
{
    clock.saturating_add(u64::from(timeout) * 1_000_000)
}

impl Connection {
    /// Answers HELLO by the features that it gets.
    fn tell_features(&mut self, f: &Frame, features: &[Feature]) -> Alloc<()>
        requires { length features.now ≤ 4 }
        ensures { OnOk result (self.new ≡ with_lines self.old (reply_line self.old.session.who.node self.old.session.who.client (value_reply f.now (feature_bytes features.now)) ∷ [])) }
    {
        let value = hello_value(self.alloc, features)?;
        let head = bare_head(f.opcode, f.opaque, Status::Success);
        self.tell(&head, &[], value.as_slice())
    }

    /// Answers HELLO, and sets the features that it gets, and no others.
    fn greet(&mut self, f: &Frame, features: &[Feature]) -> Alloc<()>
        requires { length features.now ≤ 4 }
        ensures { OnOk result (self.new ≡ greeted f.now features.now self.old) }
    {
        self.tell_features(f, features)?;
        self.settings = Settings {
            json: has(features, Feature::Json),
            seqnos: has(features, Feature::MutationSeqnos),
        };
        Ok(())
    }

    /// Asks the vBucket that a frame names, and answers by its reply.
    fn ask<A: VbAccess>(&mut self, vbs: &mut A, f: &Frame, call: VbCall) -> Alloc<()>
        ensures ok { OnOk result (Ran A.step (asked f.now call self.old) vbs.old self.new vbs.new) }
        ensures err { OnErr result (Began A.step (asked f.now call self.old) vbs.old vbs.new) }
    {
        let reply = vbs.call(f.vb_or_status, call)?;
        self.tell_asked(f, reply)
    }

    /// Under which number the outcome of the next durable write is waited for.
    fn next_waiter(&self) -> u64
        requires { self.now.session.used < MOST_DURABLE }
        ensures { result ≡ next_waiter self.now.session }
    {
        u64::from(self.who.base) * 4_294_967_296 + (u64::from(self.used) + 1)
    }

    /// Asks the vBucket that a frame names for a durable write, and answers or awaits.
    fn ask_durable<A: VbAccess>(&mut self, vbs: &mut A, f: &Frame, call: VbCall) -> Alloc<()>
        requires { self.old.session.used < MOST_DURABLE }
        ensures ok { OnOk result (Ran A.step (durable_called f.now call self.old) vbs.old self.new vbs.new) }
        ensures err { OnErr result (Began A.step (durable_called f.now call self.old) vbs.old vbs.new) }
    {
        let waiter = self.next_waiter();
        self.used += 1;
        let reply = vbs.call(f.vb_or_status, call)?;
        self.tell_durable(waiter, f, reply)
    }

    /// Serves a durable write, unless so many were asked for before.
    fn serve_durable<A: VbAccess>(
        &mut self,
        vbs: &mut A,
        clock: u64,
        f: &Frame,
        asked: (Write, Durability),
    ) -> Alloc<()>
        ensures ok { OnOk result (Ran A.step (durable_requested clock f.now asked.0 asked.1 self.old) vbs.old self.new vbs.new) }
        ensures err { OnErr result (Began A.step (durable_requested clock f.now asked.0 asked.1 self.old) vbs.old vbs.new) }
    {
        if self.used >= MOST_DURABLE {
            return self.refuse(f, Status::Etmpfail);
        }
        let (write, wish) = asked;
        let call = VbCall::Durable {
            write,
            clock,
            level: wish.level,
            deadline: deadline_of(clock, wish.timeout),
            waiter: self.next_waiter(),
        };
        self.ask_durable(vbs, f, call)
    }

    /// Serves a request.
    #[tactic(auto, unfolding(crate::specs::Serving::request_handled))]
    fn serve_request<A: VbAccess>(
        &mut self,
        vbs: &mut A,
        clock: u64,
        f: &Frame,
        request: Result<KvRequest, Status>,
    ) -> Alloc<()>
        requires { IfOk request AsksFew }
        ensures ok { OnOk result (Ran A.step (request_handled clock f.now request self.old) vbs.old self.new vbs.new) }
        ensures err { OnErr result (Began A.step (request_handled clock f.now request self.old) vbs.old vbs.new) }
    {
        match request {
            Err(status) => self.refuse(f, status),
            Ok(KvRequest::Noop) => self.refuse(f, Status::Success),
            Ok(KvRequest::Hello { features }) => self.greet(f, features.as_slice()),
            Ok(KvRequest::Get { key }) => self.ask(vbs, f, VbCall::Get { key }),
            Ok(KvRequest::Write { write, durable }) => match durable {
                None => self.ask(vbs, f, VbCall::Store { write, clock }),
                Some(wish) => self.serve_durable(vbs, clock, f, (write, wish)),
            },
        }
    }

    /// Answers a request that is not DCP's by what is read of it; a response is dropped.
    #[tactic(auto, using(vb_calls::proofs::Runs::runs), unfolding(crate::specs::Serving::frame_handled))]
    fn answer_frame<A: VbAccess>(&mut self, vbs: &mut A, clock: u64, f: &Frame) -> Alloc<()>
        requires { (f.now.magic == RESPONSE ≡ true) ⊎ (is_dcp f.now.opcode ≡ false) }
        ensures ok { OnOk result (Ran A.step (frame_handled clock f.now self.old) vbs.old self.new vbs.new) }
        ensures err { OnErr result (Began A.step (frame_handled clock f.now self.old) vbs.old vbs.new) }
    {
        if f.magic == RESPONSE {
            return Ok(());
        }
        let request = read_request(self.alloc, f, self.settings.json)?;
        self.serve_request(vbs, clock, f, request)
    }

    /// Serves a frame: answers it, or hands it up where it is DCP's; a response is dropped.
    #[tactic(auto, using(vb_calls::proofs::Runs::runs), unfolding(crate::specs::Serving::frame_handled))]
    fn serve_frame<A: VbAccess>(&mut self, vbs: &mut A, clock: u64, f: Frame) -> Alloc<()>
        ensures ok { OnOk result (Ran A.step (frame_handled clock f self.old) vbs.old self.new vbs.new) }
        ensures err { OnErr result (Began A.step (frame_handled clock f self.old) vbs.old vbs.new) }
    {
        if f.magic != RESPONSE && is_dcp(f.opcode) {
            self.dcp = Some(f);
            return Ok(());
        }
        let answered = self.answer_frame(vbs, clock, &f);
        drop(f);
        answered
    }

    /// Closes the connection at a header that breaks the rules, and tells of it.
    fn serve_fault(&mut self, fault: FrameFault) -> Alloc<()>
        requires { front_fault self.old.session.reader ≡ Some fault }
        ensures { OnOk result (self.new ≡ ended_at (Some fault) self.old) }
    {
        let head = self.reader.faulty_head(fault);
        self.reader.clear();
        self.closed = true;
        self.tell_fault(head)
    }

    /// Serves the first frame of the kept bytes, and says whether the turns go on behind it. While a
    /// frame that was handed up is not answered, or an outcome is awaited, no frame is served.
    #[tactic(auto, using(vb_calls::proofs::Runs::runs), unfolding(crate::specs::Serving::turn_handled))]
    fn serve_turn<A: VbAccess>(&mut self, vbs: &mut A, clock: u64) -> Alloc<bool>
        ensures ok { IfOk result (λ more. Ran A.step (turn_handled clock self.old) vbs.old (turn more self.new) vbs.new) }
        ensures err { OnErr result (Began A.step (turn_handled clock self.old) vbs.old vbs.new) }
    {
        if self.dcp.is_some() || self.awaited.is_some() {
            return Ok(false);
        }
        match self.reader.next()? {
            None => Ok(false),
            Some(Err(fault)) => {
                self.serve_fault(fault)?;
                Ok(false)
            }
            Some(Ok(frame)) => {
                self.serve_frame(vbs, clock, frame)?;
                Ok(true)
            }
        }
    }

    /// Serves the frames that are whole now, one a turn, up to one that is handed up or whose outcome
    /// is awaited, and closes at a fault behind them.
    pub fn serve_turns<A: VbAccess>(&mut self, vbs: &mut A, clock: u64) -> Alloc<()>
        ensures ok { OnOk result (Ran A.step (turns_handled clock self.old) vbs.old self.new vbs.new) }
        ensures err { OnErr result (Began A.step (turns_handled clock self.old) vbs.old vbs.new) }
    {
        while self.serve_turn(vbs, clock)? {}
        Ok(())
    }
}
