//! A connection that serves the bytes that come, and keeps the lines of the call that it is in.
ghost use Rattle.std.specs.Prelude.{◌≡◌, [], OnOk, OnErr};
ghost use Rattle.{client_session.specs.Serving.{served, bytes_handled, outcome_handled}, vb_calls.specs.Programs.{Ran, Began}};

use crate::block::AnswerBlock;
use crate::{Alloc, Awaited, SessionStep, Settings, Who};
use mcbp_frame::{Frame, FrameReader};
use std::alloc::Global;
use std::marker::Model;
use vb_calls::{Resolved, VbAccess};
use vb_events::Event;
use vb_types::Listed;

/// A connection: the bytes that came and were not served yet, what HELLO set, whether it is closed,
/// how many durable writes it asked for, the one whose outcome it awaits, the lines that tell what
/// happened in this call, and the request of DCP that it handed up, if it did.
#[derive(Drop)]
pub struct Connection {
    pub alloc: Global,
    pub who: Who,
    pub reader: FrameReader,
    pub settings: Settings,
    pub closed: bool,
    pub used: u32,
    pub awaited: Option<Awaited>,
    pub events: Listed<Event>,
    pub dcp: Option<Frame>,
    /// What the bytes of answers are cut out of.
    pub block: AnswerBlock,
}

impl Model for Connection {
    ghost use Rattle.client_session.specs.Serving.{Served};

    ghost Value = { Served };

    ghost view = { λ c. record {
      session = record { who = c.who; reader = c.reader; settings = c.settings; closed = c.closed; used = c.used; awaited = c.awaited };
      events = c.events;
      dcp = c.dcp;
    } };
}

impl Connection {
    /// Takes out what this call did.
    pub fn take_step(&mut self) -> SessionStep
        ensures events { result.events ≡ self.old.events }
        ensures dcp { result.dcp ≡ self.old.dcp }
        ensures closed { result.closed ≡ self.old.session.closed }
        ensures none { self.new ≡ served self.old.session [] }
    {
        let none = Listed::new(self.alloc);
        SessionStep {
            events: std::mem::replace(&mut self.events, none),
            dcp: self.dcp.take(),
            closed: self.closed,
        }
    }

    /// Takes the next bytes from the client: serves the frames that are whole now, one a turn, up to
    /// one that is handed up or whose outcome is awaited.
    #[tactic(auto, using(crate::proofs::Turns::taken))]
    pub fn take<A: VbAccess>(&mut self, vbs: &mut A, clock: u64, piece: &[u8]) -> Alloc<()>
        ensures ok { OnOk result (Ran A.step (bytes_handled clock piece.now self.old) vbs.old self.new vbs.new) }
        ensures err { OnErr result (Began A.step (bytes_handled clock piece.now self.old) vbs.old vbs.new) }
    {
        if self.closed {
            return Ok(());
        }
        self.reader.feed(piece)?;
        self.serve_turns(vbs, clock)
    }

    /// Takes what became of a durable write: answers it where it is awaited, and serves the frames
    /// that waited behind it.
    #[tactic(auto, using(vb_calls::proofs::Runs::runs), unfolding(crate::specs::Serving::outcome_handled))]
    pub fn resolve<A: VbAccess>(&mut self, vbs: &mut A, clock: u64, outcome: Resolved) -> Alloc<()>
        ensures ok { OnOk result (Ran A.step (outcome_handled clock outcome self.old) vbs.old self.new vbs.new) }
        ensures err { OnErr result (Began A.step (outcome_handled clock outcome self.old) vbs.old vbs.new) }
    {
        let Some(awaited) = self.awaited else {
            return Ok(());
        };
        if awaited.waiter != outcome.waiter {
            return Ok(());
        }
        self.tell_outcome(awaited, outcome.how)?;
        self.serve_turns(vbs, clock)
    }
}
