//! What a node keeps of a client's connection.
ghost use Rattle.std.specs.Prelude.{◌≡◌, false, true, [], IfOk, OnOk, OnErr};
ghost use Rattle.{client_session.specs.Serving.{new_session, served, bytes_handled, awaits, outcome_handled}, vb_calls.specs.Programs.{Ran, Began}};

use crate::block::AnswerBlock;
use crate::{Alloc, Connection};
use mcbp_frame::{Frame, FrameReader};
use std::alloc::{AllocError, Global};
use std::marker::Model;
use vb_calls::{Resolved, VbAccess};
use vb_events::Event;
use vb_types::Listed;

/// Which connection this is: its node, and its number there; and the number, of no other connection
/// of a run, by which its waits for durable writes are numbered.
#[derive(Clone, Copy)]
pub struct Who {
    pub node: u8,
    pub client: u32,
    pub base: u32,
}

/// A durable write whose outcome is awaited: under which number, and what the answer repeats of its
/// frame.
#[derive(Clone, Copy, Debug, PartialEq, Eq)]
pub struct Awaited {
    pub waiter: u64,
    pub opcode: u8,
    pub opaque: u32,
}

/// Which features the last HELLO set, of those that change answers: documents are marked as JSON,
/// and answers to writes have their branch and seqno.
#[derive(Clone, Copy, Default)]
pub struct Settings {
    pub json: bool,
    pub seqnos: bool,
}

/// What a connection did with bytes: the lines that tell of it, the request of DCP that it handed up,
/// if it did, and whether it is closed now. The next `feed`, of an empty piece too, goes on behind a
/// request that was handed up, so that one is to be answered before.
#[derive(Drop)]
pub struct SessionStep {
    pub events: Listed<Event>,
    pub dcp: Option<Frame>,
    pub closed: bool,
}

/// A client's connection. It is spent after want of memory.
#[derive(Drop)]
pub struct Session {
    connection: Connection,
    spent: bool,
}

impl Model for Session {
    ghost use Rattle.std.specs.Prelude.{◌≡◌, [], None};
    ghost use Rattle.client_session.specs.Serving.{KeptSession};

    ghost Value = { KeptSession };

    ghost view = { λ s. record { plain = s.connection.session; spent = s.spent } };

    ghost invariant = { λ s. (s.connection.events ≡ []) × (s.connection.dcp ≡ None) };
}

impl Session {
    /// A new connection.
    pub fn new(alloc: Global, who: Who) -> Alloc<Session>
        ensures { IfOk result (λ session. session ≡ record { plain = new_session who; spent = false }) }
    {
        Ok(Session {
            connection: Connection {
                alloc,
                who,
                reader: FrameReader::new(alloc)?,
                settings: Settings::default(),
                closed: false,
                used: 0,
                awaited: None,
                events: Listed::new(alloc),
                dcp: None,
                block: AnswerBlock::new(alloc),
            },
            spent: false,
        })
    }

    /// Which connection it is.
    pub fn who(&self) -> Who
        ensures { result ≡ self.now.plain.who }
    {
        self.connection.who
    }

    /// Whether memory was short for it.
    pub fn is_spent(&self) -> bool
        ensures { result ≡ self.now.spent }
    {
        self.spent
    }

    /// Takes the next bytes from the client, while the node's clock shows `clock` nanoseconds:
    /// answers the frames that are whole now, up to one that is handed up or whose outcome is awaited,
    /// and tells what happened. After an `Err` the connection is spent, and every later call answers
    /// `Err` and does nothing.
    #[tactic(auto, using(vb_calls::proofs::Runs::runs))]
    pub fn feed<A: VbAccess>(&mut self, vbs: &mut A, clock: u64, piece: &[u8]) -> Alloc<SessionStep>
        ensures fresh { OnOk result (self.old.spent ≡ false) }
        ensures stays { OnOk result (self.new.spent ≡ false) }
        ensures ok { IfOk result (λ step. Ran A.step (bytes_handled clock piece.now (served self.old.plain [])) vbs.old (record { session = self.new.plain; events = step.events; dcp = step.dcp }) vbs.new) }
        ensures closed { IfOk result (λ step. step.closed ≡ self.new.plain.closed) }
        ensures spent { OnErr result (self.new.spent ≡ true) }
        ensures silent { OnErr result (self.old.spent ≡ true → vbs.new ≡ vbs.old) }
        ensures still { OnErr result (self.old.spent ≡ true → self.new ≡ self.old) }
        ensures err { OnErr result (Began A.step (bytes_handled clock piece.now (served self.old.plain [])) vbs.old vbs.new) }
    {
        if self.spent {
            return Err(AllocError);
        }
        let taken = self.connection.take(vbs, clock, piece);
        let step = self.connection.take_step();
        self.spent = taken.is_err();
        match taken {
            Ok(()) => Ok(step),
            Err(short) => {
                drop(step);
                Err(short)
            }
        }
    }

    /// Whether the outcome for this waiter is awaited.
    pub fn awaits(&self, waiter: u64) -> bool
        ensures { result ≡ awaits waiter self.now.plain.awaited }
    {
        match self.connection.awaited {
            None => false,
            Some(awaited) => awaited.waiter == waiter,
        }
    }

    /// Takes what became of a durable write, while the node's clock shows `clock` nanoseconds: where
    /// this connection awaits it, answers it and then the frames that came behind it, and tells what
    /// happened. After an `Err` the connection is spent, as after one of `feed`.
    #[tactic(auto, using(vb_calls::proofs::Runs::runs))]
    pub fn resolved<A: VbAccess>(
        &mut self,
        vbs: &mut A,
        clock: u64,
        outcome: Resolved,
    ) -> Alloc<SessionStep>
        ensures fresh { OnOk result (self.old.spent ≡ false) }
        ensures stays { OnOk result (self.new.spent ≡ false) }
        ensures ok { IfOk result (λ step. Ran A.step (outcome_handled clock outcome (served self.old.plain [])) vbs.old (record { session = self.new.plain; events = step.events; dcp = step.dcp }) vbs.new) }
        ensures closed { IfOk result (λ step. step.closed ≡ self.new.plain.closed) }
        ensures spent { OnErr result (self.new.spent ≡ true) }
        ensures silent { OnErr result (self.old.spent ≡ true → vbs.new ≡ vbs.old) }
        ensures still { OnErr result (self.old.spent ≡ true → self.new ≡ self.old) }
        ensures err { OnErr result (Began A.step (outcome_handled clock outcome (served self.old.plain [])) vbs.old vbs.new) }
    {
        if self.spent {
            return Err(AllocError);
        }
        let taken = self.connection.resolve(vbs, clock, outcome);
        let step = self.connection.take_step();
        self.spent = taken.is_err();
        match taken {
            Ok(()) => Ok(step),
            Err(short) => {
                drop(step);
                Err(short)
            }
        }
    }
}
