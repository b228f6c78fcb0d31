//! How a producer gives vBuckets up to its consumer's, in front of a pull.
ghost use Rattle.std.specs.Prelude.{◌≡◌, [], IfOk, OnErr, OnOk};
ghost use Rattle.dcp_producer.specs.Giving.{all_given, behind_yield, given_up, none_given, one_given, stream_given, told_as, with_told};
ghost use Rattle.{dcp_producer.specs.Wanting.{AllPersist, Persists, Remains}, vb_calls.specs.Programs.{Ran, Began, each}};

use crate::{ActiveStream, Alloc, Connection};
use std::alloc::Global;
use vb_calls::{Resolved, VbAccess, VbAnswer, VbCall, VbReply};
use vb_types::Listed;

/// A vBucket that was given up: the streams that this ended there, by their numbers, and what became
/// of durable writes that are waited for.
#[derive(Drop)]
pub struct Yielded {
    pub vb: u16,
    pub ended: Listed<u64>,
    pub resolved: Listed<Resolved>,
}

/// What the reply to a yield tells, where the vBucket `vb` was given up.
fn told_of(vb: u16, reply: Option<VbReply>) -> Option<Yielded>
    ensures { result ≡ told_as vb reply }
{
    let VbReply {
        answer,
        resolved,
        ended,
        ..
    } = reply?;
    match answer {
        VbAnswer::Done => Some(Yielded {
            vb,
            ended,
            resolved,
        }),
        other => {
            drop(other);
            None
        }
    }
}

impl ActiveStream {
    /// Goes on where its vBucket was given up, as this tells; else it is ended, as by a change of
    /// role there.
    fn go_behind(&mut self, told: &Option<Yielded>)
        ensures { self.new ≡ behind_yield told.now self.old }
    {
        if told.is_some() {
            self.did();
        } else {
            self.end();
        }
    }

    /// Has its vBucket given up, if that is to be now, and tells what came of it.
    #[tactic(auto, using(vb_calls::proofs::Runs::runs))]
    fn give_up<A: VbAccess>(&mut self, vbs: &mut A) -> Alloc<Option<Yielded>>
        ensures ok { IfOk result (λ told. Ran A.step (stream_given self.old) vbs.old (self.new, told) vbs.new) }
        ensures err { OnErr result (Began A.step (stream_given self.old) vbs.old vbs.new) }
        ensures same { Persists self.old self.new }
    {
        if !self.is_due() {
            return Ok(None);
        }
        let reply = vbs.call(self.vb, VbCall::Yield { id: self.id })?;
        let told = told_of(self.vb, reply);
        self.go_behind(&told);
        Ok(told)
    }
}

/// One more vBucket that was given up, if one was.
fn list_told(yielded: &mut Listed<Yielded>, told: Option<Yielded>) -> Alloc<()>
    ensures { OnOk result (yielded.new ≡ with_told told yielded.old) }
{
    match told {
        Some(told) => yielded.push(told),
        None => Ok(()),
    }
}

/// Has the vBuckets given up that are to be now, in the order of these streams.
#[tactic(auto, using(vb_calls::proofs::Runs::runs))]
fn give_each<A: VbAccess>(
    streams: &mut Vec<ActiveStream>,
    vbs: &mut A,
    yielded: &mut Listed<Yielded>,
) -> Alloc<()>
    requires { yielded.old ≡ [] }
    ensures ok { OnOk result (Ran A.step (each one_given streams.old.items none_given) vbs.old (record { streams = streams.new.items; yielded = yielded.new }) vbs.new) }
    ensures err { OnErr result (Began A.step (each one_given streams.old.items none_given) vbs.old vbs.new) }
    ensures same { AllPersist streams.old.items streams.new.items }
{
    for at in 0..streams.len() {
        let told = streams[at].give_up(vbs)?;
        list_told(yielded, told)?;
    }
    Ok(())
}

impl Connection {
    /// Has the vBuckets given up that are to be, in the order in which their streams were opened.
    #[tactic(auto, using(vb_calls::proofs::Runs::runs))]
    fn give_all<A: VbAccess>(&mut self, vbs: &mut A) -> Alloc<Listed<Yielded>>
        ensures ok { IfOk result (λ yielded. Ran A.step (all_given self.old.end) vbs.old (record { end = self.new.end; yielded = yielded }) vbs.new) }
        ensures err { OnErr result (Began A.step (all_given self.old.end) vbs.old vbs.new) }
        ensures rest { self.new ≡ record self.old { end = self.new.end } }
        ensures same { Remains self.old.end self.new.end }
    {
        let mut yielded = Listed::new(self.alloc);
        give_each(&mut self.streams, vbs, &mut yielded)?;
        Ok(yielded)
    }

    /// The same in front of a pull of so many frames: none is given up where no frame is asked for,
    /// or the window is shut.
    #[tactic(auto, using(vb_calls::proofs::Runs::runs), unfolding(crate::specs::Giving::given_up))]
    pub fn give_up<A: VbAccess>(&mut self, vbs: &mut A, frames: u32) -> Alloc<Listed<Yielded>>
        ensures ok { IfOk result (λ yielded. Ran A.step (given_up frames self.old.end) vbs.old (record { end = self.new.end; yielded = yielded }) vbs.new) }
        ensures err { OnErr result (Began A.step (given_up frames self.old.end) vbs.old vbs.new) }
        ensures rest { self.new ≡ record self.old { end = self.new.end } }
        ensures same { Remains self.old.end self.new.end }
    {
        if frames > 0 && self.window.open() {
            self.give_all(vbs)
        } else {
            Ok(Listed::new(self.alloc))
        }
    }
}
