//! What became of durable writes, told to the clients that await it.
ghost use Rattle.std.specs.Prelude.{◌≡◌, ◌/◌, ◌^◌, IfOk, OnOk};
ghost use Rattle.{node_core.specs.Outs.{flush_by}, node_world.specs.Ends.{Carries, Posts, PostsAll, PostsTo}};
ghost use Rattle.{node_world.specs.Nodes.{PlainNode, awaiting, awaits_in, with_posts}, node_world.specs.Stands.{NodeMatch}};
ghost use Rattle.node_world.specs.declared.script_node.TheConstants.{MAX_CLIENTS};

use crate::script_node::{MAX_CLIENTS, forget_if};
use crate::{Alloc, ScriptNode, Told};
use node_core::NodeOut;
use std::alloc::Global;
use vb_calls::Resolved;
use vb_events::Event;
use vb_types::Listed;

/// The base of the connection that asked for the durable write of a waiter.
fn base_of(waiter: u64) -> u32
    ensures { result ≡ waiter / 2 ^ 32 }
{
    (waiter / (1 << 32)) as u32
}

impl ScriptNode {
    /// Whether the connection of a number, if there is one, awaits the outcome of the durable write of
    /// this waiter.
    fn awaits(&self, client: u32, waiter: u64) -> bool
        ensures { (plain : PlainNode) → NodeMatch self.now plain → result ≡ awaits_in waiter (plain.clients client) }
    {
        match self.clients.get(client) {
            Some(key) => self.node.awaits(*key, waiter),
            None => false,
        }
    }

    /// The first connection that awaits the outcome of the durable write of this waiter. Only those of
    /// the waiter's base are asked: one, in a script of fewer than 2^32 lines.
    fn awaiting(&self, waiter: u64) -> Option<u32>
        ensures { (plain : PlainNode) → NodeMatch self.now plain → result ≡ awaiting plain.clients waiter MAX_CLIENTS }
    {
        let base = base_of(waiter);
        let mut from = 0;
        while let Some(client) = self.bases.next(base, from, MAX_CLIENTS) {
            if self.awaits(client, waiter) {
                return Some(client);
            }
            from = client + 1;
        }
        None
    }

    /// Tells what became of a durable write to the connection of a number; these are the lines of that.
    fn post_to(&mut self, alloc: Global, client: u32, outcome: Resolved) -> Alloc<Listed<Event>>
        ensures { IfOk result (λ lines. PostsTo client outcome self.old lines self.new) }
    {
        let Some(key) = self.clients.get(client).copied() else {
            return Ok(Listed::new(alloc));
        };
        let out = self.node.post(key, outcome, self.clock)?;
        forget_if(&mut self.clients, client, out.closed);
        Ok(out.events)
    }

    /// Tells what became of a durable write to the connection that awaits it, if there is one; these
    /// are the lines of that.
    fn post(&mut self, alloc: Global, outcome: Resolved) -> Alloc<Listed<Event>>
        ensures { IfOk result (λ lines. Posts outcome self.old lines self.new) }
    {
        let Some(client) = self.awaiting(outcome.waiter) else {
            return Ok(Listed::new(alloc));
        };
        self.post_to(alloc, client, outcome)
    }

    /// Tells what became of durable writes, one after the other, and appends the lines of that.
    pub fn post_all(
        &mut self,
        alloc: Global,
        outcomes: &[Resolved],
        lines: &mut Listed<Event>,
    ) -> Alloc<()>
        ensures { OnOk result (PostsAll outcomes.now self.old lines.old self.new lines.new) }
    {
        for outcome in outcomes {
            lines.append(self.post(alloc, *outcome)?)?;
        }
        Ok(())
    }

    /// What is told of a call, once what became of durable writes with it is told to who awaits it.
    pub fn tell_out(&mut self, alloc: Global, out: NodeOut) -> Alloc<Told>
        ensures { IfOk result (λ told. Carries (with_posts (flush_by out)) self.old told self.new) }
    {
        let mut events = out.events;
        self.post_all(alloc, out.resolved.as_slice(), &mut events)?;
        Ok(Told {
            events,
            answer: out.answer,
        })
    }
}
