//! Streams that give vBuckets up: what is told of it, and to whom.
ghost use Rattle.std.specs.Prelude.{◌≡◌, [], ℕ, map, IfOk};
ghost use Rattle.std.specs.{List.{flat_map}, Option.{option_map}};
ghost use Rattle.node_core.specs.GivingUp.{conn_given, dead_line, gave_of, resolved_in};
ghost use Rattle.slab.specs.Slab.{get};

use crate::conn::tell_all;
use crate::{Alloc, Conn};
use dcp_producer::Yielded;
use slab::Slab;
use std::alloc::Global;
use vb_calls::Resolved;
use vb_events::Event;
use vb_types::{Listed, Role};

/// What a connection's streams gave up: the vBuckets, in the order in which they were given up, the lines
/// that tell of them, and what became of durable writes.
#[derive(Drop)]
pub struct Gave {
    pub given: Listed<Yielded>,
    pub lines: Listed<Event>,
    pub resolved: Listed<Resolved>,
}

/// The lines of vBuckets of a node that were given up.
fn dead_lines(alloc: Global, node: u8, given: &[Yielded]) -> Alloc<Listed<Event>>
    ensures { IfOk result (λ lines. lines ≡ map (dead_line node) given.now) }
{
    let mut lines = Vec::new(alloc);
    for one in given {
        lines.push(Event::Role {
            node,
            vb: one.vb,
            role: Role::Dead,
        })?;
    }
    Ok(Listed::from_vec(lines))
}

/// What became of durable writes there.
fn all_resolved(alloc: Global, given: &[Yielded]) -> Alloc<Listed<Resolved>>
    ensures { IfOk result (λ resolved. resolved ≡ flat_map resolved_in given.now) }
{
    let mut resolved = Vec::new(alloc);
    for one in given {
        resolved.extend_from_slice(one.resolved.as_slice())?;
    }
    Ok(Listed::from_vec(resolved))
}

impl Gave {
    /// Nothing was given up.
    pub fn none(alloc: Global) -> Gave
        ensures { result ≡ record { given = []; lines = []; resolved = [] } }
    {
        Gave {
            given: Listed::new(alloc),
            lines: Listed::new(alloc),
            resolved: Listed::new(alloc),
        }
    }

    /// These vBuckets of a node were given up.
    pub fn of(alloc: Global, node: u8, given: Listed<Yielded>) -> Alloc<Gave>
        ensures { IfOk result (λ gave. gave ≡ gave_of node given) }
    {
        let lines = dead_lines(alloc, node, given.as_slice())?;
        let resolved = all_resolved(alloc, given.as_slice())?;
        Ok(Gave {
            given,
            lines,
            resolved,
        })
    }
}

/// Tells all connections which streams ended as these vBuckets were given up.
pub fn tell_given(conns: &mut Slab<Conn>, given: &[Yielded])
    ensures { (key : ℕ) → get conns.new key ≡ option_map (conn_given given.now) (get conns.old key) }
{
    for one in given {
        tell_all(conns, one.vb, one.ended.as_slice());
    }
}
