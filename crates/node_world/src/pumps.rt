//! Pumps: a producer's node gives vBuckets up whose time came, and then frames are put.
ghost use Rattle.std.specs.Prelude.{◌≡◌, IfOk};
ghost use Rattle.node_world.specs.Ends.{GivesPeer};
ghost use Rattle.node_world.specs.Links.{link_number};
ghost use Rattle.node_world.specs.Pumps.{gives_up};
ghost use Rattle.node_world.specs.Stands.{WorldStands};
ghost use Rattle.node_world.specs.World.{pump_step};
ghost use Rattle.node_world.specs.Worlds.{PlainWorld};
ghost use Rattle.vbucket.specs.Rows.{row_at};

use crate::link::link_place;
use crate::link_lines::node_place;
use crate::{Alloc, ScriptNode, Told, World};
use node_core::NodeOut;
use script_text::LinkVerb;
use vb_types::Listed;

impl ScriptNode {
    /// Has the streams of a link's producer give vBuckets up, in front of so many frames.
    pub fn give_up(&mut self, key: usize, frames: u32) -> Alloc<NodeOut>
        ensures { IfOk result (λ out. GivesPeer key frames self.old out self.new) }
    {
        self.node.give_up(key, frames)
    }
}

impl World {
    /// Has the streams of a link's producer give vBuckets up, in front of so many frames. What became of
    /// durable writes there is told to who awaits it.
    fn give_up(&mut self, l: u32, frames: u32) -> Alloc<Told>
        ensures { IfOk result (λ told. (w : PlainWorld) → WorldStands self.old w →
            WorldStands self.new (gives_up frames w (row_at link_number l w.links)).0
            × (told ≡ (gives_up frames w (row_at link_number l w.links)).1)) }
    {
        let Some(at) = link_place(&self.links, l) else {
            return Ok(Told::done(Listed::new(self.alloc)));
        };
        let link = &self.links[at];
        let n = link.producer;
        let conn = link.conn;
        let Some(serving) = node_place(&self.nodes, n) else {
            return Ok(Told::done(Listed::new(self.alloc)));
        };
        let out = self.nodes[serving].give_up(conn, frames)?;
        self.tell_out(n, out)
    }

    /// Has the producer of a link put frames of its streams, behind what it gives up.
    pub(crate) fn pump(&mut self, l: u32, frames: u32) -> Alloc<Told>
        ensures { IfOk result (λ told. (w : PlainWorld) → WorldStands self.old w →
            WorldStands self.new (pump_step w l frames).0 × (told ≡ (pump_step w l frames).1)) }
    {
        let gave = self.give_up(l, frames)?;
        let told = self.on_link(l, LinkVerb::Pump { frames })?;
        told.behind(gave.events)
    }
}
