//! Nodes of a script that stop, with all links that have an end there.
ghost use Rattle.std.specs.Prelude.{◌≡◌, ◌<◌, ◌+◌, ◌==◌, ◌||◌, ◌++◌, ◌∷◌, if◌then◌else◌, ℕ, [], IfOk, OnOk};
ghost use Rattle.{vb_events.specs.declared.event.Answer.TheVariants.{No}, vb_events.specs.declared.event.Cause.TheVariants.{Stopped}, vb_events.specs.declared.event.Event.TheVariants.{NodeStopped}};
ghost use Rattle.{std.specs.List.{filter, position}, vbucket.specs.Rows.{row_at}, node_world.specs.Arms.{fired_by}, node_world.specs.Starts.{Cutting}, node_world.specs.Links.{link_number}};
ghost use Rattle.node_world.specs.Power.{after_broken, after_fire, all_cut, closed_line, closed_lines, crash_step, disk_end, down_lines, dropped, end_line, end_lines, has_client, is_this_number, is_touched, start_step, stopped_node, touches};
ghost use Rattle.{node_world.specs.Stands.{WorldStands}, node_world.specs.Worlds.{PlainWorld, arm_in, with_node_if}};

use crate::link::link_place;
use crate::link_lines::node_place;
use crate::{Alloc, Arm, Fired, Link, Told, World};
use script_text::LinkVerb;
use vb_disk::Outcome;
use vb_events::{Answer, Cause, EndReason, Event};
use vb_types::Listed;

/// The numbers of links and of client connections are below this one.
const NUMBERS: u32 = 1000;

/// Whether this is the number, where there is one.
fn is_this_number(l: u32, also: Option<u32>) -> bool
    ensures { result ≡ is_this_number l also }
{
    match also {
        None => false,
        Some(k) => l == k,
    }
}

/// Whether a link has an end at a node.
fn touches(link: &Link, n: u8) -> bool
    ensures { result ≡ (link.now.producer == n || link.now.node == n) }
{
    link.producer == n || link.node == n
}

/// Where the first link stands that has an end at a node, if there is one.
fn touching_place(links: &[Link], n: u8) -> Option<usize>
    ensures { result ≡ position (λ link. link.producer == n || link.node == n) links.now }
{
    links.iter().position(|link| touches(link, n))
}

/// Tells this, or nothing.
fn push_if(events: &mut Listed<Event>, is_told: bool, line: Event) -> Alloc<()>
    ensures { OnOk result (events.new ≡ events.old ++ (if is_told then line ∷ [] else [])) }
{
    if is_told {
        return events.push(line);
    }
    drop(line);
    Ok(())
}

/// The same told, with one line more.
fn with_line(mut told: Told, line: Event) -> Alloc<Told>
    ensures { IfOk result (λ came. came ≡ record { events = told.events ++ line ∷ []; answer = told.answer }) }
{
    told.events.push(line)?;
    Ok(told)
}

/// The same told, with the end of a link that could not go back, and this answer.
fn disk_ended(mut told: Told, link: u32, answer: Answer) -> Alloc<Told>
    ensures { IfOk result (λ came. came ≡ record { events = told.events ++ disk_end link; answer = answer }) }
{
    let reason = EndReason::Disk;
    told.events.push(Event::Ended { link, reason })?;
    told.answer = answer;
    Ok(told)
}

impl World {
    /// The arm of a node.
    pub(crate) fn arm(&self, n: u8) -> Arm
        ensures { (w : PlainWorld) → WorldStands self.now w → result ≡ arm_in (w.nodes n) }
    {
        match node_place(&self.nodes, n) {
            None => Arm::off(),
            Some(at) => self.nodes[at].arm,
        }
    }

    /// What became of a node's arm since it was this one.
    fn fired(&self, n: u8, arm: Arm) -> Fired
        ensures { (w : PlainWorld) → WorldStands self.now w → result ≡ fired_by arm.fuse (arm_in (w.nodes n)).fuse }
    {
        arm.fired(self.arm(n).fuse)
    }

    /// Whether the link of a number has an end at a node.
    fn is_touched(&self, l: u32, n: u8) -> bool
        ensures { (w : PlainWorld) → WorldStands self.now w → result ≡ is_touched n (row_at link_number l w.links) }
    {
        match link_place(&self.links, l) {
            None => false,
            Some(at) => touches(&self.links[at], n),
        }
    }

    /// Whether a client connection of a node is open.
    fn has_client(&self, n: u8, c: u32) -> bool
        ensures { (w : PlainWorld) → WorldStands self.now w → result ≡ has_client c (w.nodes n) }
    {
        match node_place(&self.nodes, n) {
            None => false,
            Some(at) => self.nodes[at].clients.get(c).is_some(),
        }
    }

    /// Whether the end of the link of a number is told, as a node stops.
    fn is_ended(&self, n: u8, also: Option<u32>, link: u32) -> bool
        ensures { (w : PlainWorld) → WorldStands self.now w → result ≡ (is_this_number link also || is_touched n (row_at link_number link w.links)) }
    {
        if is_this_number(link, also) {
            return true;
        }
        self.is_touched(link, n)
    }

    /// Tells of the end of the link of a number, where it has an end at a node, or is this one.
    fn tell_end(&self, n: u8, also: Option<u32>, link: u32, events: &mut Listed<Event>) -> Alloc<()>
        ensures { OnOk result ((w : PlainWorld) → WorldStands self.now w → events.new ≡ events.old ++ end_line n also w.links link) }
    {
        let is_told = self.is_ended(n, also, link);
        let reason = EndReason::Cut;
        push_if(events, is_told, Event::Ended { link, reason })
    }

    /// Tells of the ends of the links that have an end at a node, and of one more.
    fn tell_ends(&self, n: u8, also: Option<u32>, events: &mut Listed<Event>) -> Alloc<()>
        ensures { OnOk result ((w : PlainWorld) → WorldStands self.now w → events.new ≡ events.old ++ end_lines n also w.links) }
    {
        for link in 0..NUMBERS {
            self.tell_end(n, also, link, events)?;
        }
        Ok(())
    }

    /// Tells that a node closes a client connection, where it is open.
    fn tell_close(&self, node: u8, client: u32, events: &mut Listed<Event>) -> Alloc<()>
        ensures { OnOk result ((w : PlainWorld) → WorldStands self.now w → events.new ≡ events.old ++ closed_line node (w.nodes node) client) }
    {
        let is_told = self.has_client(node, client);
        push_if(events, is_told, Event::Closed { node, client })
    }

    /// Tells that a node closes its client connections.
    fn tell_closed(&self, node: u8, events: &mut Listed<Event>) -> Alloc<()>
        ensures { OnOk result ((w : PlainWorld) → WorldStands self.now w → events.new ≡ events.old ++ closed_lines node (w.nodes node)) }
    {
        for client in 0..NUMBERS {
            self.tell_close(node, client, events)?;
        }
        Ok(())
    }

    /// Cuts the first link that has an end at a node, where there is one.
    fn cut_first(&mut self, n: u8) -> Alloc<()>
        ensures { OnOk result ((count turn : ℕ) (w : PlainWorld) → turn < count → Cutting n count turn self.old w → Cutting n count (turn + 1) self.new w) }
    {
        let Some(at) = touching_place(&self.links, n) else {
            return Ok(());
        };
        let number = self.links[at].number;
        self.on_link(number, LinkVerb::Cut)?;
        Ok(())
    }

    /// Cuts all links that have an end at a node.
    fn cut_links_of(&mut self, n: u8) -> Alloc<()>
        ensures { OnOk result ((w : PlainWorld) → WorldStands self.old w → WorldStands self.new (all_cut n w) × (filter (touches n) (all_cut n w).links ≡ [])) }
    {
        let count = self.links.as_slice().len();
        for turn in 0..count {
            self.cut_first(n)?;
        }
        Ok(())
    }

    /// What a crash leaves of a node at which no link has an end.
    fn drop_node(&mut self, n: u8, out: Outcome)
        ensures { (w : PlainWorld) → WorldStands self.old w → filter (touches n) w.links ≡ [] → WorldStands self.new (with_node_if n (stopped_node out) w) }
    {
        let Some(at) = node_place(&self.nodes, n) else {
            return;
        };
        self.nodes[at].power_off(self.alloc, out);
    }

    /// A node stops, and the crash leaves this of its disks; its lines are told.
    fn power_off(
        &mut self,
        n: u8,
        out: Outcome,
        also: Option<u32>,
        events: &mut Listed<Event>,
    ) -> Alloc<()>
        ensures { OnOk result ((w : PlainWorld) → WorldStands self.old w →
            WorldStands self.new (dropped n out w) × (events.new ≡ events.old ++ down_lines n also w)) }
    {
        self.tell_ends(n, also, events)?;
        self.tell_closed(n, events)?;
        self.cut_links_of(n)?;
        self.drop_node(n, out);
        Ok(())
    }

    /// A node stopped inside a line.
    fn stop(&mut self, n: u8, out: Outcome, also: Option<u32>, mut told: Told) -> Alloc<Told>
        ensures { IfOk result (λ came. (w : PlainWorld) → WorldStands self.old w →
            WorldStands self.new (dropped n out w) × (came ≡ record { events = told.events ++ NodeStopped n ∷ down_lines n also w; answer = No Stopped })) }
    {
        told.events.push(Event::NodeStopped { node: n })?;
        self.power_off(n, out, also, &mut told.events)?;
        told.answer = Answer::No(Cause::Stopped);
        Ok(told)
    }

    /// The arm that a node had before a line befell it there, or not.
    pub(crate) fn meet_arm(&mut self, n: u8, arm: Arm, told: Told) -> Alloc<Told>
        ensures { IfOk result (λ came. (w : PlainWorld) → WorldStands self.old w →
            let met = after_fire n arm.out (fired_by arm.fuse (arm_in (w.nodes n)).fuse) (w, told) in WorldStands self.new met.0 × (came ≡ met.1)) }
    {
        match self.fired(n, arm) {
            Fired::No => Ok(told),
            Fired::Failed => with_line(told, Event::CallFailed { node: n }),
            Fired::Stopped => self.stop(n, arm.out, None, told),
        }
    }

    /// A rollback of a link could not be written down: its journal was closed before, or the arm that
    /// its node had befell it.
    pub(crate) fn meet_broken(&mut self, n: u8, link: u32, arm: Arm, told: Told) -> Alloc<Told>
        ensures { IfOk result (λ came. (w : PlainWorld) → WorldStands self.old w →
            let met = after_broken n link arm.out (fired_by arm.fuse (arm_in (w.nodes n)).fuse) (w, told) in WorldStands self.new met.0 × (came ≡ met.1)) }
    {
        match self.fired(n, arm) {
            Fired::No => disk_ended(told, link, Answer::No(Cause::Closed)),
            Fired::Failed => {
                let failed = with_line(told, Event::CallFailed { node: n })?;
                disk_ended(failed, link, Answer::No(Cause::Disk))
            }
            Fired::Stopped => self.stop(n, arm.out, Some(link), told),
        }
    }

    /// A node stops.
    pub(crate) fn crash(&mut self, n: u8, out: Outcome) -> Alloc<Told>
        ensures { IfOk result (λ told. (w : PlainWorld) → WorldStands self.old w →
            WorldStands self.new (crash_step w n out).0 × (told ≡ (crash_step w n out).1)) }
    {
        let Some(at) = node_place(&self.nodes, n) else {
            return Ok(Told::refusal(self.alloc, Cause::UnknownNode));
        };
        let up = self.nodes[at].is_up();
        if !up {
            return Ok(Told::refusal(self.alloc, Cause::NodeDown));
        }
        let mut told = Told::done(Listed::new(self.alloc));
        self.power_off(n, out, None, &mut told.events)?;
        Ok(told)
    }

    /// A node that is down starts: why its disks are not touched, or what starting it comes to.
    pub(crate) fn start(&mut self, n: u8, uuids: &[u64]) -> Alloc<Told>
        ensures { IfOk result (λ told. (w : PlainWorld) → WorldStands self.old w →
            WorldStands self.new (start_step w n uuids.now).0 × (told ≡ (start_step w n uuids.now).1)) }
    {
        let Some(at) = node_place(&self.nodes, n) else {
            return Ok(Told::refusal(self.alloc, Cause::UnknownNode));
        };
        let up = self.nodes[at].is_up();
        if up {
            return Ok(Told::refusal(self.alloc, Cause::NodeUp));
        }
        let zero = uuids.contains(&0);
        if zero {
            return Ok(Told::refusal(self.alloc, Cause::UuidZero));
        }
        let used = self.ids.any_used(uuids);
        if used {
            return Ok(Told::refusal(self.alloc, Cause::UuidUsed));
        }
        self.nodes[at].start(self.alloc, uuids)
    }
}
