//! Lines for links, at the nodes that keep their ends.
ghost use Rattle.std.specs.Prelude.{◌≡◌, ◌==◌, false, IfOk};
ghost use Rattle.{std.specs.List.{position}, node_world.specs.Ends.{LinkStep, Unlinks}, node_world.specs.Stands.{node_number}};
ghost use Rattle.script_text.specs.declared.verb.LinkVerb.TheVariants.{Up, Down, Pump, Drop, Cut};

use crate::link::moved_len;
use crate::{Alloc, Link, ScriptNode, Told};
use script_text::LinkVerb;
use std::alloc::Global;
use vb_events::Cause;

/// What is told of a line for a link, and whether the link is over.
#[derive(Drop)]
pub struct LinkCame {
    pub told: Told,
    pub over: bool,
}

impl LinkCame {
    /// The link goes on.
    fn on(told: Told) -> LinkCame
        ensures told { result.told ≡ told }
        ensures over { result.over ≡ false }
    {
        LinkCame { told, over: false }
    }
}

/// Where the node of a number stands, if it is made.
pub fn node_place(nodes: &[ScriptNode], n: u8) -> Option<usize>
    ensures { result ≡ position (λ node. node_number node == n) nodes.now }
{
    nodes.iter().position(|node| node.node.number() == n)
}

/// Gives the producer of a link the next bytes that its consumer wrote.
fn up(alloc: Global, nodes: &mut [ScriptNode], link: &mut Link, wanted: u64) -> Alloc<LinkCame>
    ensures { IfOk result (λ came. LinkStep (Up wanted) nodes.old link.old came.told came.over nodes.new link.new) }
{
    let Some(at) = node_place(nodes, link.producer) else {
        return Ok(LinkCame::on(Told::refusal(alloc, Cause::UnknownNode)));
    };
    let n = moved_len(wanted, &link.up);
    let out = nodes[at].feed_peer(alloc, link.conn, link.up.front(n))?;
    link.up.advance(n);
    link.down.push(out.out.as_slice())?;
    Ok(LinkCame::on(Told::moved(n, out.events)))
}

/// Gives the consumer of a link the next bytes that its producer wrote.
fn down(alloc: Global, nodes: &mut [ScriptNode], link: &mut Link, wanted: u64) -> Alloc<LinkCame>
    ensures { IfOk result (λ came. LinkStep (Down wanted) nodes.old link.old came.told came.over nodes.new link.new) }
{
    let Some(at) = node_place(nodes, link.node) else {
        return Ok(LinkCame::on(Told::refusal(alloc, Cause::UnknownNode)));
    };
    let n = moved_len(wanted, &link.down);
    let out = nodes[at].feed_dial(link.vb, link.down.front(n))?;
    link.down.advance(n);
    link.up.push(out.out.as_slice())?;
    Ok(LinkCame {
        over: out.closed,
        told: Told::moved_if(n, out),
    })
}

/// Has the producer of a link put frames of its streams.
fn pump(alloc: Global, nodes: &mut [ScriptNode], link: &mut Link, frames: u32) -> Alloc<LinkCame>
    ensures { IfOk result (λ came. LinkStep (Pump frames) nodes.old link.old came.told came.over nodes.new link.new) }
{
    let Some(at) = node_place(nodes, link.producer) else {
        return Ok(LinkCame::on(Told::refusal(alloc, Cause::UnknownNode)));
    };
    let out = nodes[at].pull(link.conn, frames)?;
    link.down.push(out.out.as_slice())?;
    Ok(LinkCame::on(Told::of(out)))
}

/// Takes the cursor of a link's stream away, at its producer.
fn drop_cursor(alloc: Global, nodes: &mut [ScriptNode], link: &Link) -> LinkCame
    ensures { LinkStep Drop nodes.old link.now result.told result.over nodes.new link.now }
{
    let Some(at) = node_place(nodes, link.producer) else {
        return LinkCame::on(Told::refusal(alloc, Cause::UnknownNode));
    };
    let out = nodes[at].drop_peer(link.conn, link.vb);
    LinkCame::on(Told::of(out))
}

/// Cuts a link at its consumer.
fn cut(alloc: Global, nodes: &mut [ScriptNode], link: &mut Link) -> Alloc<LinkCame>
    ensures { IfOk result (λ came. LinkStep Cut nodes.old link.old came.told came.over nodes.new link.new) }
{
    let Some(at) = node_place(nodes, link.node) else {
        return Ok(LinkCame::on(Told::refusal(alloc, Cause::UnknownNode)));
    };
    let out = nodes[at].cut_dial(link.vb)?;
    Ok(LinkCame {
        told: Told::of(out),
        over: true,
    })
}

/// Carries out a line for a link. Where the link is over then, its dial is let go.
pub fn link_line(
    alloc: Global,
    nodes: &mut [ScriptNode],
    link: &mut Link,
    line: LinkVerb,
) -> Alloc<LinkCame>
    ensures { IfOk result (λ came. LinkStep line nodes.old link.old came.told came.over nodes.new link.new) }
{
    match line {
        LinkVerb::Up { bytes } => up(alloc, nodes, link, bytes),
        LinkVerb::Down { bytes } => down(alloc, nodes, link, bytes),
        LinkVerb::Pump { frames } => pump(alloc, nodes, link, frames),
        LinkVerb::Drop => Ok(drop_cursor(alloc, nodes, link)),
        LinkVerb::Cut => cut(alloc, nodes, link),
    }
}

/// Closes the connection of a link that is over at its producer's node.
pub fn shut(nodes: &mut [ScriptNode], link: &Link)
    ensures { Unlinks link.now nodes.old nodes.new }
{
    if let Some(at) = node_place(nodes, link.producer) {
        nodes[at].shut_peer(link.conn);
    }
}
