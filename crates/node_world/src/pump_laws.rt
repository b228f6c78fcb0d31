//! What a pump gives up before it puts frames. The law is a function with no work to do.
ghost use Rattle.std.specs.Prelude.{◌≡◌, ℕ, Some};
ghost use Rattle.node_world.specs.GivesFirst.{GivesFirst, GivesNothing, PutsAlone};
ghost use Rattle.node_world.specs.Links.{PlainLink, link_number, producer_node};
ghost use Rattle.node_world.specs.Nodes.{PlainNode};
ghost use Rattle.node_world.specs.World.{verb_step};
ghost use Rattle.node_world.specs.Worlds.{PlainWorld};
ghost use Rattle.script_text.specs.declared.verb.LinkVerb.TheVariants as link_verb;
ghost use Rattle.script_text.specs.declared.verb.Verb.TheVariants as verb;
ghost use Rattle.vbucket.specs.Rows.{row_at};

/// A pump gives up first, then tells who waits, and then puts frames. Each vBucket that was given up is told
/// dead by one line; each connection of the node, of links and of clients, loses the streams that its reply
/// named; and what became of durable writes there is posted behind all of these lines, before a frame is put.
/// Where no frame is asked for, the window is shut or no stream is due, nothing is given up: the pump puts
/// its frames behind what is on its way, and that is all.
pub fn pumps_give_up_first()
    ensures first { (w : PlainWorld) (number l frames : ℕ) (link : PlainLink) (producer : PlainNode) → row_at link_number l w.links ≡ Some link → w.nodes (producer_node link) ≡ Some producer
        → GivesFirst w link producer frames (verb_step w number (verb.AtLink l (link_verb.Pump frames))) }
    ensures alone { (w : PlainWorld) (number l frames : ℕ) (link : PlainLink) (producer : PlainNode) → row_at link_number l w.links ≡ Some link → w.nodes (producer_node link) ≡ Some producer → GivesNothing frames link
        → PutsAlone w link producer frames (verb_step w number (verb.AtLink l (link_verb.Pump frames))) }
{}
