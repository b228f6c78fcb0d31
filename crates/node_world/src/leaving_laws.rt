//! What a line leaves behind it: ids, disks, counts, links and connections. Each law is a function with
//! no work to do.
ghost use Rattle.std.specs.Prelude.{◌≡◌, Bool, ℕ, List, None, Some};
ghost use Rattle.client_session.specs.declared.session.Awaited.{Awaited as AwaitedData};
ghost use Rattle.node_core.specs.Clients.{PlainClient};
ghost use Rattle.disk_journals.specs.Books.{Book as BookData};
ghost use Rattle.node_world.specs.FramesUp.{PassesFaults, PostsBetween, ServesBehind};
ghost use Rattle.node_world.specs.GivenIds.{GivesByLines, GivesNone};
ghost use Rattle.node_world.specs.Leavings.{CrashesOne, CutsOne, DialsQuietly, EndsOnceOver, LetsClosedGo};
ghost use Rattle.node_world.specs.Links.{PlainLink, consumer_node, link_number, producer_node};
ghost use Rattle.node_world.specs.MadeOnes.{MakesAnyway};
ghost use Rattle.node_world.specs.Nodes.{PlainNode};
ghost use Rattle.node_world.specs.StartsRefused.{LeavesDisks};
ghost use Rattle.node_world.specs.Worlds.{PlainWorld};
ghost use Rattle.script_text.specs.declared.verb.ScriptLine.{ScriptLine as ScriptLineData};
ghost use Rattle.vb_calls.specs.declared.calls.Resolved.{Resolved as Outcome};
ghost use Rattle.vb_disk.specs.declared.made.Outcome.{Outcome as LeftData};
ghost use Rattle.vbucket.specs.Rows.{row_at};

/// Behind a line the id of a branch counts as given exactly where it did before, or the line's group
/// tells of a branch of it. At first none does.
pub fn ids_are_given_by_lines()
    ensures lines { (w : PlainWorld) (line : ScriptLineData) → GivesByLines w line }
    ensures none { GivesNone }
{}

/// A start that has too few ids, or whose disks can't be opened, leaves the node down, with its disks as
/// they were and in their order. Any start leaves the other nodes and the links.
pub fn refused_starts_leave_disks()
    ensures { (w : PlainWorld) (n : ℕ) (node : PlainNode) (books : List BookData) → w.nodes n ≡ Some node → node.off ≡ Some books → LeavesDisks w n node books }
{}

/// A vBucket that no cause refuses to make is there, and its node counts one more, also where its first
/// record could not be appended, unless the node stopped.
pub fn made_ones_are_there()
    ensures { (w : PlainWorld) (n : ℕ) (node : PlainNode) → w.nodes n ≡ Some node → node.off ≡ None → MakesAnyway w n node }
{}

/// What became of durable writes is posted before the next frame of the same bytes is answered. A write
/// that stood behind the one that was awaited is made then, at the node's clock.
pub fn outcomes_come_first()
    ensures ups { (w : PlainWorld) (l : ℕ) (link : PlainLink) (producer : PlainNode) → row_at link_number l w.links ≡ Some link → w.nodes (producer_node link) ≡ Some producer → PostsBetween w l link producer }
    ensures clock { (r : Outcome) (c : ℕ) (client : PlainClient) (a : AwaitedData) (node : PlainNode) → ServesBehind r c client a node }
{}

/// Behind bytes that begin no frame a producer answers nothing: nothing is told, its node stays as it
/// was, and nothing goes down.
pub fn faults_are_passed()
    ensures { (w : PlainWorld) (l : ℕ) (link : PlainLink) (producer : PlainNode) → row_at link_number l w.links ≡ Some link → w.nodes (producer_node link) ≡ Some producer → PassesFaults w l link producer }
{}

/// A link is let go by `down` exactly where its dial is over then. `cut` tells of its own link's end and
/// takes out that link alone; and a dial tells nothing.
pub fn links_go_once_over()
    ensures downs { (w : PlainWorld) (l : ℕ) (link : PlainLink) (node : PlainNode) → row_at link_number l w.links ≡ Some link → w.nodes (consumer_node link) ≡ Some node → EndsOnceOver w l link node }
    ensures cuts { (w : PlainWorld) (l : ℕ) (link : PlainLink) → row_at link_number l w.links ≡ Some link → CutsOne w l link }
    ensures dials { (w : PlainWorld) (l m n v buffer : ℕ) (takeover : Bool) → DialsQuietly w l m n v buffer takeover }
{}

/// A connection that its bytes closed, or an outcome, is no client's any more: where no connection of a
/// node is closed, none is behind a line for a client, nor behind outcomes. A crash leaves the
/// connections of other nodes, their clocks, disks, arms and counts.
pub fn closed_connections_are_gone()
    ensures clients { (w : PlainWorld) (n : ℕ) (node : PlainNode) → w.nodes n ≡ Some node → node.off ≡ None → LetsClosedGo w n node }
    ensures crashes { (w : PlainWorld) (n : ℕ) (out : LeftData) → CrashesOne w n out }
{}
