//! What a line owes, and which call with which arguments it is. Each law is a function with no work
//! to do.
ghost use Rattle.std.specs.Prelude.{◌≡◌, ℕ, List, None, Some};
ghost use Rattle.node_core.specs.Clients.{PlainClient};
ghost use Rattle.disk_journals.specs.Books.{Book as BookData};
ghost use Rattle.mcbp_frame.specs.declared.frame.Frame.{Frame as Framed};
ghost use Rattle.node_world.specs.Arguments.{PassesArms, PassesClients, PassesDials, PassesVbs};
ghost use Rattle.node_world.specs.BytesMoved.{BytesMoved};
ghost use Rattle.node_world.specs.CallsMade.{CallsMade};
ghost use Rattle.node_world.specs.Clocked.{Clocked, IsOne};
ghost use Rattle.node_world.specs.Counted.{Counted};
ghost use Rattle.node_world.specs.CursorsDropped.{DropsCursor};
ghost use Rattle.node_world.specs.Links.{PlainLink, consumer_node, link_number, producer_node};
ghost use Rattle.node_world.specs.Nodes.{PlainNode};
ghost use Rattle.node_world.specs.OutcomesTold.{EndsTold, OutcomesTold, PumpsTell, RolesTold, UpsTell};
ghost use Rattle.node_world.specs.Owed.{AcknowledgesDue, batch_done};
ghost use Rattle.node_world.specs.StartIds.{TakesIds};
ghost use Rattle.node_world.specs.World.{verb_step};
ghost use Rattle.node_world.specs.Worlds.{PlainWorld};
ghost use Rattle.script_text.specs.declared.verb.Verb.TheVariants as verb;
ghost use Rattle.script_text.specs.declared.verb.VbVerb.TheVariants as vb_verb;
ghost use Rattle.vb_calls.specs.State.{Plain};
ghost use Rattle.vbucket.specs.Rows.{row_at};

/// Behind a batch that is done the link that feeds its vBucket acknowledges what that may acknowledge,
/// where its stream is granted and it acknowledged less before; that is told as the last line, and
/// goes up. Where nothing is due, nothing is told of it.
pub fn dones_acknowledge()
    ensures { (w : PlainWorld) (number n v : ℕ) → AcknowledgesDue n v (batch_done w n v) (verb_step w number (verb.AtVb n v vb_verb.Done)) }
{}

/// A line that asks a vBucket of a running node alone is one call of it: the chain that it names with
/// the node itself as the active one, the node's clock, and so on; and its lines are those of the reply,
/// with what came of telling the clients that wait behind them.
pub fn lines_are_calls()
    ensures { (w : PlainWorld) (n v : ℕ) (node : PlainNode) (vb : Plain) → w.nodes n ≡ Some node → node.off ≡ None → node.vbs v ≡ Some vb → CallsMade w n v node vb }
{}

/// A line that makes, opens, dials or arms does so with just what it says: a connection is opened under its
/// numbers, a vBucket is made in its role and on its branch, a link is dialed between its nodes, to follow or
/// to take over, and a node is armed for that call.
pub fn lines_pass_their_arguments()
    ensures clients { (w : PlainWorld) (n : ℕ) (node : PlainNode) → w.nodes n ≡ Some node → node.off ≡ None → PassesClients w n node }
    ensures arms { (w : PlainWorld) (n : ℕ) (node : PlainNode) → w.nodes n ≡ Some node → PassesArms w n node }
    ensures vbs { (w : PlainWorld) (n : ℕ) (node : PlainNode) → w.nodes n ≡ Some node → node.off ≡ None → PassesVbs w n node }
    ensures dials { (w : PlainWorld) (n v : ℕ) (node : PlainNode) (vb : Plain) → w.nodes n ≡ Some node → node.vbs v ≡ Some vb → PassesDials w n v node vb }
{}

/// A change of role tells of the role that its line names, and a promotion first of the branch of the id
/// that it names, behind the end of the vBucket's own link, if it has one; and each producer of the node
/// is told which streams ended.
pub fn roles_are_as_named()
    ensures lines { (w : PlainWorld) (n v : ℕ) (node : PlainNode) (vb : Plain) → w.nodes n ≡ Some node → node.off ≡ None → node.vbs v ≡ Some vb → RolesTold w n v vb }
    ensures ends { (w : PlainWorld) (n v : ℕ) (node : PlainNode) (vb : Plain) → w.nodes n ≡ Some node → node.off ≡ None → node.vbs v ≡ Some vb → EndsTold w n v vb }
{}

/// What a line settles is told to the client that waits: behind the changes of a chain, of a tick and of
/// a batch that is done, behind a change of role, behind what the producer told of a frame that went up,
/// and behind the vBuckets that a pump gave up.
pub fn settled_ones_are_told()
    ensures lines { (w : PlainWorld) (n v : ℕ) (node : PlainNode) (vb : Plain) → w.nodes n ≡ Some node → node.off ≡ None → node.vbs v ≡ Some vb → OutcomesTold w n v node vb }
    ensures ups { (w : PlainWorld) (l : ℕ) (link : PlainLink) (producer : PlainNode) → row_at link_number l w.links ≡ Some link → w.nodes (producer_node link) ≡ Some producer → UpsTell w l link producer }
    ensures pumps { (w : PlainWorld) (l : ℕ) (link : PlainLink) (producer : PlainNode) → row_at link_number l w.links ≡ Some link → w.nodes (producer_node link) ≡ Some producer → PumpsTell w l link producer }
{}

/// `up` and `down` move all bytes that are wanted, or all that there are where these are fewer, and
/// are answered by their number.
pub fn bytes_move_as_asked()
    ensures { (w : PlainWorld) (l : ℕ) (link : PlainLink) (producer node : PlainNode) → row_at link_number l w.links ≡ Some link → w.nodes (producer_node link) ≡ Some producer → w.nodes (consumer_node link) ≡ Some node
        → BytesMoved w l link producer node }
{}

/// `drop` takes the cursor away of the stream that feeds the link's vBucket, at its producer's node, and
/// of no other. It is answered by 1 where there was one, and by 0 where there was none, or no such stream.
pub fn cursors_are_dropped_as_named()
    ensures { (w : PlainWorld) (l : ℕ) (link : PlainLink) (producer : PlainNode) → row_at link_number l w.links ≡ Some link → w.nodes (producer_node link) ≡ Some producer → DropsCursor w l link producer }
{}

/// A write of a client is made at its node's clock, and a durable one is given up by it.
pub fn writes_are_clocked()
    ensures { (w : PlainWorld) (n c : ℕ) (node : PlainNode) (client : PlainClient) (bytes : List ℕ) (f : Framed) (vb : Plain) → w.nodes n ≡ Some node → node.off ≡ None → node.clients c ≡ Some client → IsOne client.session bytes f
        → node.vbs f.vb_or_status ≡ Some vb → Clocked w n c node client bytes f vb }
{}

/// A node that started counts the vBuckets that there are: those of which a record stands. Of these the
/// ones that were active take the ids of the line in their order, and nothing else is told.
pub fn starts_count()
    ensures ids { (w : PlainWorld) (n : ℕ) (node : PlainNode) (books : List BookData) → w.nodes n ≡ Some node → node.off ≡ Some books → TakesIds w n books }
    ensures counts { (w : PlainWorld) (n : ℕ) (node : PlainNode) (books : List BookData) → w.nodes n ≡ Some node → node.off ≡ Some books → Counted w n books }
{}
