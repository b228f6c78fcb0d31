//! What clients get whom streams feed. Each law is a function with no work to do.
ghost use Rattle.std.specs.Prelude.{◌≡◌, ℕ, List, None, Some};
ghost use Rattle.mcbp_frame.specs.declared.frame.Frame.{Frame as Framed};
ghost use Rattle.node_core.specs.Clients.{PlainClient};
ghost use Rattle.node_world.specs.Indexers.{AnswersInOrder, AsksDcp, BeginsWith, ClientsTurn, HangsUp, PullsFrames};
ghost use Rattle.node_world.specs.Nodes.{PlainNode};
ghost use Rattle.node_world.specs.Worlds.{PlainWorld};
ghost use Rattle.vb_calls.specs.State.{Plain};

/// `pull` is told as the connection's frames, each directly behind its own line, and answered by their
/// number and why there are no more. A client's requests of DCP are answered by its producer in the order
/// of its bytes. A change of role at a vBucket ends the streams of that vBucket of each client of its
/// node, and no other streams; and `hang` closes all streams of the connection at their vBuckets.
pub fn clients_are_served()
    ensures pulls { (w : PlainWorld) (n c : ℕ) (node : PlainNode) (client : PlainClient) → w.nodes n ≡ Some node → node.off ≡ None → node.clients c ≡ Some client → PullsFrames w n c client node }
    ensures asks { (w : PlainWorld) (n c : ℕ) (node : PlainNode) (client : PlainClient) (bytes : List ℕ) (f : Framed) → w.nodes n ≡ Some node → node.off ≡ None → node.clients c ≡ Some client
        → BeginsWith client.session bytes f → AsksDcp f → AnswersInOrder w n c node client bytes f }
    ensures turns { (w : PlainWorld) (n v : ℕ) (node : PlainNode) (vb : Plain) → w.nodes n ≡ Some node → node.off ≡ None → node.vbs v ≡ Some vb → ClientsTurn w n v node vb }
    ensures hangs { (w : PlainWorld) (n c : ℕ) (node : PlainNode) (client : PlainClient) → w.nodes n ≡ Some node → node.off ≡ None → node.clients c ≡ Some client → HangsUp w n c client node }
{}
