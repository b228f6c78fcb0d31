//! What holds in a sound cluster.
ghost use Rattle.std.specs.Prelude.{◌≡◌, ◌<◌, ◌≤◌, ℕ, true, Bool, Some};
ghost use Rattle.{branch_model.specs.Journals.{IsPoint, complete_points, image_at, place_of}, branch_model.specs.Logs.{Ancestry, IsFront, entry_for}};
ghost use Rattle.{branch_model.specs.Requests.{rule, effective_se}, branch_model.specs.Snapshots.{Follows, IsComplete}, branch_model.specs.Trees.{Branch, hist, Shared}};
ghost use Rattle.branch_model.specs.Journals.{found};
ghost use Rattle.{cluster_model.specs.Clusters.{Cluster, Settled, SoundCluster, IsBranch, above, ground, loaded, member_reach}, vb_types.specs.Histories.{upto}};
ghost use Rattle.{vb_types.specs.Images.{image_of}, vb_types.specs.declared.role.LogEntry.{LogEntry}, vb_types.specs.declared.stream.StreamAsk.{StreamAsk}};
ghost use Rattle.vb_types.specs.declared.stream.Verdict.TheVariants.{Continue, Roll};

/// A node with a whole snapshot shows its branch's documents; every node follows its branch, and its
/// log tells where that comes from.
pub fn node_shown()
    ensures complete { (w : Cluster) (top k : ℕ) → SoundCluster top w → IsComplete (w.nodes k).position → image_of (w.nodes k).held ≡ image_of (upto (hist w.tree (w.nodes k).br) (w.nodes k).position.at) }
    ensures named { (w : Cluster) (e : LogEntry) (top k : ℕ) → SoundCluster top w → entry_for (w.nodes k).position.at (w.nodes k).log ≡ Some e → Shared w.tree e.uuid (w.nodes k).br (w.nodes k).position.at }
    ensures follows { (w : Cluster) (top k : ℕ) → SoundCluster top w → Follows (hist w.tree (w.nodes k).br) (w.nodes k).position (above (w.nodes k).held (w.nodes k).position.ss) (image_of (w.nodes k).held) }
    ensures log { (w : Cluster) (top k : ℕ) → SoundCluster top w → Ancestry w.tree (w.nodes k).log (w.nodes k).br (member_reach (w.nodes k)) }
{}

/// At each complete point a node's journal tells the image of the node's branch. What a crash finds,
/// with the record whose append was broken off or without, tells the image of what was held up to its
/// last point.
pub fn journal_told()
    ensures points { (w : Cluster) (top k p : ℕ) → SoundCluster top w → IsPoint p (complete_points (w.disks k).book) → image_at (w.disks k).book p ≡ image_of (upto (hist w.tree (w.nodes k).br) p) }
    ensures crash { (w : Cluster) (stood : Bool) (top k : ℕ) → SoundCluster top w → image_at (found (w.disks k).book (w.disks k).late stood) (place_of (found (w.disks k).book (w.disks k).late stood)).at ≡ image_of (loaded (w.nodes k).br (w.nodes k).held (found (w.disks k).book (w.disks k).late stood)).held }
{}

/// An active node's log has its branch in front, nobody else writes on that branch, and no branch
/// was made from it above its last seqno; what its log says of requests is worth what it should be.
/// Nobody writes on any branch at or below a fork that was made from it.
pub fn active_node()
    ensures front { (w : Cluster) (top k : ℕ) → SoundCluster top w → (w.nodes k).active ≡ true → IsFront (w.nodes k).log (w.nodes k).br }
    ensures alone { (w : Cluster) (top j k : ℕ) → SoundCluster top w → (w.nodes j).active ≡ true → (w.nodes k).active ≡ true → (w.nodes j).br ≡ (w.nodes k).br → j ≡ k }
    ensures forks { (w : Cluster) (b : Branch) (top k : ℕ) → SoundCluster top w → (w.nodes k).active ≡ true → IsBranch b w.tree → b.parent ≡ Some (w.nodes k).br → b.fork ≤ (w.nodes k).position.at }
    ensures settled { (w : Cluster) (b : Branch) (top u : ℕ) → SoundCluster top w → IsBranch b w.tree → b.parent ≡ Some u → Settled (ground w) u b.fork }
    ensures continues { (w : Cluster) (ask : StreamAsk) (top k : ℕ) → SoundCluster top w → (w.nodes k).active ≡ true → 0 < ask.start → rule (w.nodes k).log (w.nodes k).position.at ask ≡ Continue → Shared w.tree ask.uuid (w.nodes k).br (effective_se ask.start ask.ss ask.se) }
    ensures rolls { (w : Cluster) (ask : StreamAsk) (top k r : ℕ) → SoundCluster top w → (w.nodes k).active ≡ true → 0 < r → rule (w.nodes k).log (w.nodes k).position.at ask ≡ Roll r → Shared w.tree ask.uuid (w.nodes k).br r }
{}
