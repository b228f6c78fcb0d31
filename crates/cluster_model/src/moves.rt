//! What may happen keeps a cluster sound.
ghost use Rattle.std.specs.Prelude.{◌≡◌, ◌∷◌, ℕ, List, []};
ghost use Rattle.{branch_model.specs.Trees.{hist}, cluster_model.specs.Clusters.{Cluster, Move, May, MayAll, Settled, SoundCluster, ground, happens, member_reach, run, start}};
ghost use Rattle.{cluster_model.specs.Rehearsal.{one, two, three, four, early, later, last, back, handed}, vb_types.specs.Histories.{upto}};

/// A cluster is sound as it starts, and each move that may happen keeps it sound, so every run does.
/// What nobody writes on any more stays so, with its changes.
pub fn moves_made()
    ensures start { (top : ℕ) → SoundCluster top start }
    ensures one { (w : Cluster) (m : Move) (top : ℕ) → SoundCluster top w → May top w m → SoundCluster top (happens w m) }
    ensures all { (w : Cluster) (ms : List Move) (top : ℕ) → SoundCluster top w → MayAll top w ms → SoundCluster top (run w ms) }
    ensures settled { (w : Cluster) (m : Move) (top u n : ℕ) → SoundCluster top w → May top w m → Settled (ground w) u n → Settled (ground (happens w m)) u n × (upto (hist (happens w m).tree u) n ≡ upto (hist w.tree u) n) }
{}

/// Some runs may happen. A replica is promoted inside a snapshot, and begins its branch with the one
/// change that it had received. Its span is written down after that and after an own change, by an
/// append that is broken off; a crash finds it, so the node comes back inside the snapshot on its own
/// branch, and makes another one. Or it is written down at once, and the node comes back at a position that
/// means to reach beyond all that its branch has. Or the producer gives its branch up, and the replica
/// goes on with it.
pub fn run_rehearsed()
    ensures early { MayAll 100 start early }
    ensures later { MayAll 100 (run start early) later }
    ensures branch { hist (run (run start early) later).tree 6 ≡ two ∷ [] }
    ensures last { MayAll 100 (run (run start early) later) last }
    ensures again { hist (run (run (run start early) later) last).tree 7 ≡ two ∷ [] }
    ensures back { MayAll 100 (run (run start early) later) back }
    ensures beyond { Settled (ground (run (run (run start early) later) back)) 6 (member_reach ((run (run (run start early) later) back).nodes 2)) → ⊥ }
    ensures handed { MayAll 100 (run start early) handed }
    ensures taken_over { hist (run (run start early) handed).tree 5 ≡ one ∷ two ∷ three ∷ four ∷ [] }
{}
