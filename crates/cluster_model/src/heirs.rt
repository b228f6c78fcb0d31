//! Who may come to write on a branch.
ghost use Rattle.std.specs.Prelude.{◌≡◌, ◌⊎◌, ℕ, true, List};
ghost use Rattle.cluster_model.specs.Clusters.{Cluster, Move, May, MayAll, HasRight, Writes, Settled, SoundCluster, ground, happens, run};

/// A branch that is there gets another writer only where its writer gives it up for him. Where the
/// consumer that it was given up for is cut off before it took over, nobody may write on it; and
/// where nobody may, nobody ever does.
pub fn branch_handed_over()
    ensures heir { (w : Cluster) (m : Move) (top j u : ℕ) → SoundCluster top w → May top w m → Settled (ground w) u 0 → Writes u ((happens w m).nodes j) → Writes u (w.nodes j) ⊎ ((p : ℕ) × (m ≡ Move.Cede j p) × ((w.nodes p).active ≡ true) × ((w.nodes p).br ≡ u)) }
    ensures cut { (w : Cluster) (top j k u : ℕ) → SoundCluster top w → May top w (Move.Cut k) → HasRight u (w.nodes k).link → Writes u ((happens w (Move.Cut k)).nodes j) → ⊥ }
    ensures lost { (w : Cluster) (ms : List Move) (top j u : ℕ) → SoundCluster top w → MayAll top w ms → Settled (ground w) u 0 → ((i : ℕ) → Writes u (w.nodes i) → ⊥) → Writes u ((run w ms).nodes j) → ⊥ }
{}
