//! What the nodes of a sound cluster hold of their branches, and what may be sent of it.
ghost use Rattle.std.specs.Prelude.{◌≡◌, ◌≤◌, ◌⊎◌, ◌∷◌, ℕ, nat_lt, option_map, List, []};
ghost use Rattle.{std.specs.List.{filter}, branch_model.specs.Histories.{IsOf}, branch_model.specs.Journals.{IsPoint, batches, complete_points, end_of, items_of}};
ghost use Rattle.{branch_model.specs.Snapshots.{Covers, IsComplete, Remains}, branch_model.specs.Trees.{hist}};
ghost use Rattle.{cluster_model.specs.Clusters.{Cluster, HasAll, SoundCluster, member_fork}, vb_types.specs.Histories.{upto, IsIn, Slot, last_of, plain}};
ghost use Rattle.{cluster_model.specs.Rehearsal.{one, two, three}, vb_types.specs.Images.{image_of}, vb_types.specs.declared.change.Change.{Change}};

/// All that a node holds is of its branch. Up to where it would leave the branch, up to each complete
/// point of its journal, and now where its position is complete, the last change of each key, and what
/// is pending of it, are those of the branch, and there is none of a key that the branch does not have:
/// so it is also known of each removal and of each abort, which no image tells.
pub fn branch_held()
    ensures only { (w : Cluster) (c : Change) (top k : ℕ) → SoundCluster top w → IsIn c (w.nodes k).held → IsOf (hist w.tree (w.nodes k).br) c }
    ensures fork { (w : Cluster) (slot : Slot) (top k : ℕ) → SoundCluster top w → option_map plain (last_of slot (upto (w.nodes k).held (member_fork (w.nodes k)))) ≡ option_map plain (last_of slot (upto (hist w.tree (w.nodes k).br) (member_fork (w.nodes k)))) }
    ensures points { (w : Cluster) (slot : Slot) (top k p : ℕ) → SoundCluster top w → IsPoint p (complete_points (w.disks k).book) → option_map plain (last_of slot (upto (w.nodes k).held p)) ≡ option_map plain (last_of slot (upto (hist w.tree (w.nodes k).br) p)) }
    ensures complete { (w : Cluster) (slot : Slot) (top k : ℕ) → SoundCluster top w → IsComplete (w.nodes k).position → option_map plain (last_of slot (w.nodes k).held) ≡ option_map plain (last_of slot (upto (hist w.tree (w.nodes k).br) (w.nodes k).position.at)) }
{}

/// What is held of a branch that removes a key twice. The last removal is enough; without it the branch
/// is not held, though no document tells so; nor is it with a change that is not the branch's.
pub fn held_in_rows()
    ensures enough { HasAll (one ∷ two ∷ three ∷ []) (two ∷ three ∷ []) 3 }
    ensures less { ((image_of []).docs ≡ (image_of (one ∷ two ∷ [])).docs) × (HasAll (one ∷ two ∷ []) [] 2 → ⊥) }
    ensures other { HasAll (two ∷ []) (one ∷ two ∷ []) 2 → ⊥ }
{}

/// A whole snapshot of what a node holds, from any place and up to such a seqno, is one of its branch;
/// and so is what the batches of its journal keep above a place, where the last one ends there.
pub fn branch_sent()
    ensures held { (w : Cluster) (items : List Change) (top k from end : ℕ) → SoundCluster top w → IsPoint end (complete_points (w.disks k).book) ⊎ (end ≡ member_fork (w.nodes k)) → Covers items (w.nodes k).held from end → Covers items (hist w.tree (w.nodes k).br) from end }
    ensures journal { (w : Cluster) (top k place : ℕ) → SoundCluster top w → IsPoint (end_of (batches (w.disks k).book)) (complete_points (w.disks k).book) ⊎ (end_of (batches (w.disks k).book) ≡ member_fork (w.nodes k)) → place ≤ end_of (batches (w.disks k).book) →
        Remains (filter (λ x. nat_lt place x.seq) (items_of (batches (w.disks k).book))) (hist w.tree (w.nodes k).br) place (end_of (batches (w.disks k).book)) }
{}
