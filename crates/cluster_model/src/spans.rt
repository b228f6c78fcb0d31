//! What spans of a history give to a stream and to a journal.
ghost use Rattle.std.specs.Prelude.{◌≡◌, ◌<◌, ◌≤◌, ℕ, nat_lt, List};
ghost use Rattle.{std.specs.List.{filter}, branch_model.specs.Journals.{Covered, end_of, items_of}, branch_model.specs.Snapshots.{Covers, Remains}};
ghost use Rattle.{cluster_model.specs.Spans.{Holds, InTurn, Tidy, kept, taken}, vb_types.specs.Histories.{upto, Rises, IsIn}, vb_types.specs.declared.change.Change.{Change}};
ghost use Rattle.{vb_types.specs.declared.journal.Batch.{Batch}};

/// Spans that keep the last change of each key give all that has to come above a place.
pub fn spans_taken()
    ensures remains { (h : List Change) (ws : List (List Change)) (top low from end : ℕ) → Rises 0 top h → InTurn low end ws → from ≤ end → Holds ws h from end → Remains (taken ws from) h from end }
{}

/// What one span gives to the journal above a place, all of it or, of a node's own changes, the last
/// one of each key, is a whole snapshot of what the node holds.
pub fn span_flushed()
    ensures own { (held w : List Change) (c : Change) (top low place end : ℕ) → Rises 0 top held → Rises low end w → Tidy w → ((x : Change) → IsIn x w → IsIn x held) → ((x : Change) → IsIn x held → place < x.seq → x.seq ≤ end → IsIn x w) → place < end → IsIn c held → c.seq ≡ end → Covers (filter (λ x. nat_lt place x.seq) (kept w)) held place end }
    ensures received { (held : List Change) (c : Change) (top place end : ℕ) → Rises 0 top held → place < end → IsIn c held → c.seq ≡ end → Covers (filter (λ x. nat_lt place x.seq) (upto held end)) held place end }
{}

/// What the batches of a journal keep above a place is all that has to come from there, up to the end
/// of the last one.
pub fn journal_given()
    ensures remains { (held : List Change) (bs : List Batch) (top place : ℕ) → Rises 0 top held → Covered held bs → place ≤ end_of bs → Remains (filter (λ x. nat_lt place x.seq) (items_of bs)) held place (end_of bs) }
{}
