//! Of spans that vBuckets give up, and of cursors that are taken away.

ghost use Rattle.std.specs.Prelude.{ℕ, ◌<◌};
ghost use Rattle.transcript_law.specs.Chronicles.{after_dial, empty_chronicle};
ghost use Rattle.transcript_law.specs.TrimRows.{LawfulDrop, LawfulTrim, ended_stream, saved_there};
ghost use Rattle.transcript_law.specs.UndoneRows.{granted_both};
ghost use Rattle.vb_events.specs.declared.event.Answer.TheVariants as answer;
ghost use Rattle.vb_events.specs.declared.event.Cause.TheVariants as cause;
ghost use Rattle.vb_events.specs.declared.event.Why.{Why};

/// A vBucket that is there gives up no more spans than seqnos count as saved, and may give up none. It is
/// not lawful that one is told of more, nor of any where nothing is saved, nor that one which is not
/// there is answered by a number, be it 0: it is refused.
pub fn judged_trims()
    ensures none { LawfulTrim (saved_there 2) (answer.Number 0) }
    ensures each { LawfulTrim (saved_there 2) (answer.Number 2) }
    ensures more { (n : ℕ) → 2 < n → LawfulTrim (saved_there 2) (answer.Number n) → ⊥ }
    ensures unsaved { LawfulTrim (saved_there 0) (answer.Number 1) → ⊥ }
    ensures absent { (n : ℕ) → LawfulTrim empty_chronicle (answer.Number n) → ⊥ }
    ensures refused { LawfulTrim empty_chronicle (answer.No cause.UnknownVb) }
    ensures ok { LawfulTrim (saved_there 2) answer.Ok → ⊥ }
    ensures pulled { (n : ℕ) (why : Why) → LawfulTrim (saved_there 2) (answer.Pulled n why) → ⊥ }
{}

/// A drop takes one cursor away, or none: that of a link's stream which was granted and is not over. It is
/// not lawful that it takes two, nor one of a link whose stream was not granted, or was put to its end;
/// nor that an open link is told closed.
pub fn judged_drops()
    ensures one { LawfulDrop granted_both (answer.Number 1) }
    ensures none { LawfulDrop granted_both (answer.Number 0) }
    ensures two { LawfulDrop granted_both (answer.Number 2) → ⊥ }
    ensures no_stream { LawfulDrop (after_dial empty_chronicle 1 0 1 0 answer.Ok) (answer.Number 1) → ⊥ }
    ensures no_stream_none { LawfulDrop (after_dial empty_chronicle 1 0 1 0 answer.Ok) (answer.Number 0) }
    ensures ended { LawfulDrop ended_stream (answer.Number 1) → ⊥ }
    ensures ended_none { LawfulDrop ended_stream (answer.Number 0) }
    ensures closed { LawfulDrop granted_both (answer.No cause.LinkClosed) → ⊥ }
    ensures ok { LawfulDrop granted_both answer.Ok → ⊥ }
    ensures pulled { (n : ℕ) (why : Why) → LawfulDrop granted_both (answer.Pulled n why) → ⊥ }
{}
