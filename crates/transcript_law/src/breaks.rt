//! What makes a transcript lawful or not by why a line closes a client's connection.

ghost use Rattle.std.specs.Prelude.{[], ◌∷◌, ◌++◌, take};
ghost use Rattle.mcbp_kv.specs.declared.opcodes.TheConstants.{NOOP};
ghost use Rattle.vb_events.specs.declared.event.Answer.TheVariants.{No, Ok};
ghost use Rattle.vb_events.specs.declared.event.Cause.TheVariants.{NodeDown};
ghost use Rattle.vb_events.specs.declared.event.Event.TheVariants.{NodeStopped};
ghost use Rattle.vb_types.specs.declared.status.Status.TheVariants.{Einval};
ghost use Rattle.transcript_law.specs.AnswerRows.{broken, says, shuts, shuts_other, strange};
ghost use Rattle.transcript_law.specs.AnsweredRows.{brings, durable_bytes, durable_refused, durable_unknown, noop_answered, noop_bytes};
ghost use Rattle.transcript_law.specs.BreakRows.{ClosesBehind, ClosesWaiting, LawfulCrashing, LawfulSent, LawfulStopping, NoTick};
ghost use Rattle.transcript_law.specs.ClientRows.{LawfulOpened};
ghost use Rattle.transcript_law.specs.Crashes.{ok};

/// A line that brings a client's bytes closes its connection only where they break off: behind the whole
/// frames stand bytes that break the rules of a header. That is told last, directly behind Einval for
/// what the header names, and alone where it names nothing. Not lawful are a connection that closes
/// behind whole frames, or behind a part of one; one that closes with another answer in front, without
/// the answer, or before it; and another connection that does. So it is where another line tells the
/// outcome that a connection waits for: it closes behind that where the bytes that waited break off,
/// directly behind the answer to that, and not a line later; and where its node stopped.
pub fn judged_breaks()
    ensures named { ClosesBehind broken (says NOOP Einval ∷ shuts ∷ []) }
    ensures unnamed { ClosesBehind strange (shuts ∷ []) }
    ensures behind { ClosesBehind (noop_bytes ++ strange) (noop_answered ∷ shuts ∷ []) }
    ensures stays { ClosesBehind noop_bytes (noop_answered ∷ []) }
    ensures whole { ClosesBehind noop_bytes (noop_answered ∷ shuts ∷ []) → ⊥ }
    ensures part { ClosesBehind (take 23 broken) (shuts ∷ []) → ⊥ }
    ensures silent { ClosesBehind broken (shuts ∷ []) → ⊥ }
    ensures other_answer { ClosesBehind broken (noop_answered ∷ shuts ∷ []) → ⊥ }
    ensures early { ClosesBehind broken (shuts ∷ says NOOP Einval ∷ []) → ⊥ }
    ensures other { ClosesBehind strange (shuts_other ∷ []) → ⊥ }
    ensures outcome { ClosesWaiting (durable_bytes ++ strange) (durable_unknown ∷ shuts ∷ []) }
    ensures outcome_named { ClosesWaiting (durable_bytes ++ broken) (durable_unknown ∷ says NOOP Einval ∷ shuts ∷ []) }
    ensures outcome_whole { ClosesWaiting durable_bytes (durable_unknown ∷ shuts ∷ []) → ⊥ }
    ensures outcome_silent { ClosesWaiting (durable_bytes ++ broken) (durable_unknown ∷ shuts ∷ []) → ⊥ }
    ensures outcome_later { ClosesWaiting (durable_bytes ++ broken) (durable_unknown ∷ says NOOP Einval ∷ noop_answered ∷ shuts ∷ []) → ⊥ }
    ensures outcome_other { ClosesWaiting (durable_bytes ++ strange) (durable_unknown ∷ shuts_other ∷ []) → ⊥ }
    ensures stopped { ClosesWaiting noop_bytes (NodeStopped 0 ∷ shuts ∷ []) }
    ensures ticked { NoTick (shuts ∷ []) }
    ensures no_reason { LawfulOpened (brings noop_bytes ∷ []) (ok (noop_answered ∷ shuts ∷ []) ∷ []) → ⊥ }
    ensures idle { LawfulOpened (brings [] ∷ []) (ok (shuts ∷ []) ∷ []) → ⊥ }
{}

/// A connection closes once each frame that came whole over it is answered that wants an answer, and no
/// byte is left but what breaks off. Not lawful is one that closes for a first byte that is not known, or
/// for another fault, while a frame in front of that has no answer: neither behind none of its answers,
/// nor behind some. Only where its node stops or crashes, and no other node, does one close with
/// questions left.
pub fn judged_closings_answered()
    ensures answered { LawfulSent (noop_bytes ++ strange) (noop_answered ∷ shuts ∷ []) }
    ensures alone { LawfulSent strange (shuts ∷ []) }
    ensures unanswered { LawfulSent (noop_bytes ++ strange) (shuts ∷ []) → ⊥ }
    ensures one_unanswered { LawfulSent (noop_bytes ++ noop_bytes ++ strange) (noop_answered ∷ shuts ∷ []) → ⊥ }
    ensures behind_durable { LawfulSent (durable_bytes ++ noop_bytes ++ strange) (durable_refused ∷ noop_answered ∷ shuts ∷ []) }
    ensures unanswered_behind { LawfulSent (durable_bytes ++ noop_bytes ++ strange) (durable_refused ∷ shuts ∷ []) → ⊥ }
    ensures waits { LawfulSent (durable_bytes ++ strange) (shuts ∷ []) → ⊥ }
    ensures brought { LawfulOpened (brings (noop_bytes ++ strange) ∷ []) (ok (shuts ∷ []) ∷ []) → ⊥ }
    ensures stops { LawfulStopping durable_bytes (NodeStopped 0 ∷ shuts ∷ []) }
    ensures other_stops { LawfulStopping durable_bytes (NodeStopped 1 ∷ shuts ∷ []) → ⊥ }
    ensures before_stop { LawfulStopping durable_bytes (shuts ∷ NodeStopped 0 ∷ []) → ⊥ }
    ensures crashes { LawfulCrashing 0 Ok durable_bytes (shuts ∷ []) }
    ensures other_crashes { LawfulCrashing 1 Ok durable_bytes (shuts ∷ []) → ⊥ }
    ensures crash_refused { LawfulCrashing 0 (No NodeDown) durable_bytes (shuts ∷ []) → ⊥ }
{}
