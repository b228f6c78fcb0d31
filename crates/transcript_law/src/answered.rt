//! What makes a transcript lawful or not by whether each client gets its answers.

ghost use Rattle.std.specs.Prelude.{[], ◌∷◌, ◌++◌, take, drop};
ghost use Rattle.transcript_law.specs.AnsweredRows.{brings, broken_bytes, durable_bytes, durable_refused, noop_answered, noop_bytes, response_bytes, sent_alone, sent_shut, set_bytes};
ghost use Rattle.transcript_law.specs.ClientRows.{LawfulOpened, hangs, waits};
ghost use Rattle.transcript_law.specs.Crashes.{ok};
ghost use Rattle.transcript_law.specs.Unanswered.{AllAnswered};

/// A client that asks something is answered in the group of the line that brings the last byte of its
/// frame, each of its frames once. Not lawful are a line behind which a frame that came whole has no
/// answer, also where another one before it has, or where the answer comes with a later line. Nothing is
/// asked by less than a frame, nor by a response, and nobody is left without an answer over a connection
/// that is not open. Only a durable write may wait, and is answered with a later line; what was asked
/// behind it waits with it, and what was asked before it does not, nor does a write that is not to be
/// durable. Bytes that begin no frame close a connection behind the frames before them.
pub fn judged_unanswered()
    ensures answered { LawfulOpened (brings noop_bytes ∷ []) (ok (noop_answered ∷ []) ∷ []) }
    ensures unanswered { LawfulOpened (brings noop_bytes ∷ []) (ok [] ∷ []) → ⊥ }
    ensures later { LawfulOpened (brings noop_bytes ∷ waits ∷ []) (ok [] ∷ ok (noop_answered ∷ []) ∷ []) → ⊥ }
    ensures each { LawfulOpened (brings (noop_bytes ++ noop_bytes) ∷ []) (ok (noop_answered ∷ noop_answered ∷ []) ∷ []) }
    ensures one_only { LawfulOpened (brings (noop_bytes ++ noop_bytes) ∷ []) (ok (noop_answered ∷ []) ∷ []) → ⊥ }
    ensures pieces { LawfulOpened (brings (take 23 noop_bytes) ∷ brings (drop 23 noop_bytes) ∷ []) (ok [] ∷ ok (noop_answered ∷ []) ∷ []) }
    ensures pieces_unanswered { LawfulOpened (brings (take 23 noop_bytes) ∷ brings (drop 23 noop_bytes) ∷ []) (ok [] ∷ ok [] ∷ []) → ⊥ }
    ensures hung { LawfulOpened (brings (take 23 noop_bytes) ∷ hangs 1 ∷ []) (ok [] ∷ ok [] ∷ []) }
    ensures durable_later { LawfulOpened (brings durable_bytes ∷ waits ∷ []) (ok [] ∷ ok (durable_refused ∷ []) ∷ []) }
    ensures none { AllAnswered (sent_alone []) }
    ensures part { AllAnswered (sent_alone (take 23 noop_bytes)) }
    ensures whole { AllAnswered (sent_alone noop_bytes) → ⊥ }
    ensures shut { AllAnswered (sent_shut noop_bytes) }
    ensures response { AllAnswered (sent_alone response_bytes) }
    ensures behind_response { AllAnswered (sent_alone (response_bytes ++ noop_bytes)) → ⊥ }
    ensures set { AllAnswered (sent_alone set_bytes) → ⊥ }
    ensures durable { AllAnswered (sent_alone durable_bytes) }
    ensures behind_durable { AllAnswered (sent_alone (durable_bytes ++ noop_bytes)) }
    ensures broken { AllAnswered (sent_alone broken_bytes) → ⊥ }
    ensures broken_behind { AllAnswered (sent_alone (response_bytes ++ broken_bytes)) → ⊥ }
    ensures broken_waits { AllAnswered (sent_alone (durable_bytes ++ broken_bytes)) }
    ensures before_durable { AllAnswered (sent_alone (noop_bytes ++ durable_bytes)) → ⊥ }
{}
