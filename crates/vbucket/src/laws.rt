//! What holds of every vBucket by its rules, each the contract of a function that does nothing.
ghost use Rattle.vbucket.specs.Laws.{StartsSound, StaysSound, RefusalsKeep, ForeignExactly, FullExactly, AgainExactly, PendingExactly, PresentExactly, AbsentExactly, ReadsExactly, WritesAreRead, HeldGrows, CasNeverFalls};
ghost use Rattle.vbucket.specs.Adopting.{AnswerableExactly};
ghost use Rattle.vbucket.specs.Asks.{AnswersHaveLog, OpensExactly};
ghost use Rattle.std.specs.Prelude.{◌≡◌};
ghost use Rattle.vb_calls.specs.{Plain.{Plain}, Streams.{memory_from}};
ghost use Rattle.vbucket.specs.Closing.{ClosesExactly, PlacesExactly};
ghost use Rattle.vbucket.specs.Cursors.{CursorsExactly};
ghost use Rattle.vbucket.specs.Memory.{DropsExactly, GivesUpSoundly, TrimsExactly};
ghost use Rattle.vbucket.specs.Filling.{LivesExactly, WeighsInNumbers, OwnFills, ReceivedFills, SealsExactly};
ghost use Rattle.vbucket.specs.Receiving.{AdoptsExactly, AsksExactly, MarkersExactly, ReceivesExactly};
ghost use Rattle.vbucket.specs.Saving.{AllAreGiven, CountsExactly, CountsInNumbers, FlushesExactly, LoadsExactly, RollsExactly, SavesExactly};
ghost use Rattle.vbucket.specs.Takes.{TakesSnapshots, TakesExactly};
ghost use Rattle.vbucket.specs.Wholes.{BatchesAreWhole, LoadsSound};
ghost use Rattle.vbucket.specs.Turns.{RolesEndStreams, PromotionsLead, PromotesExactly, TurnsExactly};

/// A vBucket's seqnos rise from 1 and end at 2^48, no CAS is above the last one, which never falls, an
/// active vBucket's snapshot is complete, and each change stands in one span. Two changes of a key
/// stand in one only of own sets and removals, and the live changes of a span are within the limits.
/// Its outstanding prepares are those that wait, by rising seqnos, and for each that has a deadline a
/// seqno is left.
pub fn stays_sound()
    ensures made { StartsSound }
    ensures stays { StaysSound }
    ensures cas { CasNeverFalls }
{}

/// When a write is refused, and when a read, also for the prepare that waits at its key; and a call that
/// is answered a status, a request that is not granted, no stream or no snapshot changes nothing.
pub fn refusals()
    ensures keep { RefusalsKeep }
    ensures foreign { ForeignExactly }
    ensures full { FullExactly }
    ensures again { AgainExactly }
    ensures pending { PendingExactly }
    ensures present { PresentExactly }
    ensures absent { AbsentExactly }
    ensures reads { ReadsExactly }
{}

/// A write that is made is one change, and is what its key then reads; other keys read as before.
pub fn writes_are_read()
    ensures { WritesAreRead }
{}

/// The changes of a reply are those that the call appended, with seqnos above all that were there.
/// A rollback tells none, and leaves none; a trim tells none, and folds those that it gives up into what
/// stands before the others.
pub fn changes_are_told()
    ensures { HeldGrows }
{}

/// A change opens a new span exactly where the open one does not take it: for another change of its
/// key, for 1000 changes or for 32 MiB. A span that it enters leaves the sealed ones as they are.
/// A seal closes the open span, and changes nothing else.
pub fn spans_are_filled()
    ensures live { LivesExactly }
    ensures weight { WeighsInNumbers }
    ensures own { OwnFills }
    ensures received { ReceivedFills }
    ensures seals { SealsExactly }
{}

/// What a stream is given is a whole snapshot of what it shows: its changes rise, are changes of the
/// vBucket, and have the last change of each slot that the stream has not been given. It reaches
/// what the request needs, and ends inside no received snapshot. It ends at the first such place, and
/// nothing is given exactly where there is none. It starts at the stream's place, and its commits are sent
/// as sets and removals exactly on a stream that is not sync.
pub fn takes_are_snapshots()
    ensures whole { TakesSnapshots }
    ensures exactly { TakesExactly }
{}

/// A request for a stream is answered with the failover log and the last seqno, whatever is said to
/// it, and none is granted under the number 0. Each refusal comes exactly where its reason holds and no
/// earlier one does; else the failover log decides.
pub fn requests_are_told()
    ensures told { AnswersHaveLog }
    ensures exactly { OpensExactly }
{}

/// A change of role ends every stream, which the reply names, and seals the open span; the changes
/// stay, as do the last CAS and whether the next marker is the first. One stream is kept where the
/// vBucket is given up for it. No other call ends a stream in this way.
pub fn roles_end_streams()
    ensures ends { RolesEndStreams }
    ensures exactly { TurnsExactly }
{}

/// A promotion makes a branch that leaves the old one at the last seqno of a complete snapshot, and
/// else at the snapshot's start. Its log has at most 25 entries, the new one in front. What may be
/// committed then is, and nothing else changes.
pub fn promotions_lead()
    ensures leads { PromotionsLead }
    ensures exactly { PromotesExactly }
{}

/// Which failover logs a follower adopts.
pub fn logs_are_adopted()
    ensures { AnswerableExactly }
{}

/// Closing a stream takes it out and leaves all else, and says whether it was there. An open stream's
/// changes come from memory where it has a cursor, or stands where memory serves, which is at the
/// floor or above, and then has one; any other waits, and nothing changes.
pub fn streams_are_closed()
    ensures closes { ClosesExactly }
    ensures places { PlacesExactly }
    ensures memory { (vb : Plain) → memory_from vb ≡ vb.floor }
{}

/// A stream's cursor is made where its changes come from memory, and where it is opened at a place that
/// is served from there; it moves where the stream takes a snapshot, and goes with the stream. No other
/// call does any of this, and the flusher's cursor stays.
pub fn cursors_are_made_and_go()
    ensures { CursorsExactly }
{}

/// A trim gives up exactly the sealed spans at the front that are written down and that no cursor needs,
/// and changes no document. A cursor that is taken away leaves its stream where it is, and no other
/// stream changes. A vBucket that is sound stays so.
pub fn memory_is_given_up()
    ensures trims { TrimsExactly }
    ensures drops { DropsExactly }
    ensures sound { GivesUpSoundly }
{}

/// What a follower asks for, which logs, markers and changes it takes, and why others are refused, in
/// the order of the reasons; and what the last CAS is then.
pub fn messages_are_taken()
    ensures asks { AsksExactly }
    ensures logs { AdoptsExactly }
    ensures markers { MarkersExactly }
    ensures changes { ReceivesExactly }
{}

/// A batch is the rest of the first span that goes on above what was taken, and of no other: it ends
/// where its span does. Taking it leaves what is saved. Each live change above what was taken is in
/// one of the next batches. A batch is a whole snapshot of what is held above what was taken.
pub fn batches_are_rests()
    ensures exactly { FlushesExactly }
    ensures all { AllAreGiven }
    ensures whole { BatchesAreWhole }
{}

/// What is saved never falls, and rises to what a receipt says. What may be committed then is, and
/// nothing else changes.
pub fn receipts_are_counted()
    ensures { SavesExactly }
{}

/// A rollback leaves nothing above its seqno: of the failover log the entries up to there, and all is
/// saved. No CAS falls.
pub fn rollbacks_leave_nothing()
    ensures { RollsExactly }
{}

/// How many spans, live changes and cursors a vBucket tells; a change that was replaced is neither
/// counted nor written down.
pub fn numbers_are_told()
    ensures exactly { CountsExactly }
    ensures rows { CountsInNumbers }
{}

/// What a vBucket is that was written down; it is sound.
pub fn written_ones_are_loaded()
    ensures exactly { LoadsExactly }
    ensures sound { LoadsSound }
{}
