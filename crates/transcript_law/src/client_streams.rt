//! What a transcript tells of the streams of clients, lawfully or not.

ghost use Rattle.std.specs.Prelude.{◌≡◌, ℕ, ◌-◌, ◌^◌, List, [], ◌∷◌, ◌++◌, codes, take, true, false, replicate, Some, None};
ghost use Rattle.transcript_law.specs.ClientAskRows.{AsksSync, LawfulAsked, LawfulPulled, LawfulStory, LawfulUnread, LawfulWaits, acking, all_lines, asked, asked_at, asked_by, bytes_of, client_asks, client_counts, client_ends, client_gives, client_hears, client_marks, closes_first, closing, closing_typed, flagged, full_now, goes_as, hangs_up, idle, indexed, moved, naming, none, opening, opens_first, other_marked, past_both, pulls, puts, requesting, requesting_typed, resting, sends_none, serving, sizing, syncing, taking_over, that_asked, that_opened, that_sent, ticks, typed_close_refused, typed_refused, unanswered, unopened, waiting_now, with_window, with_window_waiting, asked_forked, forked, sends_rest};
ghost use Rattle.transcript_law.specs.AnsweredRows.{durable_bytes};
ghost use Rattle.transcript_law.specs.AskedRows.{marks_of, pump_one, up_one};
ghost use Rattle.transcript_law.specs.BoundRows.{LawfulHere};
ghost use Rattle.transcript_law.specs.Chronicles.{Chronicle};
ghost use Rattle.transcript_law.specs.ClientRows.{closes};
ghost use Rattle.transcript_law.specs.ClientStreamRows.{LawfulHeld, LawfulPut, all_changes, as_document, asks_for, both, closed, committed, disk_marked, durable, ended, ended_with, finished, first_item, for_another, frame_of, fresh, held_so, inside, late_marked, left_with, marked, marked_with, next_item, one, open_setup, other_opaque, other_turned, other_value, pending, prepared, prepared_item, put_three, put_two, sent, sent_with, third_item, three, turned, turned_elsewhere, two, unframed, untold, up_to, waiting, with_streams};
ghost use Rattle.transcript_law.specs.ClientStreams.{no_setup, opened_after};
ghost use Rattle.transcript_law.specs.Crashes.{ok};
ghost use Rattle.transcript_law.specs.Lawfulness.{LawfulFrom};
ghost use Rattle.transcript_law.specs.TellingRows.{MayNotTell, changes_here};
ghost use Rattle.vb_events.specs.declared.event.Event.TheVariants as event;
ghost use Rattle.transcript_law.specs.Feeding.{StreamsAreFed};
ghost use Rattle.transcript_law.specs.FeedingRows.{GoesOn, has_clients, has_one, streaming, two_nodes, up};
ghost use Rattle.transcript_law.specs.Followers.{log_of, next_change};
ghost use Rattle.mcbp_dcp.specs.declared.message.DcpMsg.TheVariants as msg;
ghost use Rattle.dcp_producer.specs.Frames.{act_message};
ghost use Rattle.dcp_producer.specs.Producers.{PlainStream};
ghost use Rattle.vb_calls.specs.declared.stream.Stream.{Stream};
ghost use Rattle.vb_types.specs.declared.stream.StreamAsk.{StreamAsk};
ghost use Rattle.transcript_law.specs.Transcripts.{one_change};
ghost use Rattle.vb_events.specs.declared.event.Answer.TheVariants as answer;
ghost use Rattle.vb_events.specs.declared.event.Cause.TheVariants as cause;
ghost use Rattle.vb_types.specs.declared.stream.AskAnswer.TheVariants as ask_answer;
ghost use Rattle.vb_types.specs.declared.role.Role.TheVariants as role;

/// A client's stream that is shown everything begins a snapshot of all changes, or of the first one, and
/// then of the next; the first one starts and ends as the request means. No marker comes inside a
/// snapshot of its own stream; from above the end before, or short of what the request means; to where
/// no change ends it; where the end that was asked for was reached, behind a role of the vBucket, or
/// behind the stream's end; and from the journal, where nothing is saved.
pub fn judged_client_markers()
    ensures whole { LawfulPut two (one (fresh true all_changes)) (marked 0 0 2) }
    ensures first { LawfulPut two (one (fresh true all_changes)) (marked 0 0 1) }
    ensures next { LawfulPut three (one put_two) (marked 0 2 3) }
    ensures between { LawfulPut three (one (inside true all_changes three 0 2 (first_item ∷ []))) (marked 0 2 3) → ⊥ }
    ensures above { LawfulPut durable (one (inside true all_changes durable 0 1 (first_item ∷ []))) (marked 0 2 3) → ⊥ }
    ensures meant { LawfulPut two (one (fresh true (asks_for 0 1 2 9))) (marked 0 0 2) }
    ensures start { LawfulPut two (one (fresh true (asks_for 0 1 2 9))) (marked 0 1 2) → ⊥ }
    ensures short { LawfulPut three (one (fresh true (asks_for 0 1 3 9))) (marked 0 0 2) → ⊥ }
    ensures past { LawfulPut two (one (fresh true all_changes)) (marked 0 0 3) → ⊥ }
    ensures due { LawfulPut three (one (put_three (up_to 2))) (marked 0 2 3) → ⊥ }
    ensures not_due { LawfulPut three (one (put_three (up_to 3))) (marked 0 2 3) }
    ensures turns { LawfulPut three (one put_two) (turned role.Dead ∷ marked 0 2 3) → ⊥ }
    ensures over { LawfulPut three (one (finished put_two)) (marked 0 2 3) → ⊥ }
    ensures disk { LawfulPut two (one (fresh true all_changes)) disk_marked → ⊥ }
{}

/// A marker stands directly before its own frame: not without it, not with a line in between, and not
/// with that of another client, with another opaque, or of a vBucket of which the client has no stream.
/// A client that was told closed, or of which no stream is known, is sent none.
pub fn judged_client_frames()
    ensures alone { LawfulPut two (one (fresh true all_changes)) unframed → ⊥ }
    ensures apart { LawfulPut two (one (fresh true all_changes)) late_marked → ⊥ }
    ensures another { LawfulPut two (one (fresh true all_changes)) for_another → ⊥ }
    ensures opaque { LawfulPut two (one (fresh true all_changes)) other_opaque → ⊥ }
    ensures header { LawfulPut two (one (fresh true all_changes)) (marked 1 0 2) → ⊥ }
    ensures shut { LawfulPut two (one (fresh true all_changes)) (closed ∷ marked 0 0 2) → ⊥ }
{}

/// A stream that is not shown durable writes begins a later snapshot where the one before ended, or above
/// that, with nothing that it is shown in between: not below, and not above a change that it is shown.
/// Its first one ends where the request means, or at the last change up to there that it is shown; none
/// ends at a prepare.
pub fn judged_plain_markers()
    ensures above { LawfulPut durable (one (inside false all_changes durable 0 1 (first_item ∷ []))) (marked 0 2 3) }
    ensures there { LawfulPut durable (one (inside false all_changes durable 0 1 (first_item ∷ []))) (marked 0 1 3) }
    ensures below { LawfulPut durable (one (inside false all_changes durable 0 1 (first_item ∷ []))) (marked 0 0 3) → ⊥ }
    ensures over_one { LawfulPut three (one (inside false all_changes three 0 1 (first_item ∷ []))) (marked 0 2 3) → ⊥ }
    ensures at_end { LawfulPut durable (one (inside false all_changes durable 0 1 (first_item ∷ []))) (marked 0 3 3) → ⊥ }
    ensures short { LawfulPut waiting (one (fresh false (asks_for 0 1 3 9))) (marked 0 0 2) }
    ensures too_short { LawfulPut three (one (fresh false (asks_for 0 1 3 9))) (marked 0 0 2) → ⊥ }
    ensures prepare { LawfulPut durable (one (fresh false all_changes)) (marked 0 0 2) → ⊥ }
{}

/// A client's stream is sent the items of its snapshot, in their order, each with the change that it
/// tells; two streams of one connection are sent theirs in turn. Not lawful is an item in a frame of
/// another stream, of another order, before a marker or behind the stream's end; and one whose frame
/// has another value than the branch has. An answer between two items changes nothing. A stream is sent
/// what its vBucket holds, and behind a role of that what it held before the first one, whatever it holds
/// then.
pub fn judged_client_items()
    ensures both { LawfulPut two (one (fresh true all_changes)) (marked 0 0 2 ++ sent 0 one_change ++ sent 0 next_change) }
    ensures answered { LawfulAsked (that_sent (one (fresh true all_changes)) (bytes_of 9 0 msg.Noop)) (marked 0 0 2 ++ sent 0 one_change ++ frame_of 0 (msg.NoopAnswer 0) ∷ sent 0 next_change) }
    ensures in_turn { LawfulPut two (both (fresh true all_changes) (fresh true all_changes)) (marked 0 0 2 ++ marked 1 0 2 ++ sent 1 one_change ++ sent 0 one_change ++ sent 0 next_change ++ sent 1 next_change) }
    ensures own { LawfulPut two (both (inside true all_changes two 0 2 []) (inside true all_changes two 0 2 (first_item ∷ []))) (sent 0 one_change) }
    ensures header { LawfulPut two (both (inside true all_changes two 0 2 []) (inside true all_changes two 0 2 (first_item ∷ []))) (sent 1 one_change) → ⊥ }
    ensures value { LawfulPut two (one (inside true all_changes two 0 2 [])) (sent_with 0 one_change other_value) → ⊥ }
    ensures skipped { LawfulPut two (one (inside true all_changes two 0 2 [])) (sent 0 next_change) → ⊥ }
    ensures unmarked { LawfulPut two (one (fresh true all_changes)) (sent 0 one_change) → ⊥ }
    ensures over { LawfulPut two (one (finished (inside true all_changes two 0 2 []))) (sent 0 one_change) → ⊥ }
    ensures turns { LawfulPut two (one (inside true all_changes two 0 2 [])) (turned role.Dead ∷ sent 0 one_change) }
    ensures turns_lost { LawfulHeld [] two (one (inside true all_changes two 0 2 [])) (turned role.Dead ∷ sent 0 one_change) → ⊥ }
    ensures turns_twice { LawfulHeld [] two (one (left_with two (inside true all_changes two 0 2 []))) (turned role.Dead ∷ sent 0 one_change) }
    ensures left { LawfulHeld [] two (one (left_with two (inside true all_changes two 0 2 []))) (sent 0 one_change) }
    ensures left_none { LawfulPut two (one (left_with [] (inside true all_changes two 0 2 []))) (sent 0 one_change) → ⊥ }
    ensures other_turned { LawfulPut two (one (inside true all_changes two 0 2 [])) (turned role.Dead ∷ sent_with 0 one_change other_value) → ⊥ }
    ensures lost { LawfulHeld [] two (one (inside true all_changes two 0 2 [])) (sent 0 one_change) → ⊥ }
{}

/// A stream that is shown durable writes is sent prepares and commits, and no commit as its document, but
/// in a first snapshot from below where its request starts, and where its vBucket holds it so, or held it
/// so before it got a role. Any other stream is sent no prepare, and each commit as its document.
pub fn judged_durable_items()
    ensures prepare { LawfulPut durable (one (inside true all_changes durable 0 3 (first_item ∷ []))) (sent 0 prepared) }
    ensures commit { LawfulPut durable (one (inside true all_changes durable 0 3 (first_item ∷ prepared_item ∷ []))) (sent 0 committed) }
    ensures document { LawfulPut durable (one (inside true all_changes durable 0 3 (first_item ∷ prepared_item ∷ []))) (sent 0 as_document) → ⊥ }
    ensures plain_prepare { LawfulPut durable (one (inside false all_changes durable 0 3 (first_item ∷ []))) (sent 0 prepared) → ⊥ }
    ensures plain_document { LawfulPut durable (one (inside false all_changes durable 0 3 (first_item ∷ []))) (sent 0 as_document) }
    ensures plain_commit { LawfulPut durable (one (inside false all_changes durable 0 3 (first_item ∷ []))) (sent 0 committed) → ⊥ }
    ensures below { LawfulPut durable (one (inside true (asks_for 0 2 3 9) durable 2 3 [])) (sent 0 as_document) }
    ensures below_commit { LawfulPut durable (one (inside true (asks_for 0 2 3 9) durable 2 3 [])) (sent 0 committed) → ⊥ }
    ensures later_document { LawfulPut durable (one (inside true (asks_for 0 1 2 9) durable 2 3 [])) (sent 0 as_document) → ⊥ }
    ensures later_commit { LawfulPut durable (one (inside true (asks_for 0 1 2 9) durable 2 3 [])) (sent 0 committed) }
    ensures held_so { LawfulHeld held_so durable (one (inside true all_changes durable 0 3 (first_item ∷ prepared_item ∷ []))) (sent 0 as_document) }
    ensures held_commit { LawfulHeld held_so durable (one (inside true all_changes durable 0 3 (first_item ∷ prepared_item ∷ []))) (sent 0 committed) → ⊥ }
    ensures turned_commit { LawfulHeld held_so durable (one (left_with durable (inside true all_changes durable 0 3 (first_item ∷ prepared_item ∷ [])))) (sent 0 committed) }
    ensures turned_as_document { LawfulHeld held_so durable (one (left_with durable (inside true all_changes durable 0 3 (first_item ∷ prepared_item ∷ [])))) (sent 0 as_document) → ⊥ }
    ensures turned_document { LawfulPut durable (one (left_with held_so (inside true all_changes durable 0 3 (first_item ∷ prepared_item ∷ [])))) (sent 0 as_document) }
    ensures turned_as_commit { LawfulPut durable (one (left_with held_so (inside true all_changes durable 0 3 (first_item ∷ prepared_item ∷ [])))) (sent 0 committed) → ⊥ }
{}

/// A client's stream ends with the reason 0 behind a whole snapshot that reaches the end that was asked
/// for, also above it: not a change early, not without one that was asked for or begun, and not inside
/// the snapshot. Behind a role of its vBucket it ends with the reason 2, and not with 0; and not with 2
/// behind a role of another vBucket, of the same one at another node, or of none. It ends once.
pub fn judged_client_ends()
    ensures all_sent { LawfulPut two (one (inside true (up_to 2) two 0 2 (first_item ∷ next_item ∷ []))) (ended 0 0) }
    ensures above { LawfulPut three (one (inside true (up_to 2) three 0 3 (first_item ∷ next_item ∷ third_item ∷ []))) (ended 0 0) }
    ensures early { LawfulPut three (one (put_three (up_to 3))) (ended 0 0) → ⊥ }
    ensures unasked { LawfulPut three (one put_two) (ended 0 0) → ⊥ }
    ensures unbegun { LawfulPut two (one (fresh true (up_to 0))) (ended 0 0) → ⊥ }
    ensures part { LawfulPut three (one (inside true (up_to 2) three 0 2 (first_item ∷ []))) (ended 0 0) → ⊥ }
    ensures turns { LawfulPut three (one put_two) (turned role.Dead ∷ ended 0 2) }
    ensures turns_early { LawfulPut three (one (fresh true all_changes)) (turned role.Dead ∷ ended 0 2) }
    ensures turns_sent { LawfulPut three (one (put_three (up_to 2))) (turned role.Dead ∷ ended 0 0) → ⊥ }
    ensures other_turns { LawfulPut three (one put_two) (other_turned role.Dead ∷ ended 0 2) → ⊥ }
    ensures turns_elsewhere { LawfulPut three (one put_two) (turned_elsewhere role.Dead ∷ ended 0 2) → ⊥ }
    ensures stays { LawfulPut three (one (put_three (up_to 2))) (ended 0 2) → ⊥ }
    ensures twice { LawfulPut three (one (put_three (up_to 2))) (ended 0 0 ++ ended 0 0) → ⊥ }
{}

/// A client's request for a stream is answered as it was sent: with its own numbers, for its own vBucket
/// and by its own node, in a frame with its opaque, once, and not where none was sent. Before OPEN it is
/// Einval, and one for a takeover is not supported. A vBucket of which the client has a stream is
/// refused, until that was closed or its end was put. A request that comes in two pieces is one; the
/// stream that begins is of the newest branch, whichever was named, and is sent what lies above its start.
pub fn judged_client_asks()
    ensures go { LawfulAsked (that_sent none (requesting 0 all_changes)) (asked all_changes ask_answer.Go) }
    ensures end { LawfulAsked (that_sent none (requesting 0 (up_to 2))) (asked (up_to 3) ask_answer.Go) → ⊥ }
    ensures start { LawfulAsked (that_sent none (requesting 0 (asks_for 1 1 1 2))) (asked (up_to 2) ask_answer.Go) → ⊥ }
    ensures vb { LawfulAsked (that_sent none (requesting 1 all_changes)) (asked all_changes ask_answer.Go) → ⊥ }
    ensures elsewhere { LawfulAsked (that_sent none (requesting 0 all_changes)) (asked_at 1 0 9 all_changes ask_answer.Go) → ⊥ }
    ensures unframed { LawfulAsked (that_sent none (requesting 0 all_changes)) (unanswered all_changes) → ⊥ }
    ensures opaque { LawfulAsked (that_sent none (requesting 0 all_changes)) (asked_at 0 0 8 all_changes ask_answer.Go) → ⊥ }
    ensures unsent { LawfulAsked (that_sent none []) (asked all_changes ask_answer.Go) → ⊥ }
    ensures part { LawfulAsked (that_sent none (take 71 (requesting 0 all_changes))) (asked all_changes ask_answer.Go) → ⊥ }
    ensures again { LawfulAsked (that_sent none (requesting 0 all_changes)) (asked all_changes (ask_answer.Refuse 2) ++ asked all_changes (ask_answer.Refuse 2)) → ⊥ }
    ensures before_open { LawfulAsked (unopened (requesting 0 all_changes)) (asked all_changes ask_answer.Go) → ⊥ }
    ensures refused_before { LawfulAsked (unopened (requesting 0 all_changes)) (asked all_changes (ask_answer.Refuse 4)) }
    ensures opened { LawfulAsked (unopened (opening 1 ++ requesting 0 all_changes)) (opens_first ∷ asked all_changes ask_answer.Go) }
    ensures takeover { LawfulAsked (that_sent none (requesting 0 taking_over)) (asked taking_over ask_answer.Go) → ⊥ }
    ensures refused_takeover { LawfulAsked (that_sent none (requesting 0 taking_over)) (asked taking_over (ask_answer.Refuse 131)) }
    ensures held { LawfulAsked (that_sent (one put_two) (requesting 0 all_changes)) (asked all_changes ask_answer.Go) → ⊥ }
    ensures refused_held { LawfulAsked (that_sent (one put_two) (requesting 0 all_changes)) (asked all_changes (ask_answer.Refuse 2)) }
    ensures closed { LawfulAsked (that_sent (one put_two) (closing 0 ++ requesting 0 all_changes)) (closes_first ∷ asked all_changes ask_answer.Go) }
    ensures other_closed { LawfulAsked (that_sent (one put_two) (closing 1 ++ requesting 0 all_changes)) (closes_first ∷ asked all_changes ask_answer.Go) → ⊥ }
    ensures over { LawfulAsked (that_sent (one (finished put_two)) (requesting 0 all_changes)) (asked all_changes ask_answer.Go) }
    ensures resumes { LawfulAsked (that_sent none (requesting 0 (asks_for 0 1 2 9))) (asked (asks_for 0 1 2 9) ask_answer.Go ++ marked 0 0 2 ++ sent 0 next_change) }
    ensures pieces { LawfulHere (serving two (that_sent none (take 30 (requesting 0 all_changes)))) (sends_rest 30 (requesting 0 all_changes)) (ok (asked all_changes ask_answer.Go)) }
    ensures newest { LawfulFrom (forked (that_sent none (requesting 0 (asks_for 1 1 1 9)))) (asked_forked ++ marked 0 1 2 ++ sent 0 next_change) }
{}

/// A client's request is answered by its vBucket's own failover log and last seqno, and as the failover
/// rule says of both: not by another log or seqno; not sent back where the rule lets it continue, nor
/// let continue, or sent elsewhere, where the rule sends it back; and neither by a vBucket that is not
/// active.
pub fn judged_client_verdicts()
    ensures other_log { LawfulAsked (that_sent none (requesting 0 all_changes)) (asked_by 2 (log_of 6) all_changes ask_answer.Go) → ⊥ }
    ensures other_high { LawfulAsked (that_sent none (requesting 0 all_changes)) (asked_by 3 (log_of 5) all_changes ask_answer.Go) → ⊥ }
    ensures rolls { LawfulAsked (that_sent none (requesting 0 all_changes)) (asked all_changes (ask_answer.Roll 0)) → ⊥ }
    ensures goes_on { LawfulAsked (that_sent none (requesting 0 past_both)) (asked past_both ask_answer.Go) → ⊥ }
    ensures rolls_less { LawfulAsked (that_sent none (requesting 0 past_both)) (asked past_both (ask_answer.Roll 1)) → ⊥ }
    ensures dead { LawfulAsked (that_sent none (requesting 0 all_changes)) (turned role.Dead ∷ asked all_changes ask_answer.Go) → ⊥ }
    ensures dead_rolls { LawfulAsked (that_sent none (requesting 0 past_both)) (turned role.Dead ∷ asked past_both (ask_answer.Roll 0)) → ⊥ }
{}

/// The frame behind a line says what the line says: a marker's its end, an end's its reason, and an
/// answer's the verdict and the log.
pub fn judged_client_spellings()
    ensures marker { LawfulPut two (one (fresh true all_changes)) (marked_with 0 2 (msg.SnapshotMarker 0 1 1)) → ⊥ }
    ensures end { LawfulPut three (one (put_three (up_to 2))) (ended_with 0 (msg.StreamEnd 2)) → ⊥ }
    ensures refused { LawfulAsked (that_sent none (requesting 0 all_changes)) (goes_as (log_of 5) (ask_answer.Refuse 7)) → ⊥ }
    ensures log { LawfulAsked (that_sent none (requesting 0 all_changes)) (goes_as (log_of 6) ask_answer.Go) → ⊥ }
{}

/// What a client is sent that no line before tells of answers what it asked: it is no marker, no item, and
/// no end, on a stream that is open or on none, also where it sent such a frame itself, and not nothing.
pub fn judged_untold_frames()
    ensures answer { LawfulAsked (unopened (opening 1)) (opens_first ∷ []) }
    ensures unasked { LawfulAsked (that_sent (one put_two) []) (opens_first ∷ []) → ⊥ }
    ensures marker { LawfulPut three (one put_two) (frame_of 0 (msg.SnapshotMarker 2 3 1) ∷ []) → ⊥ }
    ensures item { LawfulPut three (one (inside true all_changes three 0 2 (first_item ∷ []))) (frame_of 0 (act_message next_change next_change.act) ∷ []) → ⊥ }
    ensures end { LawfulPut three (one put_two) (frame_of 0 (msg.StreamEnd 0) ∷ []) → ⊥ }
    ensures nothing { LawfulPut two (one put_two) (event.Reply 0 1 [] ∷ []) → ⊥ }
    ensures marker_back { LawfulAsked (that_sent (one put_two) (bytes_of 9 0 (msg.SnapshotMarker 2 3 1))) (frame_of 0 (msg.SnapshotMarker 2 3 1) ∷ []) → ⊥ }
    ensures item_back { LawfulAsked (that_sent (one put_two) (bytes_of 9 0 (act_message next_change next_change.act))) (frame_of 0 (act_message next_change next_change.act) ∷ []) → ⊥ }
    ensures end_back { LawfulAsked (that_sent (one put_two) (bytes_of 9 0 (msg.StreamEnd 0))) (frame_of 0 (msg.StreamEnd 0) ∷ []) → ⊥ }
    ensures nothing_back { LawfulAsked (that_sent (one put_two) (opening 1)) (event.Reply 0 1 [] ∷ []) → ⊥ }
{}

/// A client's connection refuses with the status of its reason alone: Einval before OPEN and for flags
/// that are not known, whatever its vBucket says, and NotSupported for a takeover. A vBucket of which it
/// has a stream does not send its request back either. A message with a datatype is none: no request,
/// and no CLOSE_STREAM.
pub fn judged_client_statuses()
    ensures flags_go { LawfulAsked (that_sent none (requesting 0 flagged)) (asked flagged ask_answer.Go) → ⊥ }
    ensures flags_other { LawfulAsked (that_sent none (requesting 0 flagged)) (asked flagged (ask_answer.Refuse 131)) → ⊥ }
    ensures unopened_other { LawfulAsked (unopened (requesting 0 all_changes)) (asked all_changes (ask_answer.Refuse 7)) → ⊥ }
    ensures takeover_other { LawfulAsked (that_sent none (requesting 0 taking_over)) (asked taking_over (ask_answer.Refuse 4)) → ⊥ }
    ensures held_rolls { LawfulAsked (that_sent (one put_two) (requesting 0 past_both)) (asked past_both (ask_answer.Roll 0)) → ⊥ }
    ensures typed { LawfulAsked (that_sent none (requesting_typed (up_to 3) ++ requesting 0 all_changes)) (typed_refused ∷ asked all_changes ask_answer.Go) }
    ensures typed_alone { LawfulAsked (that_sent none (requesting_typed all_changes)) (asked all_changes ask_answer.Go) → ⊥ }
    ensures typed_close { LawfulAsked (that_sent (one put_two) (closing_typed ++ requesting 0 all_changes)) (typed_close_refused ∷ asked all_changes ask_answer.Go) → ⊥ }
{}

/// A vBucket refuses a client's request with the status of its reason, the first of these that it has: it
/// is not active; the connection has a stream of it; the numbers are out of order, with a start above the
/// end, or below or above the snapshot. Such a request is let continue or sent back in no case, and one
/// that has none of these reasons is not refused with their statuses, nor for want of a number while the
/// connection has one left; but any may be refused because another stream has its number.
pub fn judged_client_refusals()
    ensures away { LawfulAsked (that_sent none (requesting 0 all_changes)) (turned role.Dead ∷ asked all_changes (ask_answer.Refuse 7)) }
    ensures away_held { LawfulAsked (that_sent (one put_two) (requesting 0 all_changes)) (turned role.Dead ∷ asked all_changes (ask_answer.Refuse 2)) → ⊥ }
    ensures away_order { LawfulAsked (that_sent none (requesting 0 (asks_for 0 2 2 1))) (turned role.Dead ∷ asked (asks_for 0 2 2 1) (ask_answer.Refuse 34)) → ⊥ }
    ensures active { LawfulAsked (that_sent none (requesting 0 all_changes)) (asked all_changes (ask_answer.Refuse 7)) → ⊥ }
    ensures held_away { LawfulAsked (that_sent (one put_two) (requesting 0 all_changes)) (asked all_changes (ask_answer.Refuse 7)) → ⊥ }
    ensures held_order { LawfulAsked (that_sent (one put_two) (requesting 0 (asks_for 0 2 2 1))) (asked (asks_for 0 2 2 1) (ask_answer.Refuse 34)) → ⊥ }
    ensures outside { LawfulAsked (that_sent none (requesting 0 (asks_for 0 2 2 1))) (asked (asks_for 0 2 2 1) (ask_answer.Refuse 34)) }
    ensures outside_away { LawfulAsked (that_sent none (requesting 0 (asks_for 0 2 2 1))) (asked (asks_for 0 2 2 1) (ask_answer.Refuse 7)) → ⊥ }
    ensures end_goes { LawfulAsked (that_sent none (requesting 0 (asks_for 0 2 2 1))) (asked (asks_for 0 2 2 1) ask_answer.Go) → ⊥ }
    ensures end_rolls { LawfulAsked (that_sent none (requesting 0 (asks_for 0 3 3 2))) (asked (asks_for 0 3 3 2) (ask_answer.Roll 0)) → ⊥ }
    ensures below_goes { LawfulAsked (that_sent none (requesting 0 (asks_for 2 1 2 9))) (asked (asks_for 2 1 2 9) ask_answer.Go) → ⊥ }
    ensures below_rolls { LawfulAsked (that_sent none (requesting 0 (asks_for 2 1 3 9))) (asked (asks_for 2 1 3 9) (ask_answer.Roll 2)) → ⊥ }
    ensures above_goes { LawfulAsked (that_sent none (requesting 0 (asks_for 0 2 1 9))) (asked (asks_for 0 2 1 9) ask_answer.Go) → ⊥ }
    ensures above_rolls { LawfulAsked (that_sent none (requesting 0 (asks_for 0 4 3 9))) (asked (asks_for 0 4 3 9) (ask_answer.Roll 0)) → ⊥ }
    ensures in_order { LawfulAsked (that_sent none (requesting 0 all_changes)) (asked all_changes (ask_answer.Refuse 34)) → ⊥ }
    ensures numbered { LawfulAsked (that_sent none (requesting 0 all_changes)) (asked all_changes (ask_answer.Refuse 2)) }
    ensures unspent { LawfulAsked (that_sent none (requesting 0 all_changes)) (asked all_changes (ask_answer.Refuse 134)) → ⊥ }
{}

/// A connection has numbers for 4294967295 streams: once it asked vBuckets to open as many, each further
/// request that it would pass on is Etmpfail, and none before. A request takes one where its vBucket is
/// asked to open a stream, also where that refuses: not where the connection refuses for its own reason,
/// or has a stream of the vBucket that is still to end.
pub fn judged_stream_numbers()
    ensures spent { LawfulAsked (that_opened (2 ^ 32 - 1) (requesting 0 all_changes)) (asked all_changes (ask_answer.Refuse 134)) }
    ensures spent_goes { LawfulAsked (that_opened (2 ^ 32 - 1) (requesting 0 all_changes)) (asked all_changes ask_answer.Go) → ⊥ }
    ensures last { LawfulAsked (that_opened (2 ^ 32 - 2) (requesting 0 all_changes)) (asked all_changes ask_answer.Go) }
    ensures last_refused { LawfulAsked (that_opened (2 ^ 32 - 2) (requesting 0 all_changes)) (asked all_changes (ask_answer.Refuse 134)) → ⊥ }
    ensures takes { opened_after open_setup None all_changes 5 ≡ 6 }
    ensures over { opened_after open_setup (Some (finished put_two)) all_changes 5 ≡ 6 }
    ensures held { opened_after open_setup (Some put_two) all_changes 5 ≡ 5 }
    ensures flags { opened_after open_setup None flagged 5 ≡ 5 }
    ensures unopened { opened_after no_setup None all_changes 5 ≡ 5 }
    ensures none_left { opened_after open_setup None all_changes (2 ^ 32 - 1) ≡ 2 ^ 32 - 1 }
{}

/// A stream is shown durable writes exactly where, before its request, the open connection asked for them
/// last and gave a name: not where one of the two lacks, comes before OPEN or behind the request, is
/// taken back, or has no value that it may have, as a name of 251 bytes; and not behind OPEN with other
/// flags. A second OPEN takes nothing back.
pub fn judged_client_setups()
    ensures both { AsksSync (opening 1 ++ syncing (codes "true") ++ naming (codes "x") ++ requesting 0 all_changes) true }
    ensures neither { AsksSync (opening 1 ++ requesting 0 all_changes) false }
    ensures sync { AsksSync (opening 1 ++ syncing (codes "true") ++ requesting 0 all_changes) false }
    ensures name { AsksSync (opening 1 ++ naming (codes "x") ++ requesting 0 all_changes) false }
    ensures early { AsksSync (syncing (codes "true") ++ opening 1 ++ naming (codes "x") ++ requesting 0 all_changes) false }
    ensures late { AsksSync (opening 1 ++ naming (codes "x") ++ requesting 0 all_changes ++ syncing (codes "true")) false }
    ensures back { AsksSync (opening 1 ++ syncing (codes "true") ++ naming (codes "x") ++ syncing (codes "false") ++ requesting 0 all_changes) false }
    ensures empty { AsksSync (opening 1 ++ syncing (codes "true") ++ naming [] ++ requesting 0 all_changes) false }
    ensures word { AsksSync (opening 1 ++ syncing (codes "yes") ++ naming (codes "x") ++ requesting 0 all_changes) false }
    ensures consumer { AsksSync (opening 0 ++ syncing (codes "true") ++ naming (codes "x") ++ requesting 0 all_changes) false }
    ensures second { AsksSync (opening 1 ++ syncing (codes "true") ++ naming (codes "x") ++ opening 1 ++ requesting 0 all_changes) true }
    ensures flags { AsksSync (opening 3 ++ syncing (codes "true") ++ naming (codes "x") ++ requesting 0 all_changes) false }
    ensures long { AsksSync (opening 1 ++ syncing (codes "true") ++ naming (replicate 251 120) ++ requesting 0 all_changes) false }
{}

/// An indexer's story, whole: it opens its connection, asks for durable writes, gives its name and asks
/// for the changes up to the second; and its pull puts the marker, both items, and the end, each with its
/// frame. Without the second change, or with the first one again in its place, that is not lawful.
pub fn judged_client_stories()
    ensures story { LawfulStory (indexed all_lines) }
    ensures without { LawfulStory (indexed (marked 0 0 2 ++ sent 0 one_change ++ ended 0 0)) → ⊥ }
    ensures again { LawfulStory (indexed (marked 0 0 2 ++ sent 0 one_change ++ sent 0 one_change ++ ended 0 0)) → ⊥ }
{}

/// A client's pull is answered by what it puts, over an open connection, and tells of its own streams
/// alone: of each frame by its line and the frame behind that, never by one of the two. It is idle where
/// each stream was put all that its vBucket holds and it is shown; not with a change or an item left, not
/// where the stream's end is due, and not at a vBucket that is not active. One that is over, or that its
/// client closes, counts for nothing.
pub fn judged_client_pulls()
    ensures counted { LawfulPulled two (with_streams (one (fresh true (up_to 2)))) (puts 4 all_lines) }
    ensures miscounted { LawfulPulled two (with_streams (one (fresh true (up_to 2)))) (puts 3 all_lines) → ⊥ }
    ensures other { LawfulPulled two (with_streams (one (fresh true all_changes))) (puts 1 other_marked) → ⊥ }
    ensures more { LawfulPulled two (with_streams (one (fresh true all_changes))) (puts 1 (marked 0 0 2 ++ untold)) → ⊥ }
    ensures reply { LawfulPulled two (with_streams none) (puts 0 untold) → ⊥ }
    ensures no_reply { LawfulPulled two (with_streams (one (fresh true all_changes))) (puts 1 unframed) → ⊥ }
    ensures shut { LawfulPulled two (with_streams none) ([], answer.No cause.LinkClosed) → ⊥ }
    ensures carried { LawfulPulled two (with_streams none) ([], answer.Ok) → ⊥ }
    ensures no_stream { LawfulPulled two (with_streams none) idle }
    ensures put { LawfulPulled two (with_streams (one (inside true all_changes two 0 2 (first_item ∷ next_item ∷ [])))) idle }
    ensures unput { LawfulPulled two (with_streams (one (fresh true all_changes))) idle → ⊥ }
    ensures left { LawfulPulled three (with_streams (one put_two)) idle → ⊥ }
    ensures part { LawfulPulled two (with_streams (one (inside true all_changes two 0 2 (first_item ∷ [])))) idle → ⊥ }
    ensures due { LawfulPulled two (with_streams (one (inside true (up_to 2) two 0 2 (first_item ∷ next_item ∷ [])))) idle → ⊥ }
    ensures turns { LawfulPulled two (with_streams (one (moved (inside true all_changes two 0 2 (first_item ∷ next_item ∷ []))))) idle → ⊥ }
    ensures inactive { LawfulHere (resting two (with_streams (one (inside true all_changes two 0 2 (first_item ∷ next_item ∷ []))))) pulls idle → ⊥ }
    ensures over { LawfulPulled two (with_streams (one (finished (fresh true all_changes)))) idle }
    ensures closed { LawfulPulled two (that_asked (one (fresh true all_changes)) (closing 0)) idle }
    ensures prepare { LawfulPulled pending (with_streams (one (inside true all_changes pending 0 1 (first_item ∷ [])))) idle → ⊥ }
    ensures plain_prepare { LawfulPulled pending (with_streams (one (inside false all_changes pending 0 1 (first_item ∷ [])))) idle }
{}

/// A client's pull waits for what is to be saved only where one of its streams does, of which the vBucket
/// counts changes as saved above its place, and where no other one has a frame to put: each was put its
/// snapshot to the end, and was put all or waits too.
pub fn judged_waiting_pulls()
    ensures waits { LawfulWaits 2 two (one (fresh true all_changes)) }
    ensures unsaved { LawfulWaits 0 two (one (fresh true all_changes)) → ⊥ }
    ensures all_put { LawfulWaits 2 two (one (inside true all_changes two 0 2 (first_item ∷ next_item ∷ []))) → ⊥ }
    ensures part { LawfulWaits 3 three (one (inside true all_changes three 0 2 (first_item ∷ []))) → ⊥ }
    ensures due { LawfulWaits 3 three (one (put_three (up_to 2))) → ⊥ }
    ensures turns { LawfulWaits 3 three (one (moved put_two)) → ⊥ }
    ensures over { LawfulWaits 2 two (one (finished (fresh true all_changes))) → ⊥ }
    ensures none { LawfulWaits 2 two none → ⊥ }
    ensures other_put { LawfulWaits 2 two (both (fresh true all_changes) (inside true all_changes two 0 2 (first_item ∷ next_item ∷ []))) }
    ensures other_left { LawfulWaits 2 two (both (fresh true all_changes) (inside true all_changes two 0 2 (first_item ∷ []))) → ⊥ }
{}

/// A client's pull ends for a journal where one of its streams goes on from one that is closed, and the
/// vBucket counts changes above the stream's place as saved: whatever the other streams have. It is not
/// where the journal is open, where nothing above the place counts as saved, inside a snapshot, where the
/// stream's own end is due, where its vBucket got a role, where it is over, where no stream is there, nor
/// where the window is shut.
pub fn judged_unread_pulls()
    ensures unread { LawfulUnread true 2 two (with_streams (one (fresh true all_changes))) }
    ensures opened { LawfulUnread false 2 two (with_streams (one (fresh true all_changes))) → ⊥ }
    ensures unsaved { LawfulUnread true 0 two (with_streams (one (fresh true all_changes))) → ⊥ }
    ensures all_put { LawfulUnread true 2 two (with_streams (one (inside true all_changes two 0 2 (first_item ∷ next_item ∷ [])))) → ⊥ }
    ensures part { LawfulUnread true 3 three (with_streams (one (inside true all_changes three 0 2 (first_item ∷ [])))) → ⊥ }
    ensures due { LawfulUnread true 3 three (with_streams (one (put_three (up_to 2)))) → ⊥ }
    ensures turns { LawfulUnread true 3 three (with_streams (one (moved put_two))) → ⊥ }
    ensures over { LawfulUnread true 2 two (with_streams (one (finished (fresh true all_changes)))) → ⊥ }
    ensures none { LawfulUnread true 2 two (with_streams none) → ⊥ }
    ensures shut { LawfulUnread true 2 two (with_window 100 100 [] (one (fresh true all_changes))) → ⊥ }
    ensures other_left { LawfulUnread true 2 two (with_streams (both (fresh true all_changes) (inside true all_changes two 0 2 (first_item ∷ [])))) }
{}

/// A frame of a client's stream goes only while its connection's window has less outstanding than its
/// size, or no size, and is outstanding then, whole. CONTROL of an open connection gives the window its
/// size, and what is acknowledged is outstanding no more, once its frame was served; not while that waits
/// behind a durable write. A pull is full only where the window is shut, and idle or waiting only where
/// it is not.
pub fn judged_client_windows()
    ensures less { LawfulAsked (with_window 100 99 [] (one (fresh true all_changes))) (marked 0 0 2) }
    ensures shut { LawfulAsked (with_window 100 100 [] (one (fresh true all_changes))) (marked 0 0 2) → ⊥ }
    ensures no_size { LawfulAsked (with_window 0 100 [] (one (fresh true all_changes))) (marked 0 0 2) }
    ensures counted { LawfulAsked (with_window 44 0 [] (one (fresh true all_changes))) (marked 0 0 2 ++ sent 0 one_change) → ⊥ }
    ensures item { LawfulAsked (with_window 100 100 [] (one (inside true all_changes two 0 2 []))) (sent 0 one_change) → ⊥ }
    ensures end { LawfulAsked (with_window 100 100 [] (one (put_three (up_to 2)))) (ended 0 0) → ⊥ }
    ensures acked { LawfulAsked (with_window 100 100 (acking 1) (one (fresh true all_changes))) (marked 0 0 2) }
    ensures acked_waits { LawfulAsked (with_window_waiting 100 100 (acking 1) (one (fresh true all_changes))) (marked 0 0 2) → ⊥ }
    ensures sized { LawfulAsked (with_window 0 100 (sizing (codes "100")) (one (fresh true all_changes))) (marked 0 0 2) → ⊥ }
    ensures no_longer { LawfulAsked (with_window 100 100 (sizing (codes "0")) (one (fresh true all_changes))) (marked 0 0 2) }
    ensures full { LawfulPulled two (with_window 100 100 [] none) full_now }
    ensures full_open { LawfulPulled two (with_window 100 99 [] none) full_now → ⊥ }
    ensures idle_shut { LawfulPulled two (with_window 100 100 [] none) idle → ⊥ }
    ensures waits_shut { LawfulPulled two (with_window 100 100 [] none) waiting_now → ⊥ }
{}

/// No frame of a stream comes once a CLOSE_STREAM of its vBucket was served: no marker, no item and no
/// end. One of another vBucket closes nothing; and one that waits behind a durable write is not served
/// yet: the stream's frames may go on, and a pull that leaves it something is not idle.
pub fn judged_closed_streams()
    ensures marker { LawfulAsked (that_asked (one (fresh true all_changes)) (closing 0)) (marked 0 0 2) → ⊥ }
    ensures item { LawfulAsked (that_asked (one (inside true all_changes two 0 2 [])) (closing 0)) (sent 0 one_change) → ⊥ }
    ensures end { LawfulAsked (that_asked (one (put_three (up_to 2))) (closing 0)) (ended 0 0) → ⊥ }
    ensures behind { LawfulAsked (that_sent (one (fresh true all_changes)) (closing 0)) (closes_first ∷ marked 0 0 2) → ⊥ }
    ensures other { LawfulAsked (that_asked (one (fresh true all_changes)) (closing 1)) (marked 0 0 2) }
    ensures waits { LawfulAsked (that_sent (one (fresh true all_changes)) (durable_bytes ++ closing 0)) (marked 0 0 2) }
    ensures left { LawfulPulled two (that_sent (one (fresh true all_changes)) (durable_bytes ++ closing 0)) idle → ⊥ }
{}

/// The streams of clients are those of their vBuckets: not one that a client's producer has and the vBucket
/// lacks, and not one that a client and a link have, or two clients.
pub fn judged_fed_clients()
    ensures unopened { (stream : PlainStream) → GoesOn stream → StreamsAreFed (two_nodes (has_clients [] (stream ∷ []) []) up []) → ⊥ }
    ensures with_link { (ask : StreamAsk) (stream : PlainStream) → GoesOn stream → (s : Stream) → StreamsAreFed (two_nodes (has_clients (s ∷ []) (stream ∷ []) []) (has_one role.Replica) (streaming 1 ask stream ∷ [])) → ⊥ }
    ensures twice { (stream : PlainStream) → GoesOn stream → (s : Stream) → StreamsAreFed (two_nodes (has_clients (s ∷ []) (stream ∷ []) (stream ∷ [])) up []) → ⊥ }
{}

/// A pull tells of frames of its own client's streams and of nothing else, and no other line of them:
/// not bytes, nor a hang, nor a link's pump. A request of a client for a stream is answered where bytes
/// come, or behind a durable write, and not by a hang. No vBucket follows a client's stream, acknowledges
/// on it, or counts what came on it.
pub fn judged_client_tellings()
    ensures pull_change { MayNotTell pulls changes_here }
    ensures pull_ask { (ask : StreamAsk) → MayNotTell pulls (client_asks 1 ask) }
    ensures pull_link { MayNotTell pulls (marks_of 1) }
    ensures pull_close { MayNotTell pulls (closes 0 1) }
    ensures pull_other { MayNotTell pulls (client_marks 2) }
    ensures pull_reply { (bytes : List ℕ) → MayNotTell pulls (event.Reply 0 2 bytes) }
    ensures bytes_mark { MayNotTell sends_none (client_marks 1) }
    ensures bytes_end { MayNotTell sends_none (client_ends 1) }
    ensures tick_mark { MayNotTell ticks (client_marks 1) }
    ensures pump_mark { MayNotTell pump_one (client_marks 1) }
    ensures up_mark { MayNotTell up_one (client_marks 1) }
    ensures hang_ask { (ask : StreamAsk) → MayNotTell hangs_up (client_asks 1 ask) }
    ensures pump_ask { (ask : StreamAsk) → MayNotTell pump_one (client_asks 1 ask) }
    ensures tick_ask { LawfulHere (serving two (that_sent none (requesting 0 all_changes))) ticks (ok (asked all_changes ask_answer.Go)) }
    ensures gives { (told : Chronicle) → LawfulFrom told (client_gives ∷ []) → ⊥ }
    ensures hears { (told : Chronicle) → LawfulFrom told (client_hears ∷ []) → ⊥ }
    ensures counts { (told : Chronicle) → LawfulFrom told (client_counts ∷ []) → ⊥ }
{}
