//! What a transcript tells clients in answer to what they asked, lawfully or not.

ghost use Rattle.std.specs.Prelude.{List, [], ◌∷◌, ◌++◌, ◌^◌, ◌-◌, take, drop, None};
ghost use Rattle.mcbp_dcp.specs.declared.message.DcpMsg.TheVariants as msg;
ghost use Rattle.mcbp_kv.specs.Answers.{bare_answer, seqno_extras};
ghost use Rattle.mcbp_kv.specs.Replies.{reply_frame};
ghost use Rattle.mcbp_kv.specs.declared.feature.Feature.TheVariants as feature;
ghost use Rattle.mcbp_kv.specs.declared.opcodes.TheConstants.{ADD, DELETE, GET, HELLO, NOOP, REPLACE, SET};
ghost use Rattle.mcbp_frame.specs.declared.frame.TheConstants.{REQUEST};
ghost use Rattle.transcript_law.specs.AnswerRows.{LawfulAmong, LawfulAwaited, LawfulAwaitedBy, LawfulAway, LawfulBehind, LawfulBy, LawfulFar, LawfulNext, LawfulOver, LawfulRisen, LawfulStarted, LawfulStill, LawfulTicks, LawfulTo, LawfulUnmade, acknowledges, answers, broken, changing, comes, durably, durably_removes, finds, finds_raw, for_json, for_seqnos, formless, gets, greets, json_doc, json_once, makes, makes_elsewhere, makes_far, newer, newer_doc, once, over_prepare, prepared_at, prepared_line, removal, removes, responds, says, sends, set_at, shuts, shuts_other, stores, strange, unknown, vast, welcomes, writes};
ghost use Rattle.transcript_law.specs.ClientAskRows.{opening, replies as replied, sends_none, ticks};
ghost use Rattle.transcript_law.specs.ClientRows.{LawfulOpened, asks, hangs, noop, nooped, opens, replies, waits};
ghost use Rattle.transcript_law.specs.ClientStreamRows.{committed, durable, pending, prepared, turned};
ghost use Rattle.transcript_law.specs.Crashes.{ok};
ghost use Rattle.transcript_law.specs.Followers.{next_change};
ghost use Rattle.transcript_law.specs.Transcripts.{first_doc, one_change};
ghost use Rattle.transcript_law.specs.UnsureRows.{LawfulAnew, LawfulGone, LawfulGoneBy, LawfulGoneTold, LawfulLate, LawfulTold, LawfulToldBy, aborted, durably_within, gave_up, had_committed, half_a_minute, prepared_when, unknown_set};
ghost use Rattle.vb_types.specs.declared.role.Role.TheVariants.{Dead, Replica};
ghost use Rattle.vb_types.specs.declared.status.Status.TheVariants as status;

/// A client is answered the next frame that it sent, with its opcode and opaque, in a response, and once:
/// not one of which only part came, and not a later one first. A response that it sent is passed over,
/// and so is an acknowledgement of bytes over a connection that is open for a producer; before that it is
/// answered.
pub fn judged_questions()
    ensures next { LawfulTo [] (noop 9) (answers 9 ∷ []) }
    ensures opaque { LawfulTo [] (noop 9) (answers 8 ∷ []) → ⊥ }
    ensures opcode { LawfulTo [] (noop 9) (says HELLO status.Success ∷ []) → ⊥ }
    ensures magic { LawfulTo [] (noop 9) (sends (record (reply_frame (bare_answer NOOP status.Success 9)) { magic = REQUEST }) ∷ []) → ⊥ }
    ensures unasked { LawfulTo [] [] (answers 9 ∷ []) → ⊥ }
    ensures part { LawfulTo [] (take 23 (noop 9)) (answers 9 ∷ []) → ⊥ }
    ensures twice { LawfulTo [] (noop 9) (answers 9 ∷ answers 9 ∷ []) → ⊥ }
    ensures in_turn { LawfulTo [] (noop 8 ++ noop 9) (answers 8 ∷ answers 9 ∷ []) }
    ensures out_of_turn { LawfulTo [] (noop 8 ++ noop 9) (answers 9 ∷ answers 8 ∷ []) → ⊥ }
    ensures response { LawfulTo [] responds (answers 8 ∷ []) → ⊥ }
    ensures past_response { LawfulTo [] (responds ++ noop 9) (answers 9 ∷ []) }
    ensures past_both { LawfulTo [] (responds ++ noop 8 ++ noop 9) (answers 8 ∷ answers 9 ∷ []) }
    ensures acknowledged { LawfulOver acknowledges (replied (msg.OpenAnswer 4) 9 ∷ []) → ⊥ }
    ensures past_acknowledged { LawfulOver (acknowledges ++ noop 9) (answers 9 ∷ []) }
    ensures unopened { LawfulTo [] (acknowledges ++ noop 9) (says 93 status.Einval ∷ answers 9 ∷ []) }
    ensures past_unopened { LawfulTo [] (acknowledges ++ noop 9) (answers 9 ∷ []) → ⊥ }
    ensures opened { LawfulTo [] (opening 1 ++ acknowledges ++ noop 9) (replied (msg.OpenAnswer 0) 1 ∷ answers 9 ∷ []) }
{}

/// GET gets the document that its vBucket holds, whole: not another value or CAS, not the document before
/// the last change, and not that of a prepare. KeyEnoent is for a key without one, and NotMyVbucket for a
/// vBucket that is not active, and each is for nothing else. A document is told to be JSON to a client that
/// asked for this, and to no other. At a key where nothing waits it is not refused as left undone. None is
/// answered behind a set that waits for its answer.
pub fn judged_reads()
    ensures found { LawfulTo once (gets 0 7) (finds (first_doc 1 (8 ∷ [])) ∷ []) }
    ensures value { LawfulTo once (gets 0 7) (finds (first_doc 1 (9 ∷ [])) ∷ []) → ⊥ }
    ensures cas { LawfulTo once (gets 0 7) (finds (first_doc 2 (8 ∷ [])) ∷ []) → ⊥ }
    ensures key { LawfulTo once (gets 0 9) (finds (first_doc 1 (8 ∷ [])) ∷ []) → ⊥ }
    ensures newest { LawfulTo (one_change ∷ newer ∷ []) (gets 0 7) (finds newer_doc ∷ []) }
    ensures older { LawfulTo (one_change ∷ newer ∷ []) (gets 0 7) (finds (first_doc 1 (8 ∷ [])) ∷ []) → ⊥ }
    ensures prepare { LawfulTo pending (gets 0 9) (finds (first_doc 2 (6 ∷ [])) ∷ []) → ⊥ }
    ensures beside_prepare { LawfulTo pending (gets 0 9) (says GET status.KeyEnoent ∷ []) }
    ensures nothing_undone { LawfulTo once (gets 0 7) (says GET status.SyncWriteReCommitInProgress ∷ []) → ⊥ }
    ensures none { LawfulTo once (gets 0 9) (says GET status.KeyEnoent ∷ []) }
    ensures not_none { LawfulTo once (gets 0 7) (says GET status.KeyEnoent ∷ []) → ⊥ }
    ensures away { LawfulAway once (gets 0 7) (says GET status.NotMyVbucket ∷ []) }
    ensures away_found { LawfulAway once (gets 0 7) (finds (first_doc 1 (8 ∷ [])) ∷ []) → ⊥ }
    ensures unmade { LawfulUnmade (gets 0 7) (says GET status.NotMyVbucket ∷ []) }
    ensures unmade_found { LawfulUnmade (gets 0 7) (finds (first_doc 1 (8 ∷ [])) ∷ []) → ⊥ }
    ensures active { LawfulTo once (gets 0 7) (says GET status.NotMyVbucket ∷ []) → ⊥ }
    ensures raw { LawfulTo json_once (gets 0 7) (finds_raw json_doc ∷ []) }
    ensures raw_json { LawfulTo json_once (gets 0 7) (finds json_doc ∷ []) → ⊥ }
    ensures json { LawfulBy for_json json_once (gets 0 7) (finds json_doc ∷ []) }
    ensures json_raw { LawfulBy for_json json_once (gets 0 7) (finds_raw json_doc ∷ []) → ⊥ }
    ensures behind_set { LawfulTo once (gets 0 7) (makes newer ∷ finds newer_doc ∷ []) → ⊥ }
{}

/// A write is told made behind its own change alone: the last one that was told, of its vBucket, key and
/// document, with its CAS; once for one change. The branch and the seqno are told, rightly, to a client
/// that asked for them, and to no other.
pub fn judged_writes()
    ensures made { LawfulTo [] (writes SET 0 7 8) (makes one_change ∷ stores SET 1 [] ∷ []) }
    ensures unmade { LawfulTo [] (writes SET 0 7 8) (stores SET 1 [] ∷ []) → ⊥ }
    ensures cas { LawfulTo [] (writes SET 0 7 8) (makes one_change ∷ stores SET 2 [] ∷ []) → ⊥ }
    ensures key { LawfulTo [] (writes SET 0 9 8) (makes one_change ∷ stores SET 1 [] ∷ []) → ⊥ }
    ensures value { LawfulTo [] (writes SET 0 7 9) (makes one_change ∷ stores SET 1 [] ∷ []) → ⊥ }
    ensures elsewhere { LawfulTo [] (writes SET 0 7 8) (makes_elsewhere one_change ∷ stores SET 1 [] ∷ []) → ⊥ }
    ensures far { LawfulTo [] (writes SET 0 7 8) (makes_far one_change ∷ stores SET 1 [] ∷ []) → ⊥ }
    ensures twice { LawfulTo [] (writes SET 0 7 8 ++ writes SET 0 7 8) (makes one_change ∷ stores SET 1 [] ∷ stores SET 1 [] ∷ []) → ⊥ }
    ensures each { LawfulTo [] (writes SET 0 7 8 ++ writes SET 0 9 6) (makes one_change ∷ stores SET 1 [] ∷ makes next_change ∷ stores SET 2 [] ∷ []) }
    ensures late { LawfulTo [] (writes SET 0 7 8 ++ writes SET 0 9 6) (makes one_change ∷ makes next_change ∷ stores SET 1 [] ∷ []) → ⊥ }
    ensures seqnos { LawfulBy for_seqnos [] (writes SET 0 7 8) (makes one_change ∷ stores SET 1 (seqno_extras 5 1) ∷ []) }
    ensures untold { LawfulBy for_seqnos [] (writes SET 0 7 8) (makes one_change ∷ stores SET 1 [] ∷ []) → ⊥ }
    ensures branch { LawfulBy for_seqnos [] (writes SET 0 7 8) (makes one_change ∷ stores SET 1 (seqno_extras 6 1) ∷ []) → ⊥ }
    ensures seqno { LawfulBy for_seqnos [] (writes SET 0 7 8) (makes one_change ∷ stores SET 1 (seqno_extras 5 2) ∷ []) → ⊥ }
    ensures unasked { LawfulTo [] (writes SET 0 7 8) (makes one_change ∷ stores SET 1 (seqno_extras 5 1) ∷ []) → ⊥ }
    ensures fits { LawfulTo once (writes SET 1 7 4) (makes newer ∷ stores SET 2 [] ∷ []) }
    ensures unfit { LawfulTo once (writes SET 3 7 4) (makes newer ∷ stores SET 2 [] ∷ []) → ⊥ }
    ensures adds { LawfulTo [] (writes ADD 0 7 8) (makes one_change ∷ stores ADD 1 [] ∷ []) }
    ensures adds_again { LawfulTo once (writes ADD 0 7 4) (makes newer ∷ stores ADD 2 [] ∷ []) → ⊥ }
    ensures replaces { LawfulTo once (writes REPLACE 0 7 4) (makes newer ∷ stores REPLACE 2 [] ∷ []) }
    ensures replaces_none { LawfulTo [] (writes REPLACE 0 7 8) (makes one_change ∷ stores REPLACE 1 [] ∷ []) → ⊥ }
    ensures removed { LawfulTo once (removes 7) (makes removal ∷ stores DELETE 2 [] ∷ []) }
    ensures prepared { LawfulTo once (writes SET 0 9 6) (makes prepared ∷ stores SET 2 [] ∷ []) → ⊥ }
    ensures locked { LawfulTo pending (writes SET 0 9 4) (makes over_prepare ∷ stores SET 3 [] ∷ []) → ⊥ }
{}

/// A write is refused for its own reason alone: KeyEexists and KeyEnoent where the key's document, or that
/// there is none, does not let it; SyncWriteInProgress where a prepare waits there; NotMyVbucket, and
/// nothing else, where its vBucket is not active; and Etmpfail where an active one has no seqno left for it,
/// beside one for each prepare that waits, and no more: the last is 2^48. One that is refused made no change.
pub fn judged_refused_writes()
    ensures fits { LawfulTo once (writes SET 1 7 4) (says SET status.KeyEexists ∷ []) → ⊥ }
    ensures unfit { LawfulTo once (writes SET 3 7 4) (says SET status.KeyEexists ∷ []) }
    ensures unfit_other { LawfulTo once (writes SET 3 7 4) (says SET status.KeyEnoent ∷ []) → ⊥ }
    ensures adds { LawfulTo [] (writes ADD 0 7 8) (says ADD status.KeyEexists ∷ []) → ⊥ }
    ensures adds_again { LawfulTo once (writes ADD 0 7 4) (says ADD status.KeyEexists ∷ []) }
    ensures replaces { LawfulTo once (writes REPLACE 0 7 4) (says REPLACE status.KeyEnoent ∷ []) → ⊥ }
    ensures replaces_none { LawfulTo [] (writes REPLACE 0 7 8) (says REPLACE status.KeyEnoent ∷ []) }
    ensures removes_none { LawfulTo [] (removes 7) (says DELETE status.KeyEnoent ∷ []) }
    ensures other { LawfulTo [] (writes SET 0 7 8) (says SET status.KeyEnoent ∷ []) → ⊥ }
    ensures success { LawfulTo once (writes ADD 0 7 4) (says ADD status.Success ∷ []) → ⊥ }
    ensures active { LawfulTo [] (writes SET 0 7 8) (says SET status.NotMyVbucket ∷ []) → ⊥ }
    ensures away { LawfulAway [] (writes SET 0 7 8) (says SET status.NotMyVbucket ∷ []) }
    ensures away_other { LawfulAway once (writes ADD 0 7 4) (says ADD status.KeyEexists ∷ []) → ⊥ }
    ensures away_full { LawfulAway [] (writes SET 0 7 8) (says SET status.Etmpfail ∷ []) → ⊥ }
    ensures locked { LawfulTo pending (writes SET 0 9 4) (says SET status.SyncWriteInProgress ∷ []) }
    ensures locked_other { LawfulTo pending (writes REPLACE 0 9 4) (says REPLACE status.KeyEnoent ∷ []) → ⊥ }
    ensures unlocked { LawfulTo pending (writes SET 0 7 4) (says SET status.SyncWriteInProgress ∷ []) → ⊥ }
    ensures full { LawfulTo (set_at (2 ^ 48)) (writes SET 0 9 8) (says SET status.Etmpfail ∷ []) }
    ensures full_beside { LawfulTo (prepared_at (2 ^ 48 - 1)) (writes SET 0 7 4) (says SET status.Etmpfail ∷ []) }
    ensures full_early { LawfulTo (set_at (2 ^ 48 - 1)) (writes SET 0 9 8) (says SET status.Etmpfail ∷ []) → ⊥ }
    ensures full_twice { LawfulTo (prepared_at (2 ^ 48 - 2)) (writes SET 0 7 4) (says SET status.Etmpfail ∷ []) → ⊥ }
    ensures full_first { LawfulTo [] (writes SET 0 7 8) (says SET status.Etmpfail ∷ []) → ⊥ }
    ensures made { LawfulTo [] (writes SET 0 7 8) (makes one_change ∷ says SET status.Etmpfail ∷ []) → ⊥ }
    ensures removed { LawfulTo once (removes 7) (makes removal ∷ says DELETE status.Etmpfail ∷ []) → ⊥ }
{}

/// Where a prepare waits at a key that stood there when its vBucket became active, by a promotion or a
/// start, a read is refused as left undone, SyncWriteReCommitInProgress, and told neither the document nor
/// that there is none, until it is committed again; and so is a write refused, also a durable one, and not
/// as SyncWriteInProgress. At other keys, and where the vBucket made the prepare since, the read is told
/// the document before it, or that there is none; and the write is refused as SyncWriteInProgress, and
/// neither as left undone.
pub fn judged_left_prepares()
    ensures left { LawfulRisen pending [] (gets 0 9) (says GET status.SyncWriteReCommitInProgress ∷ []) }
    ensures left_none { LawfulRisen pending [] (gets 0 9) (says GET status.KeyEnoent ∷ []) → ⊥ }
    ensures left_over { LawfulRisen changing [] (gets 0 7) (says GET status.SyncWriteReCommitInProgress ∷ []) }
    ensures left_found { LawfulRisen changing [] (gets 0 7) (finds (first_doc 1 (8 ∷ [])) ∷ []) → ⊥ }
    ensures beside_left { LawfulRisen pending [] (gets 0 7) (finds (first_doc 1 (8 ∷ [])) ∷ []) }
    ensures since_none { LawfulRisen once (prepared ∷ []) (gets 0 9) (says GET status.KeyEnoent ∷ []) }
    ensures since { LawfulRisen once (prepared ∷ []) (gets 0 9) (says GET status.SyncWriteReCommitInProgress ∷ []) → ⊥ }
    ensures own_none { LawfulTo pending (gets 0 9) (says GET status.SyncWriteReCommitInProgress ∷ []) → ⊥ }
    ensures own_found { LawfulTo changing (gets 0 7) (finds (first_doc 1 (8 ∷ [])) ∷ []) }
    ensures own_over { LawfulTo changing (gets 0 7) (says GET status.SyncWriteReCommitInProgress ∷ []) → ⊥ }
    ensures again_found { LawfulRisen pending (committed ∷ []) (gets 0 9) (finds (first_doc 2 (6 ∷ [])) ∷ []) }
    ensures again { LawfulRisen pending (committed ∷ []) (gets 0 9) (says GET status.SyncWriteReCommitInProgress ∷ []) → ⊥ }
    ensures started { LawfulStarted pending (gets 0 9) (says GET status.SyncWriteReCommitInProgress ∷ []) }
    ensures started_none { LawfulStarted pending (gets 0 9) (says GET status.KeyEnoent ∷ []) → ⊥ }
    ensures left_set { LawfulRisen pending [] (writes SET 0 9 4) (says SET status.SyncWriteReCommitInProgress ∷ []) }
    ensures left_locked { LawfulRisen pending [] (writes SET 0 9 4) (says SET status.SyncWriteInProgress ∷ []) → ⊥ }
    ensures since_set { LawfulRisen once (prepared ∷ []) (writes SET 0 9 4) (says SET status.SyncWriteReCommitInProgress ∷ []) → ⊥ }
    ensures since_locked { LawfulRisen once (prepared ∷ []) (writes SET 0 9 4) (says SET status.SyncWriteInProgress ∷ []) }
    ensures own_set { LawfulTo pending (writes SET 0 9 4) (says SET status.SyncWriteReCommitInProgress ∷ []) → ⊥ }
    ensures left_durable { LawfulRisen pending [] (durably 1 9 4) (says SET status.SyncWriteReCommitInProgress ∷ []) }
    ensures left_durable_locked { LawfulRisen pending [] (durably 1 9 4) (says SET status.SyncWriteInProgress ∷ []) → ⊥ }
    ensures own_durable { LawfulTo pending (durably 1 9 4) (says SET status.SyncWriteReCommitInProgress ∷ []) → ⊥ }
{}

/// A durable write is refused as impossible where its chain can have no majority, before any reason of
/// its key, and only there. No other write is answered so, nor that nobody knows its outcome. The
/// first one of a connection is not refused with Etmpfail, at whatever vBucket.
pub fn judged_durables()
    ensures impossible { LawfulAmong (None ∷ []) [] (durably 1 7 8) (says SET status.DurabilityImpossible ∷ []) }
    ensures possible { LawfulTo [] (durably 1 7 8) (says SET status.DurabilityImpossible ∷ []) → ⊥ }
    ensures impossible_first { LawfulAmong (None ∷ []) pending (durably 1 9 4) (says SET status.DurabilityImpossible ∷ []) }
    ensures locked_first { LawfulAmong (None ∷ []) pending (durably 1 9 4) (says SET status.SyncWriteInProgress ∷ []) → ⊥ }
    ensures locked { LawfulTo pending (durably 1 9 4) (says SET status.SyncWriteInProgress ∷ []) }
    ensures plain_locked { LawfulAmong (None ∷ []) pending (writes SET 0 9 4) (says SET status.SyncWriteInProgress ∷ []) }
    ensures plain_impossible { LawfulAmong (None ∷ []) [] (writes SET 0 7 8) (says SET status.DurabilityImpossible ∷ []) → ⊥ }
    ensures plain_ambiguous { LawfulTo [] (writes SET 0 7 8) (says SET status.SyncWriteAmbiguous ∷ []) → ⊥ }
    ensures away { LawfulAway [] (durably 1 7 8) (says SET status.NotMyVbucket ∷ []) }
    ensures active { LawfulTo [] (durably 1 7 8) (says SET status.NotMyVbucket ∷ []) → ⊥ }
    ensures other { LawfulTo [] (durably 1 7 8) (says SET status.KeyEnoent ∷ []) → ⊥ }
    ensures early { LawfulTo [] (durably 1 7 8) (says SET status.Etmpfail ∷ []) → ⊥ }
    ensures early_away { LawfulAway [] (durably 1 7 8) (says SET status.Etmpfail ∷ []) → ⊥ }
    ensures no_level { LawfulTo [] (durably 4 7 8) (says SET status.DurabilityInvalidLevel ∷ []) }
    ensures level { LawfulTo [] (durably 3 7 8) (says SET status.DurabilityInvalidLevel ∷ []) → ⊥ }
{}

/// A connection has a number for each of 4,294,967,295 durable writes. Those before it are not refused
/// with Etmpfail for want of one, and the next one is, at whatever vBucket and whatever else there is to
/// refuse it for. Each durable write counts, however it is answered; no other frame does.
pub fn judged_numbers()
    ensures last { LawfulGone (2 ^ 32 - 2) (durably 1 9 6) (says SET status.SyncWriteAmbiguous ∷ []) }
    ensures last_spent { LawfulBehind (2 ^ 32 - 2) [] (durably 1 7 8) (says SET status.Etmpfail ∷ []) → ⊥ }
    ensures spent { LawfulBehind (2 ^ 32 - 1) [] (durably 1 7 8) (says SET status.Etmpfail ∷ []) }
    ensures spent_unsure { LawfulGone (2 ^ 32 - 1) (durably 1 9 6) (says SET status.SyncWriteAmbiguous ∷ []) → ⊥ }
    ensures spent_locked { LawfulBehind (2 ^ 32 - 1) pending (durably 1 9 4) (says SET status.SyncWriteInProgress ∷ []) → ⊥ }
    ensures spent_far { LawfulFar (2 ^ 32 - 1) (durably 1 7 8) (says SET status.Etmpfail ∷ []) }
    ensures spent_away { LawfulFar (2 ^ 32 - 1) (durably 1 7 8) (says SET status.NotMyVbucket ∷ []) → ⊥ }
    ensures plain { LawfulFar (2 ^ 32 - 1) (writes SET 0 7 8) (says SET status.NotMyVbucket ∷ []) }
    ensures next { LawfulGoneTold (2 ^ 32 - 2) (durably 1 9 6 ++ durably 1 9 6) (says SET status.SyncWriteAmbiguous ∷ says SET status.Etmpfail ∷ []) }
    ensures next_unsure { LawfulGoneTold (2 ^ 32 - 2) (durably 1 9 6 ++ durably 1 9 6) (says SET status.SyncWriteAmbiguous ∷ says SET status.SyncWriteAmbiguous ∷ []) → ⊥ }
    ensures refused { LawfulBehind (2 ^ 32 - 2) pending (durably 1 9 4 ++ durably 1 9 4) (says SET status.SyncWriteInProgress ∷ says SET status.Etmpfail ∷ []) }
    ensures noop { LawfulBehind (2 ^ 32 - 2) pending (noop 9 ++ durably 1 9 4) (answers 9 ∷ says SET status.SyncWriteInProgress ∷ []) }
    ensures noop_spent { LawfulBehind (2 ^ 32 - 2) [] (noop 9 ++ durably 1 7 8) (answers 9 ∷ says SET status.Etmpfail ∷ []) → ⊥ }
    ensures plain_counts { LawfulBehind (2 ^ 32 - 2) pending (writes SET 0 9 4 ++ durably 1 9 4) (says SET status.SyncWriteInProgress ∷ says SET status.SyncWriteInProgress ∷ []) }
{}

/// A durable write is told stored behind a commit of its node alone, with its CAS, and with its branch and
/// seqno to a client that asked for these, and to no other. That commit is of the write that the client
/// asked for: of its key at its vBucket, and of its value or removal, at the level that it asked for; what
/// another write was committed as is none, whatever its CAS. And it names a prepare of the group in which that was to be answered first:
/// not that of an equal write before, nor one that was told before the answer in front. Neither a prepare
/// alone is one, nor is a commit that of a write that is not durable.
pub fn judged_outcomes()
    ensures committed { LawfulAwaited pending (durably 1 9 6) (makes committed ∷ stores SET 2 [] ∷ []) }
    ensures uncommitted { LawfulTo durable (durably 1 9 6) (stores SET 2 [] ∷ []) → ⊥ }
    ensures prepared { LawfulTo once (durably 1 9 6) (makes prepared ∷ stores SET 2 [] ∷ []) → ⊥ }
    ensures cas { LawfulAwaited pending (durably 1 9 6) (makes committed ∷ stores SET 3 [] ∷ []) → ⊥ }
    ensures far { LawfulAwaited pending (durably 1 9 6) (makes_far committed ∷ stores SET 2 [] ∷ []) → ⊥ }
    ensures later { LawfulAwaited pending (durably 1 9 6 ++ durably 1 9 6) (makes committed ∷ stores SET 2 [] ∷ stores SET 2 [] ∷ []) → ⊥ }
    ensures seqnos { LawfulAwaitedBy for_seqnos pending (durably 1 9 6) (makes committed ∷ stores SET 2 (seqno_extras 5 3) ∷ []) }
    ensures untold { LawfulAwaitedBy for_seqnos pending (durably 1 9 6) (makes committed ∷ stores SET 2 [] ∷ []) → ⊥ }
    ensures branch { LawfulAwaitedBy for_seqnos pending (durably 1 9 6) (makes committed ∷ stores SET 2 (seqno_extras 6 3) ∷ []) → ⊥ }
    ensures seqno { LawfulAwaitedBy for_seqnos pending (durably 1 9 6) (makes committed ∷ stores SET 2 (seqno_extras 5 2) ∷ []) → ⊥ }
    ensures unasked { LawfulAwaited pending (durably 1 9 6) (makes committed ∷ stores SET 2 (seqno_extras 5 3) ∷ []) → ⊥ }
    ensures other_key { LawfulAwaited pending (durably 1 7 6) (makes committed ∷ stores SET 2 [] ∷ []) → ⊥ }
    ensures other_vb { LawfulAwaited pending (durably 1 9 6) (makes_elsewhere committed ∷ stores SET 2 [] ∷ []) → ⊥ }
    ensures other_value { LawfulAwaited pending (durably 1 9 7) (makes committed ∷ stores SET 2 [] ∷ []) → ⊥ }
    ensures removal { LawfulAwaited pending (durably_removes 1 9) (makes committed ∷ stores DELETE 2 [] ∷ []) → ⊥ }
    ensures other_level { LawfulAwaited pending (durably 2 9 6) (makes committed ∷ stores SET 2 [] ∷ []) → ⊥ }
    ensures other_prepare { LawfulTo pending (durably 1 9 6) (makes committed ∷ stores SET 2 [] ∷ []) → ⊥ }
    ensures plain { LawfulTo pending (writes SET 0 9 6) (makes committed ∷ stores SET 2 [] ∷ []) → ⊥ }
    ensures plain_uncommitted { LawfulTo durable (writes SET 0 9 6) (stores SET 2 [] ∷ []) → ⊥ }
{}

/// Of a durable write it is told that nobody knows what became of it only where its own prepare, of its
/// key, value and level, was told in the group in which it was to be answered first, and waits no more:
/// its vBucket is not active any more, or gave it up in this group, once the time was over that it asked
/// for, half a minute where it asked for none. Not lawful is that of a prepare that still waits, also
/// where its vBucket became active anew with it; of one that was committed; where another prepare was
/// given up, at another key, vBucket or node, or too early; and of a write that was never prepared.
pub fn judged_unsure()
    ensures dead { LawfulAwaited pending (durably 1 9 6) (turned Dead ∷ unknown_set ∷ []) }
    ensures follows { LawfulAwaited pending (durably 1 9 6) (turned Replica ∷ unknown_set ∷ []) }
    ensures given_up { LawfulTold (gave_up 2 9 half_a_minute ∷ []) (durably 1 9 6) (unknown_set ∷ []) }
    ensures timed { LawfulTold (gave_up 2 9 7000000 ∷ []) (durably_within 7 9 6) (unknown_set ∷ []) }
    ensures last { LawfulToldBy (prepared_when (2 ^ 64 - 2)) (gave_up 2 9 (2 ^ 64 - 1) ∷ []) (durably 1 9 6) (unknown_set ∷ []) }
    ensures waits { LawfulAwaited pending (durably 1 9 6) (unknown_set ∷ []) → ⊥ }
    ensures anew { LawfulAnew (durably 1 9 6) (unknown_set ∷ []) → ⊥ }
    ensures early { LawfulTold (gave_up 2 9 29999999999 ∷ []) (durably 1 9 6) (unknown_set ∷ []) → ⊥ }
    ensures timed_early { LawfulTold (gave_up 2 9 6999999 ∷ []) (durably_within 7 9 6) (unknown_set ∷ []) → ⊥ }
    ensures since { LawfulToldBy (prepared_when 1) (gave_up 2 9 half_a_minute ∷ []) (durably 1 9 6) (unknown_set ∷ []) → ⊥ }
    ensures before_last { LawfulToldBy (prepared_when (2 ^ 64 - 3)) (gave_up 2 9 (2 ^ 64 - 2) ∷ []) (durably 1 9 6) (unknown_set ∷ []) → ⊥ }
    ensures other_prepare { LawfulTold (gave_up 1 9 half_a_minute ∷ []) (durably 1 9 6) (unknown_set ∷ []) → ⊥ }
    ensures other_key { LawfulTold (gave_up 2 7 half_a_minute ∷ []) (durably 1 9 6) (unknown_set ∷ []) → ⊥ }
    ensures other_vb { LawfulTold (record (gave_up 2 9 half_a_minute) { vb = 1 } ∷ []) (durably 1 9 6) (unknown_set ∷ []) → ⊥ }
    ensures other_node { LawfulTold (record (gave_up 2 9 half_a_minute) { node = 1 } ∷ []) (durably 1 9 6) (unknown_set ∷ []) → ⊥ }
    ensures had_commit { LawfulTold (had_committed ∷ []) (durably 1 9 6) (unknown_set ∷ []) → ⊥ }
    ensures unprepared { LawfulTo [] (durably 1 7 8) (unknown_set ∷ []) → ⊥ }
    ensures gone_unprepared { LawfulFar 0 (durably 1 7 8) (unknown_set ∷ []) → ⊥ }
    ensures gone_before { LawfulGone 0 (noop 9 ++ durably 1 9 6) (answers 9 ∷ unknown_set ∷ []) → ⊥ }
    ensures gone_value { LawfulGone 0 (durably 1 9 7) (unknown_set ∷ []) → ⊥ }
    ensures gone_key { LawfulGone 0 (durably 1 7 6) (unknown_set ∷ []) → ⊥ }
    ensures gone_level { LawfulGone 0 (durably 2 9 6) (unknown_set ∷ []) → ⊥ }
    ensures gone_removal { LawfulGone 0 (durably_removes 1 9) (says DELETE status.SyncWriteAmbiguous ∷ []) → ⊥ }
    ensures gone_vb { LawfulGoneBy (record prepared_line { vb = 1 }) (unknown_set ∷ []) → ⊥ }
    ensures gone_node { LawfulGoneBy (record prepared_line { node = 1 }) (unknown_set ∷ []) → ⊥ }
    ensures ticked { LawfulLate (durably 1 9 6) ticks (ok (makes aborted ∷ unknown_set ∷ [])) }
{}

/// HELLO is answered with the features that it asks for and no others, and what it sets holds for the
/// frames behind it. NOOP succeeds; a frame that asks nothing is refused for its form.
pub fn judged_greetings()
    ensures hello { LawfulTo [] (greets (feature.Json ∷ [])) (welcomes (feature.Json ∷ []) ∷ []) }
    ensures more { LawfulTo [] (greets (feature.Json ∷ [])) (welcomes (feature.Json ∷ feature.MutationSeqnos ∷ []) ∷ []) → ⊥ }
    ensures fewer { LawfulTo [] (greets (feature.Json ∷ feature.MutationSeqnos ∷ [])) (welcomes (feature.Json ∷ []) ∷ []) → ⊥ }
    ensures sets { LawfulTo json_once (greets (feature.Json ∷ []) ++ gets 0 7) (welcomes (feature.Json ∷ []) ∷ finds json_doc ∷ []) }
    ensures sets_raw { LawfulTo json_once (greets (feature.Json ∷ []) ++ gets 0 7) (welcomes (feature.Json ∷ []) ∷ finds_raw json_doc ∷ []) → ⊥ }
    ensures sets_back { LawfulBy for_json json_once (greets [] ++ gets 0 7) (welcomes [] ∷ finds_raw json_doc ∷ []) }
    ensures noop { LawfulTo [] (noop 9) (says NOOP status.Success ∷ []) }
    ensures noop_refused { LawfulTo [] (noop 9) (says NOOP status.Einval ∷ []) → ⊥ }
    ensures formless { LawfulTo [] formless (says NOOP status.Einval ∷ []) }
    ensures formless_taken { LawfulTo [] formless (says NOOP status.Success ∷ []) → ⊥ }
    ensures unknown { LawfulTo [] unknown (says 200 status.UnknownCommand ∷ []) }
    ensures unknown_other { LawfulTo [] unknown (says 200 status.Einval ∷ []) → ⊥ }
{}

/// Bytes that are no frame are answered Einval, by what their header names, once each frame before was
/// answered, and the connection closes directly behind; where nothing is named there is no answer.
pub fn judged_faults()
    ensures closes { LawfulTo [] broken (says NOOP status.Einval ∷ shuts ∷ []) }
    ensures long { LawfulTo [] vast (says NOOP status.Einval ∷ shuts ∷ []) }
    ensures stays { LawfulTo [] broken (says NOOP status.Einval ∷ []) → ⊥ }
    ensures later { LawfulTo [] broken (says NOOP status.Einval ∷ shuts_other ∷ shuts ∷ []) → ⊥ }
    ensures opaque { LawfulTo [] broken (sends (reply_frame (bare_answer NOOP status.Einval 8)) ∷ shuts ∷ []) → ⊥ }
    ensures opcode { LawfulTo [] broken (says GET status.Einval ∷ shuts ∷ []) → ⊥ }
    ensures success { LawfulTo [] broken (says NOOP status.Success ∷ shuts ∷ []) → ⊥ }
    ensures behind { LawfulTo [] (noop 9 ++ broken) (answers 9 ∷ says NOOP status.Einval ∷ shuts ∷ []) }
    ensures early { LawfulTo [] (noop 9 ++ broken) (says NOOP status.Einval ∷ shuts ∷ []) → ⊥ }
    ensures unnamed { LawfulTo [] strange (says NOOP status.Einval ∷ shuts ∷ []) → ⊥ }
    ensures part { LawfulTo [] (take 23 broken) (says NOOP status.Einval ∷ shuts ∷ []) → ⊥ }
{}

/// So it is in whole groups: an answer comes in the group of the bytes that ask, or behind a later line
/// that ends a wait, and then in one group with all others that waited behind it; not without a question,
/// nor to what was sent before the connection was opened anew; and a write is told made or committed by a
/// change of its own group alone.
pub fn judged_answer_lines()
    ensures here { LawfulNext [] [] (comes (noop 9)) (ok (answers 9 ∷ [])) }
    ensures unasked { LawfulNext [] [] sends_none (ok (answers 9 ∷ [])) → ⊥ }
    ensures opaque { LawfulNext [] [] (comes (noop 9)) (ok (answers 8 ∷ [])) → ⊥ }
    ensures twice { LawfulNext [] [] (comes (noop 9)) (ok (answers 9 ∷ answers 9 ∷ [])) → ⊥ }
    ensures pieces { LawfulNext [] (take 7 (noop 9)) (comes (drop 7 (noop 9))) (ok (answers 9 ∷ [])) }
    ensures waited { LawfulNext [] (noop 9) ticks (ok (answers 9 ∷ [])) }
    ensures each { LawfulTicks [] (noop 8 ++ noop 9) (ok (answers 8 ∷ []) ∷ ok (answers 9 ∷ []) ∷ []) → ⊥ }
    ensures again { LawfulTicks [] (noop 9) (ok (answers 9 ∷ []) ∷ ok (answers 9 ∷ []) ∷ []) → ⊥ }
    ensures made { LawfulNext [] [] (comes (writes SET 0 7 8)) (ok (makes one_change ∷ stores SET 1 [] ∷ [])) }
    ensures made_before { LawfulTicks [] (writes SET 0 7 8) (ok (makes one_change ∷ []) ∷ ok (stores SET 1 [] ∷ []) ∷ []) → ⊥ }
    ensures committed { LawfulStill pending (durably 1 9 6) ticks (ok (makes committed ∷ stores SET 2 [] ∷ [])) }
    ensures committed_before { LawfulTicks pending (durably 1 9 6) (ok (makes committed ∷ []) ∷ ok (stores SET 2 [] ∷ []) ∷ []) → ⊥ }
    ensures anew { LawfulOpened (asks 1 ∷ hangs 1 ∷ opens 1 ∷ waits ∷ []) (ok [] ∷ ok [] ∷ ok [] ∷ ok (replies 0 1 (nooped 9) ∷ []) ∷ []) → ⊥ }
{}
