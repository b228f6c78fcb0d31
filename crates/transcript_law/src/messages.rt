//! What a client is answered to its messages of DCP, lawfully or not.

ghost use Rattle.std.specs.Prelude.{ℕ, List, [], ◌++◌, codes, replicate, true, false, Some, None};
ghost use Rattle.mcbp_dcp.specs.declared.message.DcpMsg.TheVariants as msg;
ghost use Rattle.mcbp_frame.specs.declared.frame.Frame.{Frame as FrameData};
ghost use Rattle.vb_types.specs.declared.status.Status.TheVariants as status;
ghost use Rattle.transcript_law.specs.ClientAskRows.{bytes_of, closing, closing_typed, requesting};
ghost use Rattle.transcript_law.specs.ClientStreamRows.{all_changes, finished, put_two};
ghost use Rattle.transcript_law.specs.MessageRows.{Finds, Fits, FitsAway, FitsUnknown, IsTold, IsToldOf, LawfulClosed, asks, formless, fresh, log_refused, log_to, named, opens, over, over_with, sent_behind, sets, stated, status_to, told_of, typed, value_to};

/// OPEN for a producer is answered Success before anything was opened, and with Einval and NotSupported
/// in no such case; for a consumer it is NotSupported, and Einval with other flags. Over an open
/// connection it is Einval, whatever its flags are.
pub fn judged_openings()
    ensures opens { IsTold fresh (opens 1) status.Success }
    ensures opens_refused { IsTold fresh (opens 1) status.Einval → ⊥ }
    ensures opens_unsupported { IsTold fresh (opens 1) status.NotSupported → ⊥ }
    ensures consumer { IsTold fresh (opens 0) status.NotSupported }
    ensures consumer_opens { IsTold fresh (opens 0) status.Success → ⊥ }
    ensures consumer_refused { IsTold fresh (opens 0) status.Einval → ⊥ }
    ensures flags { IsTold fresh (opens 2) status.Einval }
    ensures flags_open { IsTold fresh (opens 2) status.Success → ⊥ }
    ensures more_flags { IsTold fresh (opens 3) status.Einval }
    ensures more_flags_open { IsTold fresh (opens 3) status.Success → ⊥ }
    ensures again { IsTold over (opens 1) status.Einval }
    ensures again_opens { IsTold over (opens 1) status.Success → ⊥ }
    ensures again_consumer { IsTold over (opens 0) status.Einval }
    ensures again_unsupported { IsTold over (opens 0) status.NotSupported → ⊥ }
{}

/// CONTROL of a known key with a value of its form is answered Success, and Einval in no such case: a
/// flag where it is true or false, a name of 1 to 250 bytes, and a size in decimal digits without a
/// needless zero, within 32 bits. Any other value, any other key, and CONTROL before OPEN are Einval,
/// and never Success.
pub fn judged_controls()
    ensures sync { IsTold over (sets (codes "enable_sync_writes") (codes "true")) status.Success }
    ensures sync_refused { IsTold over (sets (codes "enable_sync_writes") (codes "true")) status.Einval → ⊥ }
    ensures no_sync { IsTold over (sets (codes "enable_sync_writes") (codes "false")) status.Success }
    ensures no_sync_refused { IsTold over (sets (codes "enable_sync_writes") (codes "false")) status.Einval → ⊥ }
    ensures sync_word { IsTold over (sets (codes "enable_sync_writes") (codes "yes")) status.Einval }
    ensures sync_word_set { IsTold over (sets (codes "enable_sync_writes") (codes "yes")) status.Success → ⊥ }
    ensures noop { IsTold over (sets (codes "enable_noop") (codes "true")) status.Success }
    ensures noop_refused { IsTold over (sets (codes "enable_noop") (codes "true")) status.Einval → ⊥ }
    ensures noop_number { IsTold over (sets (codes "enable_noop") (codes "1")) status.Einval }
    ensures noop_number_set { IsTold over (sets (codes "enable_noop") (codes "1")) status.Success → ⊥ }
    ensures name { IsTold over (sets (codes "consumer_name") (codes "x")) status.Success }
    ensures name_refused { IsTold over (sets (codes "consumer_name") (codes "x")) status.Einval → ⊥ }
    ensures long_name { IsTold over (sets (codes "consumer_name") (replicate 250 120)) status.Success }
    ensures long_name_refused { IsTold over (sets (codes "consumer_name") (replicate 250 120)) status.Einval → ⊥ }
    ensures longer_name { IsTold over (sets (codes "consumer_name") (replicate 251 120)) status.Einval }
    ensures longer_name_set { IsTold over (sets (codes "consumer_name") (replicate 251 120)) status.Success → ⊥ }
    ensures no_name { IsTold over (sets (codes "consumer_name") []) status.Einval }
    ensures no_name_set { IsTold over (sets (codes "consumer_name") []) status.Success → ⊥ }
    ensures interval { IsTold over (sets (codes "set_noop_interval") (codes "120")) status.Success }
    ensures interval_refused { IsTold over (sets (codes "set_noop_interval") (codes "120")) status.Einval → ⊥ }
    ensures interval_zero { IsTold over (sets (codes "set_noop_interval") (codes "007")) status.Einval }
    ensures interval_zero_set { IsTold over (sets (codes "set_noop_interval") (codes "007")) status.Success → ⊥ }
    ensures interval_word { IsTold over (sets (codes "set_noop_interval") (codes "true")) status.Einval }
    ensures interval_word_set { IsTold over (sets (codes "set_noop_interval") (codes "true")) status.Success → ⊥ }
    ensures size { IsTold over (sets (codes "connection_buffer_size") (codes "4294967295")) status.Success }
    ensures size_refused { IsTold over (sets (codes "connection_buffer_size") (codes "4294967295")) status.Einval → ⊥ }
    ensures size_over { IsTold over (sets (codes "connection_buffer_size") (codes "4294967296")) status.Einval }
    ensures size_over_set { IsTold over (sets (codes "connection_buffer_size") (codes "4294967296")) status.Success → ⊥ }
    ensures no_size { IsTold over (sets (codes "connection_buffer_size") []) status.Einval }
    ensures no_size_set { IsTold over (sets (codes "connection_buffer_size") []) status.Success → ⊥ }
    ensures unknown { IsTold over (sets (codes "enable_noops") (codes "true")) status.Einval }
    ensures unknown_set { IsTold over (sets (codes "enable_noops") (codes "true")) status.Success → ⊥ }
    ensures no_key { IsTold over (sets (codes "") (codes "true")) status.Einval }
    ensures no_key_set { IsTold over (sets (codes "") (codes "true")) status.Success → ⊥ }
    ensures early { IsTold fresh (sets (codes "enable_noop") (codes "true")) status.Einval }
    ensures early_set { IsTold fresh (sets (codes "enable_noop") (codes "true")) status.Success → ⊥ }
    ensures early_size { IsTold fresh (sets (codes "connection_buffer_size") (codes "64")) status.Einval }
    ensures early_size_set { IsTold fresh (sets (codes "connection_buffer_size") (codes "64")) status.Success → ⊥ }
{}

/// Over an open connection NOOP is answered Success, and an acknowledgement of a seqno NotSupported;
/// before OPEN both are Einval, and so is an acknowledgement of bytes. A message that is none for a
/// producer is Einval, as one that names a role, and so are one with a datatype, and one with a part
/// that its row does not have. The answer has the opaque of its question, and no value.
pub fn judged_messages()
    ensures noop { IsTold over (asks msg.Noop) status.Success }
    ensures noop_refused { IsTold over (asks msg.Noop) status.Einval → ⊥ }
    ensures early_noop { IsTold fresh (asks msg.Noop) status.Einval }
    ensures early_noop_succeeds { IsTold fresh (asks msg.Noop) status.Success → ⊥ }
    ensures seqno { IsTold over (asks (msg.SeqnoAcknowledged 1)) status.NotSupported }
    ensures seqno_succeeds { IsTold over (asks (msg.SeqnoAcknowledged 1)) status.Success → ⊥ }
    ensures seqno_refused { IsTold over (asks (msg.SeqnoAcknowledged 1)) status.Einval → ⊥ }
    ensures early_seqno { IsTold fresh (asks (msg.SeqnoAcknowledged 1)) status.Einval }
    ensures early_seqno_unsupported { IsTold fresh (asks (msg.SeqnoAcknowledged 1)) status.NotSupported → ⊥ }
    ensures early_bytes { IsTold fresh (asks (msg.BufferAcknowledgement 64)) status.Einval }
    ensures early_bytes_succeed { IsTold fresh (asks (msg.BufferAcknowledgement 64)) status.Success → ⊥ }
    ensures end { IsTold over (asks (msg.StreamEnd 0)) status.Einval }
    ensures end_succeeds { IsTold over (asks (msg.StreamEnd 0)) status.Success → ⊥ }
    ensures typed { IsTold over typed status.Einval }
    ensures typed_succeeds { IsTold over typed status.Success → ⊥ }
    ensures formless { IsTold over formless status.Einval }
    ensures formless_succeeds { IsTold over formless status.Success → ⊥ }
    ensures stated { IsTold over stated status.Einval }
    ensures stated_succeeds { IsTold over stated status.Success → ⊥ }
    ensures stated_unknown { IsTold over stated status.UnknownCommand → ⊥ }
    ensures other_opaque { Fits over (asks msg.Noop) (status_to (asks msg.Noop) 8 status.Success) → ⊥ }
    ensures value { Fits over (asks msg.Noop) (value_to (asks msg.Noop)) → ⊥ }
{}

/// CLOSE_STREAM is answered Success where the connection has a stream of its vBucket whose end was not
/// put, and KeyEnoent where it has none, or before OPEN Einval. It has none once a frame closed it,
/// also one that came behind the last request for a stream and was answered before; but one of another
/// vBucket, with a datatype, or behind the question closes nothing.
pub fn judged_closings()
    ensures closes { IsTold (over_with (Some put_two)) (asks msg.CloseStream) status.Success }
    ensures closes_none { IsTold (over_with (Some put_two)) (asks msg.CloseStream) status.KeyEnoent → ⊥ }
    ensures none { IsTold over (asks msg.CloseStream) status.KeyEnoent }
    ensures none_closes { IsTold over (asks msg.CloseStream) status.Success → ⊥ }
    ensures ended { IsTold (over_with (Some (finished put_two))) (asks msg.CloseStream) status.KeyEnoent }
    ensures ended_closes { IsTold (over_with (Some (finished put_two))) (asks msg.CloseStream) status.Success → ⊥ }
    ensures early { IsTold fresh (asks msg.CloseStream) status.Einval }
    ensures early_none { IsTold fresh (asks msg.CloseStream) status.KeyEnoent → ⊥ }
    ensures found { Finds (sent_behind (closing 0) (closing 0)) (Some put_two) }
    ensures found_behind { Finds (sent_behind (bytes_of 5 0 msg.Noop ++ closing 0) (closing 0)) (Some put_two) }
    ensures found_other { Finds (sent_behind (closing 1 ++ closing 0) (closing 0)) (Some put_two) }
    ensures closed_before { Finds (sent_behind (closing 0 ++ closing 0) (closing 0)) None }
    ensures closed_behind { Finds (sent_behind (closing 0 ++ closing 0) (closing 0 ++ closing 0)) (Some put_two) }
    ensures closed_typed { Finds (sent_behind (closing_typed ++ closing 0) (closing 0)) (Some put_two) }
    ensures at_another { Finds (sent_behind (closing 1) (closing 1)) None }
    ensures lawful { LawfulClosed (sent_behind (closing 0) (closing 0)) status.Success }
    ensures not_lawful { LawfulClosed (sent_behind (closing 0) (closing 0)) status.KeyEnoent → ⊥ }
    ensures twice_lawful { LawfulClosed (sent_behind (closing 0 ++ closing 0) (closing 0)) status.KeyEnoent }
    ensures twice_not { LawfulClosed (sent_behind (closing 0 ++ closing 0) (closing 0)) status.Success → ⊥ }
{}

/// GET_FAILOVER_LOG is answered with the vBucket's log, as it was told, and its own opaque: no other
/// log, no empty one, and no refusal in its bytes. NotMyVbucket is where the node has no such vBucket,
/// and only there; where no line told of the log, it may be any. Before OPEN it is Einval.
pub fn judged_logs()
    ensures log { Fits over (asks msg.GetFailoverLog) (log_to 9 (named 5)) }
    ensures another { Fits over (asks msg.GetFailoverLog) (log_to 9 (named 6)) → ⊥ }
    ensures empty { Fits over (asks msg.GetFailoverLog) (log_to 9 []) → ⊥ }
    ensures other_opaque { Fits over (asks msg.GetFailoverLog) (log_to 8 (named 5)) → ⊥ }
    ensures refused { Fits over (asks msg.GetFailoverLog) (log_refused (named 5)) → ⊥ }
    ensures away_there { IsTold over (asks msg.GetFailoverLog) status.NotMyVbucket → ⊥ }
    ensures unknown { FitsUnknown (log_to 9 (named 6)) }
    ensures unknown_away { FitsUnknown (status_to (asks msg.GetFailoverLog) 9 status.NotMyVbucket) → ⊥ }
    ensures away { FitsAway (status_to (asks msg.GetFailoverLog) 9 status.NotMyVbucket) }
    ensures away_log { FitsAway (log_to 9 []) → ⊥ }
    ensures early { IsTold fresh (asks msg.GetFailoverLog) status.Einval }
    ensures early_log { Fits fresh (asks msg.GetFailoverLog) (log_to 9 (named 5)) → ⊥ }
{}

/// A request for a stream is answered directly behind a line that told of it, and not without one: so
/// it is where less is known to have come behind the last request that was told than from this one on.
pub fn judged_told_requests()
    ensures told { (g : FrameData) → Fits told_of (asks (msg.StreamRequest all_changes)) g }
    ensures untold { (g : FrameData) → Fits over (asks (msg.StreamRequest all_changes)) g → ⊥ }
    ensures behind_its_line { IsToldOf (sent_behind [] (requesting 0 all_changes)) true }
    ensures with_more { IsToldOf (sent_behind (closing 0) (requesting 0 all_changes ++ closing 0)) true }
    ensures before_its_line { IsToldOf (sent_behind (requesting 0 all_changes) (requesting 0 all_changes)) false }
    ensures before_with_more { IsToldOf (sent_behind (closing 0 ++ requesting 0 all_changes ++ closing 0) (requesting 0 all_changes ++ closing 0)) false }
{}
