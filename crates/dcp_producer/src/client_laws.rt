//! What a client's connection is answered; each law as the contract of a function that does nothing.
ghost use Rattle.std.specs.{Prelude.{◌≡◌, ◌++◌, ℕ, List, length, map}, List.{All, concat}};
ghost use Rattle.dcp_producer.specs.{Clients.{AnswersOnce, AnyLog, AsksOf, CountsNothing, GivesLogs, IsShortLog}, Cuts.{IsShort, pieces}, Pairs.{AlwaysGot, AnyChange, AreSpelled, GivesSpelled, GotSpelled, IsOneOf, IsSpelledChange, PullsPairs}, Handshaking.{Gets}, Having.{IsOpened}, Producers.{Served}, Pulling.{frames_put}, Serving.{frame_answered, message_answered}};
ghost use Rattle.dcp_producer.specs.declared.desk.Handshake.TheVariants.{Fresh};
ghost use Rattle.{mcbp_dcp.specs.declared.message.DcpMsg.TheVariants.{SeqnoAcknowledged}, mcbp_frame.specs.Spelling.{spelling}, mcbp_frame.specs.declared.frame.Frame.{Frame as FrameData}};
ghost use Rattle.{vb_calls.specs.{Jobs.{AlwaysJob, IsRead}, Programs.{Always, AlwaysWith, AnyCall, AnyReply}}, vb_events.specs.declared.event.StreamName.TheVariants.{Client}};

/// SEQNO_ACKNOWLEDGED of a client's connection counts for nothing, whatever streams it has and whatever
/// name its consumer gave: it is Einval before OPEN and NotSupported behind it, and no vBucket is asked.
#[tactic(auto, unfolding(crate::specs::Serving::acknowledged, crate::specs::Serving::status_sent, mcbp_frame::specs::Spelling::spelling))]
pub fn clients_acknowledge_nothing()
    ensures early { (f : FrameData) (seq node client : ℕ) (s : Served) → s.end.desk.stream ≡ Client node client → s.end.handshake ≡ Fresh
        → Gets 4 Fresh f s (message_answered f (SeqnoAcknowledged seq) s) }
    ensures opened { (f : FrameData) (seq node client : ℕ) (s : Served) → s.end.desk.stream ≡ Client node client → IsOpened s
        → Gets 0x83 s.end.handshake f s (message_answered f (SeqnoAcknowledged seq) s) }
    ensures row { CountsNothing }
{}

/// Whatever vBuckets reply, a frame of a client has one answer, but for a response and for
/// BUFFER_ACKNOWLEDGEMENT of an open connection, which have none. A line tells of the answer to a request
/// for a stream, and says what that says; of no other answer a line tells. Nothing ever became of durable
/// writes: the vBucket that the frame names is asked for a stream, for its end, or for its failover log,
/// and for nothing else. Where the logs that it tells fit the length of a frame, those in answers do.
pub fn clients_resolve_nothing()
    ensures any { (f : FrameData) (node client : ℕ) (s : Served) → s.end.desk.stream ≡ Client node client
        → Always (AsksOf f.vb_or_status) (AnswersOnce AnyLog f s) (frame_answered f s) }
    ensures short { (f : FrameData) (node client : ℕ) (s : Served) → s.end.desk.stream ≡ Client node client
        → AlwaysWith (GivesLogs IsShortLog) (AsksOf f.vb_or_status) (AnswersOnce IsShortLog f s) (frame_answered f s) }
{}

/// Frames that were written one after the other are cut apart again by the lengths that their headers
/// tell, whatever stands behind them.
pub fn headers_cut_frames()
    ensures { (frames : List FrameData) (rest : List ℕ) → All IsShort frames → pieces (length frames) (concat (map spelling frames) ++ rest) ≡ map spelling frames }
{}

/// Whatever vBuckets reply, each frame that a pull puts has its line: the next item of a stream, in the
/// message of its act, with its seqno, its act and its key; a marker, with its numbers; the end of a
/// stream, with its reason; or a state, pending or active. It goes with the opaque and for the vBucket of a stream that the connection
/// has. Where the messages of all items have spellings, those of its streams and those that vBuckets and
/// journals give, the items that are put are such.
pub fn frames_have_their_lines()
    ensures any { (frames : ℕ) (s : Served) → AlwaysJob AnyReply AnyCall IsRead (PullsPairs (IsOneOf AnyChange s.end.streams) frames s) (frames_put frames s) }
    ensures spelled { (frames : ℕ) (s : Served) → AreSpelled s.end.streams
        → AlwaysGot GivesSpelled GotSpelled AnyCall (PullsPairs (IsOneOf IsSpelledChange s.end.streams) frames s) (frames_put frames s) }
{}
