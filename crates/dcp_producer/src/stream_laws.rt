//! How a stream is closed and how its cursor is taken away, what its vBucket's log is answered as, and what NOOPs are answered; each law as
//! the contract of a function that does nothing.
ghost use Rattle.std.specs.Prelude.{◌≡◌, ℕ, Bool, false, List, [], ◌∷◌};
ghost use Rattle.dcp_producer.specs.{Closing.{ClosesIt, LogsBytes, OneLog}, Dropping.{DropsIt, cursor_dropped}, Handshaking.{Gets}, Having.{IsOpened, IsSound, IsStreamOf, NoneOf}};
ghost use Rattle.dcp_producer.specs.{Producers.{PlainProducer, PlainStream, Served}, Serving.{message_answered}, declared.desk.Handshake.TheVariants.{Fresh}};
ghost use Rattle.mcbp_dcp.specs.MessageRows.{answer_head, log_answer_bytes, some_log};
ghost use Rattle.mcbp_dcp.specs.declared.message.DcpMsg.TheVariants.{CloseStream, GetFailoverLog, Noop};
ghost use Rattle.{mcbp_frame.specs.declared.frame.Frame.{Frame as FrameData}, vb_calls.specs.Programs.{Made, Told}};

/// CLOSE_STREAM is Einval before OPEN, and KeyEnoent where the connection has no stream of the vBucket. Where
/// it has one, also one that a change of role ended, it is Success: the vBucket is told so under the
/// stream's number, unless a change of role ended it; then the connection has no stream of that vBucket,
/// and all others stay as they were, in their order and their turns.
pub fn closed_streams_are_silent()
    ensures early { (f : FrameData) (s : Served) → s.end.handshake ≡ Fresh → Gets 4 Fresh f s (message_answered f CloseStream s) }
    ensures none { (f : FrameData) (s : Served) → IsOpened s → NoneOf f.vb_or_status s.end.streams
        → Gets 1 s.end.handshake f s (message_answered f CloseStream s) }
    ensures closed { (f : FrameData) (s s' : Served) (stream : PlainStream) (made : List Made) → IsOpened s → IsSound s.end
        → IsStreamOf f.vb_or_status stream s.end.streams → Told (message_answered f CloseStream s) made s' → ClosesIt f stream s made s' }
{}

/// The cursor of a connection's stream is taken away by one call, of the stream's number, unless a change of
/// role ended the stream. It had one exactly where its vBucket says so; where there is no call, as there is no
/// such stream or it is ended, it had none.
pub fn cursors_are_dropped()
    ensures one { (v : ℕ) (end : PlainProducer) (stream : PlainStream) (made : List Made) (had : Bool) → IsStreamOf v stream end.streams → Told (cursor_dropped v end) made had → DropsIt v stream made had }
    ensures none { (v : ℕ) (end : PlainProducer) (made : List Made) (had : Bool) → NoneOf v end.streams → Told (cursor_dropped v end) made had → (made ≡ []) × (had ≡ false) }
{}

/// GET_FAILOVER_LOG is Einval before OPEN, and else one call of the vBucket that it names, whatever its role.
/// Its answer is the log of that one reply, entry by entry, also an empty one; NotMyVbucket where there is
/// no such vBucket.
pub fn logs_are_answered()
    ensures early { (f : FrameData) (s : Served) → s.end.handshake ≡ Fresh → Gets 4 Fresh f s (message_answered f GetFailoverLog s) }
    ensures asked { (f : FrameData) (s : Served) → IsOpened s → OneLog f s }
    ensures two { LogsBytes some_log log_answer_bytes }
    ensures empty { LogsBytes [] (answer_head 0x54 0x00 0x00 0x00) }
{}

/// NOOP of an open connection is Success, and before OPEN it is Einval.
pub fn noops_are_answered()
    ensures opened { (f : FrameData) (s : Served) → IsOpened s → Gets 0 s.end.handshake f s (message_answered f Noop s) }
    ensures early { (f : FrameData) (s : Served) → s.end.handshake ≡ Fresh → Gets 4 Fresh f s (message_answered f Noop s) }
{}
