//! How streams take their own snapshots, and how they end with a change of role and with their connection;
//! each law as the contract of a function that does nothing.
ghost use Rattle.std.specs.Prelude.{◌≡◌, ◌≢◌, ℕ, true, List, [], Some};
ghost use Rattle.dcp_producer.specs.{Apart.{EndsNoOthers, LeavesOthers}, Serving.{frame_answered}, Ending.{AreEnding, LeavesEnding, NoCall, NoRequest}, Going.{FollowsSo, ReachesSo}, Having.{IsSound}, Pulling.{frames_put}, Endings.{ClosesAlive, EndsNamed}, Ends.{EndsSo, IsQuietSo}, Frames.{next_frame, place_said, placed_next}, Producers.{PlainProducer, PlainStream, Served, new_end}, Taking.{AsksFirst}};
ghost use Rattle.dcp_producer.specs.declared.desk.{Desk.{Desk as DeskData}, Handshake.TheVariants.{Fresh}};
ghost use Rattle.{dcp_producer.specs.declared.next_frame.NextFrame.{NextFrame as Frame}, vb_calls.specs.{Jobs.{AlwaysJob}, Programs.{Always, AnyCall, AnyReply, Made}}, vb_told.specs.Told.{ToldJob}};
ghost use Rattle.vb_calls.specs.declared.calls.{Resolved.{Resolved}, VbAnswer.TheVariants.{Placed}, VbCall.TheVariants.{Take}};
ghost use Rattle.mcbp_frame.specs.declared.frame.{Frame.{Frame as FrameData}, TheConstants.{RESPONSE}};
ghost use Rattle.vb_events.specs.declared.event.StreamName.{StreamName as Name};
ghost use Rattle.vb_types.specs.declared.{change.Change.{Change as ChangeData}, stream.Place.TheVariants.{Memory}};

/// A stream of which its vBucket says that its next changes are in memory takes its next snapshot of that
/// vBucket, under its own number.
pub fn streams_take_their_own()
    ensures { (name : Name) (stream : PlainStream) (resolved : List Resolved) (ended : List ℕ) (branch : ℕ) (changes : List ChangeData)
        → AsksFirst stream.vb (Take stream.id) (placed_next name stream (place_said (Some (record { answer = Placed Memory; resolved = resolved; ended = ended; branch = branch; changes = changes })))) }
{}

/// A stream is over with reason 0 exactly where, behind its items, no change of role ended it and its last
/// marker reaches the end that was asked for, or, of one that gives its vBucket up, it is in the eighth
/// step, whatever end was asked for; and then alone it is closed at its vBucket; with reason 2
/// exactly where, behind its items, a change of role ended it, or else its vBucket lost it; and for no other
/// reason. No marker comes behind a snapshot that reached the end.
pub fn streams_end()
    ensures { (name : Name) (stream left : PlainStream) (made : List Made) (next : Frame) → ToldJob (next_frame name stream) made (next, left) → EndsSo stream made next }
{}

/// A stream is quiet exactly where its vBucket is asked behind its items and says that its changes are to be
/// saved first, for which it waits then, or, to one that gives no vBucket up, that it has no snapshot for it
/// yet; or where it gives its vBucket up, is in the third, the fourth or the seventh step, and waits for an
/// answer.
pub fn quiet_exactly()
    ensures { (name : Name) (stream left : PlainStream) (made : List Made) (next : Frame) → ToldJob (next_frame name stream) made (next, left) → IsQuietSo stream made next }
{}

/// A stream that a change of role ended asks its vBucket for nothing, nor its journal, also where a backfill is
/// not read: what it still puts was taken before, or is its end. So a connection of which all streams are ended asks nobody, and they stay so.
pub fn ended_streams_ask_nothing()
    ensures one { (name : Name) (stream left : PlainStream) (made : List Made) (next : Frame) → stream.ended ≡ true → ToldJob (next_frame name stream) made (next, left) → made ≡ [] }
    ensures all { (frames : ℕ) (s : Served) → IsSound s.end → AreEnding s.end.streams → AlwaysJob AnyReply NoCall NoRequest LeavesEnding (frames_put frames s) }
{}

/// Behind an item, which needs no call, a stream is one item further. Behind the last one, where no end is
/// due, its vBucket is asked first where the next changes come from; a marker is that of the snapshot that
/// was given then, whose items begin with the first. Behind a state all but how
/// far the stream gives its vBucket up is as it was. One that is quiet or over is as it was.
pub fn snapshots_follow()
    ensures { (name : Name) (stream left : PlainStream) (made : List Made) (next : Frame) → ToldJob (next_frame name stream) made (next, left) → FollowsSo stream made next left }
{}

/// The consumer of a stream may have all up to an item that is put, if that is above what it might have
/// before; a marker, an end and a turn in which the stream is quiet leave it.
pub fn streams_reach_what_was_put()
    ensures { (name : Name) (stream left : PlainStream) (made : List Made) (next : Frame) → ToldJob (next_frame name stream) made (next, left) → ReachesSo stream next left }
{}

/// An answer to a request of one vBucket leaves the streams of all others as they are, in their order, and so
/// does a change of role there.
pub fn streams_are_apart()
    ensures answers { (f : FrameData) (s : Served) → f.magic ≢ RESPONSE → IsSound s.end → Always AnyCall (LeavesOthers f.vb_or_status s.end) (frame_answered f s) }
    ensures roles { (v : ℕ) (ids : List ℕ) (end : PlainProducer) → EndsNoOthers v ids end }
{}

/// A change of role ends just the streams of its vBucket that it names, and leaves all else, the window and
/// the turns too.
pub fn streams_end_by_number()
    ensures { (v : ℕ) (ids : List ℕ) (end : PlainProducer) → EndsNamed v ids end }
{}

/// A connection begins before OPEN, without a stream, and its window has no size. One that ends closes its
/// streams in the order in which they were opened, each at the vBucket that it is of and under its own
/// number, but for those that a change of role ended before.
pub fn connections_end_their_streams()
    ensures fresh { (desk : DeskData) → new_end desk ≡ record { desk = desk; handshake = Fresh; asked = 0; streams = []; turn = 0; window = record { size = 0; outstanding = 0 } } }
    ensures closes { (end : PlainProducer) → ClosesAlive end }
{}
