//! What a pull puts, in turn and through the window, and why it puts no more; each law as the contract of a
//! function that does nothing.
ghost use Rattle.std.specs.Prelude.{◌≡◌, ◌<◌, ◌↔◌, ℕ, List};
ghost use Rattle.dcp_producer.specs.{AskingAll.{IsAsIfAllAsked, StaysQuiet}, Ending.{ended_by}, Going.{LinesTell}, Giving.{given_up}, Having.{AnswersSound, IsSound, PullsSound, YieldsSound}, Holding.{IsShut, PullHoldsBack}, Producers.{PlainProducer, PlainStream, Served, new_end}, Serving.{frame_answered}, Pulling.{frames_put, why_of}, Pulls.{AsksLittle, PullsInTurn, TurnsTaken}};
ghost use Rattle.{dcp_producer.specs.declared.desk.Desk.{Desk as DeskData}, mcbp_frame.specs.declared.frame.Frame.{Frame as FrameData}};
ghost use Rattle.dcp_producer.specs.declared.halt.{Halt.{Halt}, Halt.TheVariants.{Disk, Full, WaitSaved}};
ghost use Rattle.vb_events.specs.declared.event.Why.TheVariants.{Disk as DiskLine, Full as FullLine, WaitSaved as SavedLine};
ghost use Rattle.vb_events.specs.declared.event.StreamName.{StreamName as Name};
ghost use Rattle.vb_calls.specs.{Jobs.{AlwaysJob, Ended, IsRead}, Programs.{AnyCall, AnyReply, Always, Made}, Shelves.{Shelves}, States.{States}};
ghost use Rattle.vb_told.specs.Told.{ToldJob};

/// The streams of a connection are always of different vBuckets, their numbers rise in the order in which
/// they were opened and none is above the last one that was asked for, and the turn's place is one of theirs
/// or their end: so it is of a new connection, and each answer, each pull, each yield and each change of role
/// keeps it.
pub fn connections_stay_sound()
    ensures fresh { (desk : DeskData) → IsSound (new_end desk) }
    ensures answers { (f : FrameData) (s : Served) → IsSound s.end → Always AnyCall AnswersSound (frame_answered f s) }
    ensures pulls { (frames : ℕ) (s : Served) → IsSound s.end → AlwaysJob AnyReply AnyCall IsRead PullsSound (frames_put frames s) }
    ensures yields { (frames : ℕ) (end : PlainProducer) → IsSound end → Always AnyCall YieldsSound (given_up frames end) }
    ensures roles { (v : ℕ) (ids : List ℕ) (end : PlainProducer) → IsSound end → IsSound (ended_by v ids end) }
{}

/// Each frame that a pull puts goes through an open window, and its whole length is outstanding then. A
/// pull says that the window is shut exactly where it puts fewer than were asked for and leaves the window
/// shut, whatever streams there are, also none, and so does its line; one that begins so asks nothing.
pub fn windows_hold_back()
    ensures pull { (frames : ℕ) (s : Served) → IsSound s.end → AlwaysJob AnyReply AnyCall IsRead (PullHoldsBack frames s) (frames_put frames s) }
    ensures shut { (frames : ℕ) (s : Served) → 0 < frames → IsShut s.end.window → frames_put frames s ≡ Ended (s, Full) }
    ensures line { (halted : Halt) → (why_of halted ≡ FullLine) ↔ (halted ≡ Full) }
{}

/// A pull asks the streams for their frames one after the other, always the first of those that wait for
/// their turns: the one behind the one that had the last turn, in the order in which they were opened. Who
/// puts a frame comes last, and who is over, or quiet, waits no more in this pull. Behind a frame the turn
/// is behind its stream, and where no stream puts one each has had a turn, so the order is the same again.
/// Each frame has its line, and is counted. All that were asked for are put exactly where the pull says so;
/// else it is first the window that is shut; or next one whose journal can't be read, at which the pull ends, and
/// which has had its turn; or next no stream waits for its turn any more, of which one said that it waits for the
/// answer to a state, or next for what is to be saved, or none.
pub fn pulls_take_turns()
    ensures pull { (frames : ℕ) (s left : Served) (made : List Made) (halted : Halt) → IsSound s.end → ToldJob (frames_put frames s) made (left, halted)
        → PullsInTurn frames s made left halted }
    ensures line { (halted : Halt) → (why_of halted ≡ SavedLine) ↔ (halted ≡ WaitSaved) }
    ensures disk { (halted : Halt) → (why_of halted ≡ DiskLine) ↔ (halted ≡ Disk) }
{}

/// Streams take turns: between a turn in which one put a frame and its next one, just the streams are asked
/// that waited then, each once and in their order, and as they stood. Who was quiet, or is over, is asked
/// no more in that pull.
pub fn streams_take_turns()
    ensures { (frames : ℕ) (s left : Served) (made : List Made) (halted : Halt) → IsSound s.end → ToldJob (frames_put frames s) made (left, halted)
        → TurnsTaken frames s made left halted }
{}

/// Each frame that a pull puts has its line, which says what the frame is: a marker, a stored document, a
/// removal, a prepare, a commit, an abort, a state, or the stream's end. It goes with the opaque of the stream that
/// had the turn, and for its vBucket.
pub fn lines_tell_their_frames()
    ensures { (frames : ℕ) (s left : Served) (made : List Made) (halted : Halt) → IsSound s.end → ToldJob (frames_put frames s) made (left, halted)
        → LinesTell frames s made left halted }
{}

/// A pull makes at most two calls for each marker and each state that it puts and for each stream that is
/// quiet, but none for one that waits for the answer to a state, and one for each end of reason 0 and where a
/// journal can't be read. The end of a stream that a change of role ended needs none, and that of one that
/// its vBucket lost two at most.
pub fn pulls_ask_little()
    ensures { (frames : ℕ) (s left : Served) (made : List Made) (halted : Halt) → IsSound s.end → ToldJob (frames_put frames s) made (left, halted)
        → AsksLittle frames s made left halted }
{}

/// A stream that was quiet is not asked again before the pull ends, and over plain vBuckets nothing is lost by
/// that: the pull gives what one gives that asks everybody anew for each frame. For each next frame the window
/// comes first, and the pull ends where it is shut. Then one stream after the other is asked, from the one
/// behind that of the last turn, until one puts a frame; where none does the pull ends, and says that it waits
/// where one of them waits, first for the answer to a state and next for what is to be saved, else that there is
/// no more. The same frames go out with the same lines, the same streams, turn, window and vBuckets are left,
/// and it says the same of why no more was put. For a stream that is quiet changes nothing, but that what was to
/// be read of a backfill was read, and that its vBucket gives it a cursor where it has none and its place is
/// served from memory; it is quiet again, and then nothing changes, while its vBucket stays as it was left; and
/// the others, which are of other vBuckets, leave that one alone.
pub fn quiet_streams_stay_quiet()
    ensures pull { (frames : ℕ) (s : Served) (states : States) (shelves : Shelves) → IsSound s.end → IsAsIfAllAsked frames s states shelves }
    ensures again { (name : Name) (stream : PlainStream) (states : States) (shelves : Shelves) → StaysQuiet name stream states shelves }
{}
