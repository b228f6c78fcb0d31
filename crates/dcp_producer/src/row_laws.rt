//! Streams of a few items each, worked by hand: what pulls put of them; each law as the contract of a
//! function that does nothing.
ghost use Rattle.dcp_producer.specs.{BackfillRows.{BackfillsInRows}, FirstRows.{FirstsInRows}};
ghost use Rattle.dcp_producer.specs.Rows.{EndsBehindItems, HeldAtEdge, LostStreamsEnd, PutInTurn, TurnsInOrder};

/// The items of a snapshot are put in their order, each once, also of a stream that a change of role
/// ended; behind the last one that stream's end is put, and then nothing.
#[tactic(auto, unfolding(crate::specs::Pulling::frames_put, crate::specs::Pulling::one_frame, crate::specs::Pulling::one_turn, crate::specs::Frames::next_frame))]
pub fn items_are_put_in_turn()
    ensures { PutInTurn }
{}

/// With a deletion of 43 bytes, an abort of 41 and an end of 28 to put: of a window of 43 the first goes,
/// of 44 two, of 85 all three, and of 113 too, which then is not shut.
#[tactic(auto, unfolding(crate::specs::Pulling::frames_put, crate::specs::Pulling::one_frame, crate::specs::Pulling::one_turn, crate::specs::Frames::next_frame, mcbp_dcp::specs::DcpFrames::dcp_frame, mcbp_frame::specs::Spelling::spelling))]
pub fn windows_hold_at_their_edge()
    ensures { HeldAtEdge }
{}

/// With two streams, of which the second is opened behind the first one's turn: its item, then one of
/// each. With three, of which the first is closed behind its second turn and opened anew behind another
/// turn of the second: the third, the new one, the second.
#[tactic(auto, unfolding(crate::specs::Pulling::frames_put, crate::specs::Pulling::one_frame, crate::specs::Pulling::one_turn, crate::specs::Frames::next_frame))]
pub fn turns_in_order()
    ensures { TurnsInOrder }
{}

/// With the end 2 asked for and a snapshot of the seqnos 1 to 3: all three are put, and then the end, for
/// which the stream is closed; with the end 4 it is not.
#[tactic(auto, unfolding(crate::specs::Pulling::frames_put, crate::specs::Pulling::one_frame, crate::specs::Pulling::one_turn, crate::specs::Frames::next_frame))]
pub fn ends_come_behind_items()
    ensures { EndsBehindItems }
{}

/// Behind its items a stream whose vBucket answers Absent, where it is asked for its place or for a
/// snapshot, or is not there any more, ends with reason 2; one that has no snapshot yet, or whose changes
/// are to be saved first, stays.
#[tactic(auto, unfolding(crate::specs::Pulling::frames_put, crate::specs::Pulling::one_frame, crate::specs::Pulling::one_turn, crate::specs::Frames::next_frame))]
pub fn lost_streams_end()
    ensures { LostStreamsEnd }
{}

/// Of a request inside its snapshot the first marker starts where that does, and its commits are sent as a
/// set or a removal; at either end the marker starts at the request's start, and a commit is one. Behind
/// another marker START is that of the vBucket, and a commit is one.
#[tactic(auto, unfolding(crate::specs::Pulling::frames_put, crate::specs::Pulling::one_frame, crate::specs::Pulling::one_turn, crate::specs::Frames::next_frame))]
pub fn first_markers_in_numbers()
    ensures { FirstsInRows }
{}

/// Streams that go on from a journal, by what it gives and what their vBuckets reply: when it is read, which
/// markers come of it, where it gives nothing, and where it can't be read.
#[tactic(auto, unfolding(crate::specs::Pulling::frames_put, crate::specs::Pulling::one_frame, crate::specs::Pulling::one_turn, crate::specs::Frames::next_frame, backfill::specs::Backfills::backfilled))]
pub fn backfills_in_rows()
    ensures { BackfillsInRows }
{}
