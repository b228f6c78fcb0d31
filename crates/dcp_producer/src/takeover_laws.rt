//! How a producer gives vBuckets up to its consumer's; each law as the contract of a function that does
//! nothing.
ghost use Rattle.std.specs.Prelude.{◌≡◌, ◌≢◌, ◌<◌, ◌⊎◌, ℕ, List, [], ◌++◌};
ghost use Rattle.dcp_producer.specs.{Frames.{next_frame, state_put}, Giving.{Yields, given_up}, Having.{IsSound}, Holding.{IsShut}, Items.{ComesAs}, Moves.{TakesOverInRows}, Producers.{PlainProducer, PlainStream, Served}, Pulling.{frames_put}, Serving.{frame_answered}, Takeovers.{HearEach, InOrder, NoneAwaits, WaitsInOrder, YieldsInOrder}};
ghost use Rattle.dcp_producer.specs.declared.{halt.Halt.{Halt}, next_frame.NextFrame.{NextFrame as Frame}};
ghost use Rattle.mcbp_dcp.specs.{DcpFrames.{dcp_frame}, DurableRows.{no_cas}, MessageRows.{answer_head, state_bytes}, declared.message.DcpMsg.TheVariants.{StateAnswer}};
ghost use Rattle.mcbp_frame.specs.{Spelling.{spelling}, declared.frame.{Frame.{Frame as FrameData}, TheConstants.{RESPONSE}}};
ghost use Rattle.takeover.specs.declared.give_up.GiveUp.{GiveUp as GiveData};
ghost use Rattle.{vb_calls.specs.Programs.{Done, Made, Told}, vb_told.specs.Told.{ToldJob}, vb_events.specs.declared.event.StreamName.{StreamName as Name}, vb_types.specs.declared.role.Role.TheVariants.{Active, Pending}};

/// A stream that gives its vBucket up puts the state pending exactly in the first step, where its changes come
/// from memory and its vBucket has no more for it, and active so in the fifth; its end with reason 0 comes
/// exactly in the eighth. All of these come behind its items, and where a change of role ended it the end with
/// reason 2 comes in place of them. In the third, the fourth and the seventh step it puts nothing.
pub fn takeovers_in_order()
    ensures { (name : Name) (stream left : PlainStream) (made : List Made) (next : Frame) → ToldJob (next_frame name stream) made (next, left)
        → InOrder name stream made next left }
{}

/// In front of a pull a vBucket is asked to be given up, once, exactly where its stream is in the fourth step,
/// all of its items are put and no change of role ended it, where a frame is asked for and the window is open:
/// stream by stream, in the order in which they were opened. Where it was, the stream is in the fifth step, and
/// what the reply tells is told; by any other reply the stream is ended. Nothing else changes.
pub fn yields_in_order()
    ensures none { (frames : ℕ) (end : PlainProducer) → (frames ≡ 0) ⊎ IsShut end.window
        → given_up frames end ≡ Done (record { end = end; yielded = [] }) }
    ensures asked { (frames : ℕ) (end : PlainProducer) (made : List Made) (came : Yields) → 0 < frames → (IsShut end.window → ⊥)
        → Told (given_up frames end) made came → YieldsInOrder end made came }
{}

/// The frames of both states, byte by byte, with the numbers 3 of pending and 1 of active, and that of their
/// answer; which each stream hears that has its opaque.
pub fn states_in_bytes()
    ensures pending { (g : GiveData) → ComesAs (λ a. state_put a.served.end.desk.stream a.stream g Pending) (state_bytes 0x00 no_cas 3) }
    ensures active { (g : GiveData) → ComesAs (λ a. state_put a.served.end.desk.stream a.stream g Active) (state_bytes 0x00 no_cas 1) }
    ensures answer { spelling (dcp_frame (StateAnswer 0) 0x0a0b0c0d 0x0102) ≡ answer_head 0x5b 0x00 0x00 0x00 }
    ensures heard { (s : Served) → (new : List PlainStream) × HearEach 0x0a0b0c0d s.end.streams new
        × (frame_answered (dcp_frame (StateAnswer 0) 0x0a0b0c0d 0x0102) s ≡ Done (record s { end = record s.end { streams = new } })) }
{}

/// An answer to a state, with Success, is heard by each stream of its opaque that waits for one: from the third
/// step it goes on to the fourth, and from the seventh to the eighth. All else stays as it was. An answer of another
/// opcode is dropped, and so is one of another status, and one of an opaque for which no stream waits: nothing is
/// called, told, put or changed for any of them.
pub fn answers_of_states()
    ensures taken { (f : FrameData) (s : Served) → f.magic ≡ RESPONSE → f.opcode ≡ 0x5b → f.vb_or_status ≡ 0
        → (new : List PlainStream) × HearEach f.opaque s.end.streams new × (frame_answered f s ≡ Done (record s { end = record s.end { streams = new } })) }
    ensures opcode { (f : FrameData) (s : Served) → f.magic ≡ RESPONSE → f.opcode ≢ 0x5b → frame_answered f s ≡ Done s }
    ensures status { (f : FrameData) (s : Served) → f.magic ≡ RESPONSE → f.opcode ≡ 0x5b → f.vb_or_status ≢ 0 → frame_answered f s ≡ Done s }
    ensures none { (f : FrameData) (s : Served) → f.magic ≡ RESPONSE → f.opcode ≡ 0x5b → f.vb_or_status ≡ 0 → NoneAwaits f.opaque s.end.streams
        → frame_answered f s ≡ Done s }
{}

/// The line of a pull says why it put no more: all that were asked for, first; next that the window is shut; next
/// that a stream waits for the answer to a state; next that one waits for what is to be saved; and that there is no
/// more, exactly where none of these is so.
pub fn waits_in_order()
    ensures { (frames : ℕ) (s left : Served) (made : List Made) (halted : Halt) → IsSound s.end → ToldJob (frames_put frames s) made (left, halted)
        → WaitsInOrder frames s made left halted }
{}

/// A whole move in numbers, from all that there is up to the end, and what comes too early or out of order.
#[tactic(auto, unfolding(crate::specs::Giving::given_up, crate::specs::Pulling::frames_put, crate::specs::Pulling::one_frame, crate::specs::Pulling::one_turn, crate::specs::Frames::next_frame))]
pub fn takeovers_in_rows()
    ensures { TakesOverInRows }
{}
