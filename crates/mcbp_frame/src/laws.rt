//! What holds of frames and streams beyond any one call, each law as the contract of a function.
ghost use Rattle.std.specs.Prelude.{◌≡◌, ◌≢◌, ◌<◌, ◌^◌, ◌++◌, ◌∷◌, ◌↔◌, [], List, ℕ, length, take, drop, map, Option, Result, Some, None, Ok};
ghost use Rattle.{std.specs.Int.{w32, to_be_bytes}, std.specs.List.{All, concat}, mcbp_frame.specs.Cutting.{front_fault, frames_in, left_of, Parted}};
ghost use Rattle.{mcbp_frame.specs.Frames.{first_frame, frame_len, whole_frame, faulty_head}, mcbp_frame.specs.Spelling.{spelling, Readable}};
ghost use Rattle.{mcbp_frame.specs.Streams.{AreBytes, Begins, Cut, Gives, GivesOf}, mcbp_frame.specs.declared.frame.Frame.{Frame as FrameData}};
ghost use Rattle.{mcbp_frame.specs.declared.frame.FrameFault.{FrameFault as FaultData}, mcbp_frame.specs.declared.frame.FrameFault.TheVariants.{BadMagic}};
ghost use Rattle.mcbp_frame.specs.FrameRows.{AtLimits, IsSpelledAs, some_bytes, some_frame};
ghost use Rattle.mcbp_frame.specs.declared.frame.TheConstants.{REQUEST, FRAMED_REQUEST, RESPONSE, HEADER_LEN, MAX_BODY_LEN};

/// What is written is read back, whatever follows it.
pub fn reads_back()
    ensures { (f : FrameData) (rest : List ℕ) → Readable f → first_frame (spelling f ++ rest) ≡ Some (Ok f) }
{}

/// Of any bytes exactly one of five cases holds, and it is the one that a reader gives.
pub fn exactly_one_case()
    ensures given { (bytes : List ℕ) → AreBytes bytes → Begins bytes (first_frame bytes) }
    ensures one { (bytes : List ℕ) (case : Option (Result FrameData FaultData)) → Begins bytes case → first_frame bytes ≡ case }
{}

/// A frame of each magic, byte by byte, no two of its fields alike.
pub fn frames_in_bytes()
    ensures request { IsSpelledAs (some_frame 0x80 []) (some_bytes 0x80 0x00 0x09 []) }
    ensures answer { IsSpelledAs (some_frame 0x81 []) (some_bytes 0x81 0x00 0x09 []) }
    ensures framed { IsSpelledAs (some_frame 0x08 (0x11 ∷ 0x21 ∷ [])) (some_bytes 0x08 0x02 0x0b (0x11 ∷ 0x21 ∷ [])) }
{}

/// What bytes begin with at each limit, in numbers.
#[tactic(auto, unfolding(crate::specs::Frames::first_frame))]
pub fn frames_at_their_limits()
    ensures { AtLimits }
{}

/// A frame has one spelling, and bytes that are exactly one frame are that spelling.
pub fn one_spelling()
    ensures length { (f : FrameData) → length (spelling f) ≡ frame_len f }
    ensures whole { (bytes : List ℕ) (f : FrameData) → AreBytes bytes → ((whole_frame bytes ≡ Some f)
        ↔ (Readable f × (bytes ≡ spelling f))) }
{}

/// A frame or a fault stands, whatever follows it, and no frame is a proper prefix of another.
pub fn stands()
    ensures same { (bytes more : List ℕ) (first : Result FrameData FaultData) → first_frame bytes
        ≡ Some first → first_frame (bytes ++ more) ≡ Some first }
    ensures no_prefix { (f g : FrameData) (more : List ℕ) → Readable f → Readable g → spelling f ++ more ≡ spelling g → more ≡ [] }
{}

/// A stream is cut into frames in one way, the one in which a reader gives them, also where more
/// follows.
pub fn one_cut()
    ensures some { (stream : List ℕ) → AreBytes stream → (frames : List FrameData) × (rest : List ℕ) × Cut stream frames rest }
    ensures cut { (stream : List ℕ) (frames : List FrameData) (rest : List ℕ) → AreBytes stream
        → (Gives stream frames rest ↔ Cut stream frames rest) }
    ensures one { (stream : List ℕ) (frames others : List FrameData) (rest left : List ℕ)
        → Cut stream frames rest → Cut stream others left → (frames ≡ others) × (rest ≡ left) }
    ensures more { (a b : List ℕ) (frames later : List FrameData) (left rest : List ℕ)
        → Cut a frames left → Cut (left ++ b) later rest → Cut (a ++ b) (frames ++ later) rest }
{}

/// The pieces in which a stream comes change nothing.
pub fn any_pieces()
    ensures { (pieces : List (List ℕ)) (frames : List FrameData) (rest : List ℕ) → All AreBytes pieces → GivesOf [] pieces frames rest
        → Cut (concat pieces) frames rest }
{}

/// The frames at the front of bytes and what is left are what a reader gives, and their one cut. No
/// frame is left.
pub fn all_cut()
    ensures gives { (bytes : List ℕ) → Gives bytes (frames_in bytes) (left_of bytes) }
    ensures only { (bytes : List ℕ) (frames : List FrameData) (rest : List ℕ) → Gives bytes frames rest
        → (frames ≡ frames_in bytes) × (rest ≡ left_of bytes) }
    ensures cut { (bytes : List ℕ) → AreBytes bytes → Cut bytes (frames_in bytes) (left_of bytes) }
    ensures no_more { (bytes : List ℕ) → frames_in (left_of bytes) ≡ [] }
    ensures same { (bytes : List ℕ) → left_of (left_of bytes) ≡ left_of bytes }
{}

/// Bytes that come in two pieces give the frames of the first, and then those of what it left with
/// the second. A fault stays with what names its frame, and no frame comes any more.
pub fn piece_by_piece()
    ensures frames { (a b : List ℕ) → frames_in (a ++ b) ≡ frames_in a ++ frames_in (left_of a ++ b) }
    ensures left { (a b : List ℕ) → left_of (a ++ b) ≡ left_of (left_of a ++ b) }
    ensures fault { (held more : List ℕ) (fault : FaultData) → front_fault held ≡ Some fault
        → (front_fault (held ++ more) ≡ Some fault) × (frames_in (held ++ more) ≡ []) }
    ensures head { (held more : List ℕ) (fault : FaultData) → front_fault held ≡ Some fault
        → faulty_head fault (held ++ more) ≡ faulty_head fault held }
{}

/// A faulty frame is named by byte 1 and bytes 12 to 15 of its header, unless its first byte is not
/// known.
pub fn faults_are_named()
    ensures head { (fault : FaultData) (magic opcode opaque : ℕ) (between rest : List ℕ) → fault ≢ BadMagic
        → length between ≡ 10 → opaque < 2 ^ 32
        → faulty_head fault (magic ∷ opcode ∷ between ++ to_be_bytes w32 opaque ++ rest)
        ≡ Some (record { opcode = opcode; opaque = opaque }) }
    ensures none { (bytes : List ℕ) → faulty_head BadMagic bytes ≡ None }
{}

/// Frames that were written are cut out as they were, before whatever follows.
pub fn written_frames()
    ensures frames { (frames : List FrameData) (rest : List ℕ) → All Readable frames
        → frames_in (concat (map spelling frames) ++ rest) ≡ frames ++ frames_in rest }
    ensures left { (frames : List FrameData) (rest : List ℕ) → All Readable frames
        → left_of (concat (map spelling frames) ++ rest) ≡ left_of rest }
{}

/// Wherever bytes of written frames are parted, the first frames come whole, in their order, and
/// less than a frame of the others is left, without a fault.
pub fn pieces_of_frames()
    ensures { (held queue : List ℕ) (frames : List FrameData) (n : ℕ) → All Readable frames → held ++ queue ≡ concat (map spelling frames)
        → Parted frames (held ++ take n queue) (drop n queue) }
{}

/// The numbers that the protocol fixes.
pub fn fixed_numbers()
    ensures first_bytes { (REQUEST ≡ 128) × (FRAMED_REQUEST ≡ 8) × (RESPONSE ≡ 129) }
    ensures header { HEADER_LEN ≡ 24 }
    ensures limit { MAX_BODY_LEN ≡ 22020096 }
{}
