//! What a client's connection gets of its streams, how its requests of DCP are passed on, and how its
//! streams end; each law as the contract of a function that does nothing.
ghost use Rattle.node_core.specs.ClientLaws.{ClosesStreams, FramesInNumbers, GetFrames, PassesOn, RolesEnd};

use vb_calls::VbAccess;

/// Each frame of a client's streams is told by a reply directly behind its own line, whole, and with
/// nothing of the next; an answer of which no line tells is a reply alone, and where there is neither a
/// line nor a frame nothing is told.
pub fn clients_get_their_frames()
    ensures frames { GetFrames }
    ensures rows { FramesInNumbers }
{}

/// A client's connection does what its session does, as long as the session hands no frame up. A frame
/// that it hands up is answered by the connection's producer, behind all lines so far, and then the
/// session goes on where it stopped; nothing is left to be answered.
pub fn dcp_is_passed_on()
    ensures { PassesOn }
{}

/// A connection that is closed by its bytes, or behind an outcome, has its streams closed at their
/// vBuckets last, in the order in which they were opened, but for those that a change of role ended;
/// one that stays open has none closed so. One that is let go has all closed.
pub fn closed_clients_close_streams<A: VbAccess>()
    ensures { ClosesStreams A.step }
{}

/// A change of role ends the streams of a client's connection that it names, as those of a peer's.
pub fn roles_end_clients_streams()
    ensures { RolesEnd }
{}
