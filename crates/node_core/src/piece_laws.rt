//! What becomes of bytes in pieces, and of bytes that begin no frame; each law as the contract of a
//! function that does nothing.
ghost use Rattle.node_core.specs.PieceLaws.{JoinsPieces, StopsAtFaults, WaitsForFrames};

/// No frame of a peer is answered behind bytes that begin none: not of a later piece, and of the same
/// one those before them alone. They are kept.
pub fn faults_are_not_answered()
    ensures { StopsAtFaults }
{}

/// A peer's bytes come to the same frames in one piece and in two, and less than a frame is kept. A
/// dial to which no whole frame came keeps the bytes, and does nothing else, unless they begin no
/// frame: then its link is over.
pub fn pieces_are_joined()
    ensures peers { JoinsPieces }
    ensures dials { WaitsForFrames }
{}
