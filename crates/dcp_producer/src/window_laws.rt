//! What acknowledgements of bytes let go, and what a window's size is; each law as the contract of a
//! function that does nothing.
ghost use Rattle.std.specs.Prelude.{◌≡◌, ◌<◌, ◌^◌, ◌↔◌, ℕ, List, [], None, Some, codes, decimal};
ghost use Rattle.dcp_producer.specs.{Handshaking.{Gets}, Having.{IsOpened}, Holding.{LetsGo}};
ghost use Rattle.dcp_producer.specs.{Producers.{Served}, Serving.{message_answered}, Sizes.{size_of}};
ghost use Rattle.dcp_producer.specs.declared.desk.Handshake.TheVariants.{Fresh};
ghost use Rattle.mcbp_dcp.specs.declared.message.DcpMsg.TheVariants.{BufferAcknowledgement};
ghost use Rattle.mcbp_frame.specs.declared.frame.Frame.{Frame as FrameData};

/// An acknowledgement of bytes on an open connection takes them out of the window, or all where there are
/// fewer; there is no answer, no line and no call. Before OPEN it is Einval.
pub fn bytes_are_acknowledged()
    ensures taken { (f : FrameData) (bytes : ℕ) (s : Served) → IsOpened s → LetsGo bytes s (message_answered f (BufferAcknowledgement bytes) s) }
    ensures early { (f : FrameData) (bytes : ℕ) (s : Served) → s.end.handshake ≡ Fresh
        → Gets 4 Fresh f s (message_answered f (BufferAcknowledgement bytes) s) }
{}

/// A window's size is said exactly by the decimal of a number that fits 32 bits, so with no sign and no
/// needless zero.
#[tactic(auto, unfolding(crate::specs::Sizes::size_of))]
pub fn sizes_are_decimals()
    ensures all { (n : ℕ) (value : List ℕ) → (size_of value ≡ Some n) ↔ ((value ≡ decimal n) × (n < 2 ^ 32)) }
    ensures zero { size_of (codes "0") ≡ Some 0 }
    ensures last { size_of (codes "4294967295") ≡ Some 4294967295 }
    ensures above { size_of (codes "4294967296") ≡ None }
    ensures zeros { size_of (codes "00") ≡ None }
    ensures sign { size_of (codes "+1") ≡ None }
    ensures none { size_of [] ≡ None }
{}
