//! Why a producer puts no more frames.
ghost use Rattle.std.specs.Prelude.{◌≡◌};
ghost use Rattle.dcp_producer.specs.Pulling.{why_of};

use vb_events::Why;

/// Why no more frames were put.
#[derive(Clone, Copy, PartialEq, Eq)]
pub enum Halt {
    /// As many were put as were asked for.
    All,
    /// No stream has anything to put, and none waits.
    Idle,
    /// The window is shut.
    Full,
    /// No stream has anything to put, and one that gives its vBucket up waits for the answer to a
    /// state.
    WaitState,
    /// No stream has anything to put, and the next changes of one are not all in memory; it waits
    /// until they are saved. None waits for the answer to a state.
    WaitSaved,
    /// The journal of a stream can't be read.
    Disk,
}

impl Halt {
    /// As the line says it.
    pub fn why(self) -> Why
        ensures { result ≡ why_of self }
    {
        match self {
            Halt::All => Why::All,
            Halt::Idle => Why::Idle,
            Halt::Full => Why::Full,
            Halt::WaitState => Why::WaitState,
            Halt::WaitSaved => Why::WaitSaved,
            Halt::Disk => Why::Disk,
        }
    }
}
