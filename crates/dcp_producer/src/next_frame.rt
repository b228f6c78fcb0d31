//! What a turn of a stream comes to.
ghost use Rattle.std.specs.Prelude.{◌≡◌};
ghost use Rattle.dcp_producer.specs.Pulling.{first_wait, halt_of};

use crate::Halt;
use mcbp_dcp::DcpMsg;
use vb_events::Event;

/// What a stream waits for that puts nothing in its turn.
#[derive(Clone, Copy)]
pub enum Waits {
    /// Nothing that the producer knows of: there is no snapshot for it yet.
    Nothing,
    /// That its next changes are saved.
    Saved,
    /// The answer to a state that it put, or behind it that its vBucket is given up.
    State,
}

impl Waits {
    /// What a pull says of two streams that wait: the answer to a state comes first, and next what is
    /// to be saved.
    pub fn or(self, other: Waits) -> Waits
        ensures { result ≡ first_wait self other }
    {
        match (self, other) {
            (Waits::State, _) | (_, Waits::State) => Waits::State,
            (Waits::Saved, _) | (_, Waits::Saved) => Waits::Saved,
            (Waits::Nothing, Waits::Nothing) => Waits::Nothing,
        }
    }

    /// Why a pull puts no more where this is waited for.
    pub fn halt(self) -> Halt
        ensures { result ≡ halt_of self }
    {
        match self {
            Waits::Nothing => Halt::Idle,
            Waits::Saved => Halt::WaitSaved,
            Waits::State => Halt::WaitState,
        }
    }
}

/// What a stream puts in its turn.
#[derive(Drop)]
pub enum NextFrame {
    /// A frame of the stream, with the line that tells of it.
    Put { message: DcpMsg, line: Event },
    /// Its end, for this reason; the connection has the stream no more then.
    End { reason: u32 },
    /// Nothing now; what it waits for.
    Quiet { waits: Waits },
    /// None, as its journal can't be read; the pull ends.
    Disk,
}
