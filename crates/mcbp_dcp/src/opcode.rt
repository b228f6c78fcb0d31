//! The opcodes of DCP.
ghost use Rattle.std.specs.Prelude.{◌≡◌};
ghost use Rattle.mcbp_dcp.specs.Opcodes.{opcode_number, opcode_of};

/// A message of DCP, by its opcode. An answer has the opcode of its message.
#[derive(Clone, Copy, Debug, PartialEq, Eq)]
pub enum Opcode {
    Open = 0x50,
    CloseStream = 0x52,
    StreamRequest = 0x53,
    GetFailoverLog = 0x54,
    StreamEnd = 0x55,
    SnapshotMarker = 0x56,
    Mutation = 0x57,
    Deletion = 0x58,
    SetVbucketState = 0x5b,
    Noop = 0x5c,
    BufferAcknowledgement = 0x5d,
    Control = 0x5e,
    Prepare = 0x60,
    SeqnoAcknowledged = 0x61,
    Commit = 0x62,
    Abort = 0x63,
}

const OPCODES: [Opcode; 16] = [
    Opcode::Open,
    Opcode::CloseStream,
    Opcode::StreamRequest,
    Opcode::GetFailoverLog,
    Opcode::StreamEnd,
    Opcode::SnapshotMarker,
    Opcode::Mutation,
    Opcode::Deletion,
    Opcode::SetVbucketState,
    Opcode::Noop,
    Opcode::BufferAcknowledgement,
    Opcode::Control,
    Opcode::Prepare,
    Opcode::SeqnoAcknowledged,
    Opcode::Commit,
    Opcode::Abort,
];

impl Opcode {
    /// The byte that stands for it in a header.
    pub fn number(self) -> u8
        ensures { result ≡ opcode_number self }
    {
        self as u8
    }

    /// The opcode of a number, if DCP has one.
    pub fn of(number: u8) -> Option<Opcode>
        ensures { result ≡ opcode_of number }
    {
        OPCODES.iter().find(|o| o.number() == number).copied()
    }
}
