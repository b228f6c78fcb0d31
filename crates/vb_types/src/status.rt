//! Statuses of the memcached binary protocol.
ghost use Rattle.std.specs.Prelude.{◌≡◌};
ghost use Rattle.vb_types.specs.Statuses.{status_code};

/// Why a request was refused, or that it was not.
#[derive(Clone, Copy, Debug, PartialEq, Eq)]
pub enum Status {
    Success = 0x00,
    KeyEnoent = 0x01,
    KeyEexists = 0x02,
    E2big = 0x03,
    Einval = 0x04,
    NotMyVbucket = 0x07,
    Erange = 0x22,
    Rollback = 0x23,
    UnknownFrameInfo = 0x80,
    UnknownCommand = 0x81,
    /// Memory was short. No node here sends it.
    Enomem = 0x82,
    NotSupported = 0x83,
    Etmpfail = 0x86,
    DurabilityInvalidLevel = 0xa0,
    DurabilityImpossible = 0xa1,
    SyncWriteInProgress = 0xa2,
    SyncWriteAmbiguous = 0xa3,
    SyncWriteReCommitInProgress = 0xa4,
}

impl Status {
    /// The number that stands for it on the wire.
    pub fn code(self) -> u16
        ensures { result ≡ status_code self }
    {
        self as u16
    }
}
