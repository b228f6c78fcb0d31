//! Why a journal can't be opened, read or written.
use thiserror::Error;

/// Why a journal was not opened. The disk is handed back.
#[derive(Drop)]
pub enum OpenFault<D> {
    /// Memory was short.
    NoMemory { disk: D },
    /// The disk failed.
    DiskFailed { disk: D },
    /// The bytes from the gate at this place on are no journal's.
    Damaged { place: u64, disk: D },
}

/// Why a record was not appended, or the records were not read.
#[derive(Clone, Copy, Debug, PartialEq, Eq, Error)]
pub enum AppendFault {
    /// An append of this journal failed before.
    #[error("the journal is closed, since an append failed")]
    Closed,
    /// The disk failed.
    #[error("the disk failed")]
    DiskFailed,
    /// The bytes from the gate at this place on are no journal's. No append answers this.
    #[error("the journal is damaged at {place}")]
    Damaged { place: u64 },
}
