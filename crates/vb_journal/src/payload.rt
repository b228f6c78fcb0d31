//! The payload of a record: its bytes in a journal.

mod reader;
mod writer;

pub(crate) use reader::read_payload;
pub(crate) use writer::write_payload;

/// The format's version.
pub const VERSION: u8 = 1;

/// The kind of a record of a role.
pub const STATE: u8 = 1;

/// The kind of a record of a batch.
pub const ROWS: u8 = 2;

/// The kind of a record of a step back.
pub const ROLL: u8 = 3;

/// The most entries of a log.
pub const MAX_LOG: usize = 25;

/// The most bytes of a payload.
pub const MAX_PAYLOAD: usize = 33_599_999;

/// The bytes of a log's entry.
pub(crate) const ENTRY_LEN: usize = 16;

/// The bytes of a document before its value.
pub(crate) const DOC_HEAD: usize = 29;

/// The bytes of a change before its key.
pub(crate) const ITEM_HEAD: usize = 10;

/// The bytes of the shortest change: an abort, of a key of one byte.
pub(crate) const LEAST_ITEM: usize = ITEM_HEAD + 1 + 8;

/// The bytes of a batch before its log.
pub(crate) const ROWS_HEAD: usize = 32;
