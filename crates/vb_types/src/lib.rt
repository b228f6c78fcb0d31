//! The types that every layer speaks of: keys and documents, changes and images, roles and
//! statuses.
#![tactic(auto)]

mod change;
mod doc;
mod image;
mod journal;
mod key;
mod keyed;
mod listed;
mod position;
mod role;
mod status;
mod stream;
mod vb_laws;
mod write;

pub use change::{Act, Change, Level, Pend};
pub use doc::Doc;
pub use image::Image;
pub use journal::{Batch, FlushPart, Record};
pub use key::{Key, MAX_KEY, MAX_VALUE, Value};
pub use keyed::Keyed;
pub use listed::Listed;
pub use position::{MAX_SEQ, Position};
pub use role::{LogEntry, Role};
pub use status::Status;
pub use stream::{AskAnswer, Place, Snapshot, StreamAsk, Verdict};
pub use vb_laws::{
    commits_as_plain, keys_in_order, lengths_in_numbers, levels_in_numbers, limits_in_numbers,
    older_prepares_go, statuses_in_numbers, told_by_last,
};
pub use write::{Op, Write};
