//! The documents of a vBucket and its pending entries, each found by its key's hash.
#![tactic(auto)]

mod hash_table;
mod hashed;
mod laws;
mod prepares;
mod seqnos;

pub use hash_table::HashTable;
pub use hashed::Hashed;
pub use laws::prepares_rise;
