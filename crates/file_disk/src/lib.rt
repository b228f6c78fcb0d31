//! A disk over a file of the system, and what it asks of that file.
#![tactic(auto)]

mod file_disk;
mod noting;
mod open;
mod raw_file;

pub use file_disk::FileDisk;
pub use noting::{Noted, Noting, What};
pub use raw_file::RawFile;
