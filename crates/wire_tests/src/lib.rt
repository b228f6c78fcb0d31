//! Tests of what is read and written: bytes in memory, frames, commands, messages, and printed lines that no
//! script shows. They call public functions alone. A crate with tests in it is
//! proved twice, so they stand in a crate of their own.
#![tactic(auto)]

#[cfg(test)]
mod commands;
#[cfg(test)]
mod frames;
#[cfg(test)]
mod messages;
#[cfg(test)]
mod reading;
#[cfg(test)]
mod roles;
#[cfg(test)]
mod streams;
#[cfg(test)]
mod transcripts;
