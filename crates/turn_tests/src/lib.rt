//! Tests of turns, with real threads, over a list of numbers. A crate with tests in it is proved twice, so they stand in
//! a crate of their own.
#![tactic(auto)]

mod numbers;
#[cfg(test)]
mod tests;
#[cfg(test)]
mod workers;

pub use numbers::{Call, Numbers, NumbersSeat, NumbersTurn, Reply};
