//! Tests of storms, with real threads. A crate with tests in it is proved twice, so they stand in a crate of their
//! own.
#![tactic(auto)]

#[cfg(test)]
mod storms;
