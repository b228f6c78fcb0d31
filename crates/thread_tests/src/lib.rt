//! Tests of vBuckets that threads call, with real threads. A crate with tests in it is proved twice, so they stand in a
//! crate of their own.
#![tactic(auto)]

#[cfg(test)]
mod dealt;
#[cfg(test)]
mod nodes;
#[cfg(test)]
mod seats;
#[cfg(test)]
mod tour;
