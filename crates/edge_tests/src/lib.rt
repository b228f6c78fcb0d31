//! Tests of the edge in memory, through its traits. A crate with tests in it is proved twice, so they stand in a crate of
//! their own.
#![tactic(auto)]

#[cfg(test)]
mod edges;
#[cfg(test)]
mod links;
