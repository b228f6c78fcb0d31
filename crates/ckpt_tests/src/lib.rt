//! Tests of a list of checkpoints and its cursors. They call public functions alone. A crate with tests in it is
//! proved twice, so they stand in a crate of their own.
#![tactic(auto)]

#[cfg(test)]
mod lists;
#[cfg(test)]
mod several;
#[cfg(test)]
mod trims;
