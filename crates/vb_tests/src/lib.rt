//! Tests of one vBucket and of what it is, or will be, made of. They call public functions alone. A crate with tests in it is
//! proved twice, so they stand in a crate of their own.
#![tactic(auto)]

#[cfg(test)]
mod backfills;
#[cfg(test)]
mod durable;
#[cfg(test)]
mod journals;
#[cfg(test)]
mod keys;
#[cfg(test)]
mod tables;
#[cfg(test)]
mod vbuckets;
