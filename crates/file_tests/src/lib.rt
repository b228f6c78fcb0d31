//! Tests of disks over files of the system. A crate with tests in it is proved twice, so they stand in a crate of their
//! own.
#![tactic(auto)]

#[cfg(test)]
mod faults;
#[cfg(test)]
mod files;
#[cfg(test)]
mod journals;
#[cfg(test)]
mod steps;
