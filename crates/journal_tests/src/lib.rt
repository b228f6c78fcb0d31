//! Tests of the bytes of a journal that were changed or cut, and of a journal whose disk fails. They call public functions
//! alone. A crate with tests in it is proved twice, so they stand in a crate of their own.
#![tactic(auto)]

#[cfg(test)]
mod bytes;
#[cfg(test)]
mod changed;
#[cfg(test)]
mod failing;
#[cfg(test)]
mod opened;
#[cfg(test)]
mod reader;
