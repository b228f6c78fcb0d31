//! Tests of a node and of the ends of its connections, over vBuckets that nobody else calls. They call public functions alone. A crate with tests in it is
//! proved twice, so they stand in a crate of their own.
#![tactic(auto)]

#[cfg(test)]
mod bench;
#[cfg(test)]
mod buffers;
#[cfg(test)]
mod consumers;
#[cfg(test)]
mod durable;
#[cfg(test)]
mod frames;
#[cfg(test)]
mod handovers;
#[cfg(test)]
mod lines;
#[cfg(test)]
mod losing;
#[cfg(test)]
mod nodes;
#[cfg(test)]
mod producers;
#[cfg(test)]
mod takeovers;
