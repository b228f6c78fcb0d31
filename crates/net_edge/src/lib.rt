//! Links, ears and bells over TCP. They bind and dial 127.0.0.1 alone, as nothing authenticates.
#![tactic(auto)]

mod alarm;
mod counts;
mod ear;
mod link;
#[cfg(test)]
mod tests;

pub use ear::TcpEar;
pub use link::{TcpBell, TcpLink};
