//! A storm: clients, each on a thread of its own, write to four vBuckets; then a flusher saves what they wrote, and
//! two readers of each vBucket take it.
#![tactic(auto)]

mod clients;
mod ending;
mod flushing;
mod opening;
mod plan;
mod reading;
mod seats;
mod top;
mod whole;

pub use clients::run_clients;
pub use opening::open_all;
pub use plan::Plan;
pub use top::storm_main;
pub use whole::storm;
