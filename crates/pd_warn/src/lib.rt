//! What a scenario has that is accepted and surely not meant: events that never happen or do nothing, names that nothing uses,
//! ports that have too little of the shared budget, and sinks of which nothing counts what they draw.
#![tactic(auto)]

pub mod laws;
mod names;
mod plain;
mod run;
mod scenario;
mod shares;
mod warning;
mod watch;

pub use scenario::warnings;
pub use warning::{Warning, Why};
