//! What is watched of the ports of a run: whether something is attached to each, and which events have put the disturbances that
//! wait there for a packet.
#![tactic(auto)]

pub mod laws;
mod watch;
mod watches;

pub use watch::{Disturber, Watch, is_ignored};
pub use watches::at_rest;
