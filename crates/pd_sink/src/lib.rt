//! The policy engine of a sink.
#![tactic(auto)]

mod engine;
mod kinds;
pub mod laws;
mod objects;
mod rows;
mod rule;

pub use engine::Sink;
pub use kinds::{Act, Note, Sending, State, Stimulus};
