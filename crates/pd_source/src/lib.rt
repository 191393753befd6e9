//! The source's policy engine.
#![tactic(auto)]

mod engine;
mod kinds;
pub mod laws;
mod offer;
mod request;
mod rows;

pub use engine::Source;
pub use kinds::{Act, Note, Revision, Sending, Sent, State, Stimulus};
