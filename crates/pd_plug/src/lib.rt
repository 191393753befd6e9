//! The policy engine of a cable's plug.
#![tactic(auto)]

mod engine;
mod kinds;
pub mod laws;
mod rows;

pub use engine::Plug;
pub use kinds::{Act, State, Stimulus};
