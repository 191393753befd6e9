//! The line of a port: who speaks on it, what reaches whom, and what the layers and engines make of it.
#![tactic(auto)]

mod disturbances;
mod hard_reset;
pub mod laws;
mod lines;
mod notes;
mod port_parts;
mod port_step;
mod same;
pub mod stepping;
mod told;

pub use notes::{Fault, Start};
