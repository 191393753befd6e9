//! The runner that keeps its run in spans, and shares those that the next run has too.
#![tactic(auto)]

mod answered;
mod follow;
mod kept;
mod kept_move;
pub mod laws;
mod one_span;
mod presence;
mod rank;
mod rerun;
mod spans;
mod spare;

pub use kept::Kept;
