//! Hints: a sentence for each number of a refusal or a fault, and the word that was likelier meant.
#![tactic(auto)]

pub mod laws;
mod reasons;
mod slip;

pub use reasons::reason_of;
pub use slip::{is_slip, nearest, push_meant};
