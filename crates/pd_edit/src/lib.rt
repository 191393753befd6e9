//! Edits of a scenario.
#![tactic(auto)]

mod change;
mod edits;
pub mod laws;
mod made;
mod refusals;

pub use edits::apply;
pub use refusals::REFUSALS;
