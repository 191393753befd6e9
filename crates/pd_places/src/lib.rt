//! Each place at which a scenario file breaks a rule, and what would be right there.
#![tactic(auto)]

mod collect;
mod counts;
mod cut;
mod first_lines;
mod funds;
mod known;
pub mod laws;
mod places;
mod same;
mod text;

pub use text::explain_places;
