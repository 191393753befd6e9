//! What is sure for each port of a charger, whatever is attached to it and whatever happens: how much power is free to it at the least
//! and at the most, what each of its supplies is offered at, and what no change of the shared budget takes from it.
#![tactic(auto)]

mod bounds;
mod budgets;
pub mod laws;
mod tell;
mod texts;

pub use bounds::{PortBounds, SupplyBounds};
pub use pd_scene::{Refused, SceneFault};
pub use pd_text::Form;
pub use tell::push_charger;
pub use texts::{guarantee, guarantee_text};
