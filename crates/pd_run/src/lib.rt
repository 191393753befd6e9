//! Runs: what the ports of a charger do under a scenario, from its start to its end.
#![tactic(auto)]

mod beside;
mod had;
pub mod laws;
mod live;
mod note;
mod plain;
mod plan;
mod runner;
mod shared_budget;
mod shared_port;
mod shared_step;
mod spare_steps;
mod stepped;
mod timed_port;

pub use beside::{Agreement, Beside};
pub use live::{Asked, Live};
pub use note::{Marks, Note, next_marked};
pub use plain::Plain;
pub use plan::Plan;
pub use runner::Runner;
pub use shared_budget::SharedBudget;
pub use shared_port::SharedPort;
pub use shared_step::SharedStep;
pub use spare_steps::SpareSteps;
