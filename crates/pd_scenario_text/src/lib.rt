//! Scenario files: what a text says, and why it is refused.
#![tactic(auto)]

mod distinct;
mod document;
mod file;
pub mod laws;
mod lists;
mod text;

pub use file::ScenarioFile;
pub use pd_scenario_tables::ScenarioFault;
pub use text::{port_count, scenario_from_text};
