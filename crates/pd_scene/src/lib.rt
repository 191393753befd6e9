//! Scenes: the scenario that a text is, as an edit script leaves it, handed to one job.
#![tactic(auto)]

mod edits;
mod end;
mod followed;
mod job;
mod lines;
mod made;
mod outlet;
mod scene;
mod script;

pub use edits::{Refused, follow};
pub use end::end_of_scene;
pub use followed::on_scene;
pub use job::{Job, JobOn};
pub use lines::first_line;
pub use made::{MadeEdit, note_line};
pub use outlet::Outlet;
pub use pd_device::BenchFault;
pub use pd_scenario_text::ScenarioFault;
pub use scene::{SceneFault, on_text};
pub use script::{at_line, explain_line, push_reason, refused_at};
