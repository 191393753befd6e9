//! A scenario as the text of a scenario file, which reads back as the same scenario; a scenario to begin with, and the schema of
//! scenario files.
#![tactic(auto)]

mod edit_lines;
mod edit_words;
mod file;
mod json;
pub mod laws;
mod lines;
mod list;
mod new_file;
mod new_scenario;
mod same;
mod saved;
mod schema;
mod schema_forms;
mod schema_meanings;
mod tables;
mod words;

pub use list::list_scenario;
pub use new_scenario::new_text;
pub use same::is_same;
pub use saved::{SaveFault, scenario_text};
pub use schema::schema_text;
pub use words::{kind_word, mode_word, plug_word, rating_number, revision_number};
