//! Where tables of a scenario file break the rule of a refusal, and what would be right there.
#![tactic(auto)]

mod earlier;
mod event;
mod file;
mod fractions;
mod hints;
pub mod laws;
mod layout;
mod lines;
mod spot;
mod supplies;
mod table;
mod text;
mod values;
mod wanted;

pub use event::event_spot;
pub use file::{explain_tables, explain_top, file_spot, table_spot};
pub use lines::Lines;
pub use spot::{File, Spot};
pub use text::explain_error;
pub use values::{push_number, push_quoted};
