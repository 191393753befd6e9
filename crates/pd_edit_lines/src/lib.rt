//! The lines of an edit script: what each asks for, and the numbers of the refusals.
#![tactic(auto)]

mod edit;
mod event_lines;
mod fault;
mod keywords;
pub mod laws;
mod line;
mod rows;
mod setting_lines;
mod slot;
mod stop;
mod words;

pub use edit::{Edit, EditHappening, EditKind, WrittenDamage, WrittenSupply};
pub use fault::EditFault;
pub use line::{Line, Show};
pub use rows::{Front, Row};
pub use slot::Slot;
pub use stop::{Stop, stop_of};
pub use words::{next, number};
