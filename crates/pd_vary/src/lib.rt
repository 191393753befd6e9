//! Runs of a scenario with values of edit lines varied: each combination of them in turn, and what is measured of its run.
#![tactic(auto)]

mod ask;
mod condition;
mod extremes;
pub mod laws;
mod names;
mod numbers;
mod outcome;
mod read;
mod set;
mod tell;
mod texts;
mod walk;

pub use ask::{Ask, What};
pub use condition::{Condition, push_no_condition, read_condition};
pub use extremes::Extremes;
pub use names::read_asks;
pub use outcome::{Outcome, Refusal};
pub use pd_scene::{Refused, SceneFault};
pub use pd_sweep::Form;
pub use read::read_set;
pub use set::{EditSet, SetFault, Values, few_rows};
pub use tell::{ask_words, unit_of};
pub use texts::vary_text;
pub use walk::{Kept, Question, vary};
