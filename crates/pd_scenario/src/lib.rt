//! Scenarios: the ports of a charger, cables and sinks by name, and what happens when.
#![tactic(auto)]

mod budget;
mod by_time;
mod changes;
mod event;
mod floors;
pub mod laws;
mod limits;
mod name;
mod named;
mod order;
mod scenario;
mod scripts;
mod words;

pub use budget::BudgetChange;
pub use by_time::{FEW, NO_CHANGE, budget_at, has_few_changes, next_at, passed, put_in_order};
pub use changes::Changes;
pub use event::{ScenarioEvent, ScenarioEventKind, ScenarioHappening, copy_kind};
pub use floors::{are_funded, least_budget};
pub use limits::{FIRST_MV, MOST_EVENTS, MOST_NAMES, Quantity};
pub use name::{Name, is_name};
pub use named::{NamedCable, NamedSink};
pub use scenario::Scenario;
pub use words::{kind_of, mode_of, plug_of, rating_of};
