//! The tables of a scenario file: which keys each kind has, what one table says, and the refusals of one table.
#![tactic(auto)]

mod clean;
mod convert;
mod fault;
mod ports;
mod schema;
mod tables;
mod values;
mod words;

pub use clean::{is_clean, is_clean_event};
pub use convert::{cable_of, event_of, number_at, settings_of, sink_of};
pub use fault::ScenarioFault;
pub use ports::counted;
pub use schema::{EventName, Form, Key, Need, Rule, TableKind, Version, rules_of};
pub use tables::{
    event_at, event_fails, fails, has_key, is_required, tables_at, value_at, version_at,
};
pub use values::passes;
