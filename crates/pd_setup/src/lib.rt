//! What is set up before a run: what a port is set to, what happens to it from outside, and the sinks that are attached.
#![tactic(auto)]

mod event;
mod settings;
mod sink;

pub use event::{Event, EventKind, Happening, KindWord, PortEventKind};
pub use settings::Settings;
pub use sink::{Demand, SinkMode, SinkRevision, SinkSettings};
