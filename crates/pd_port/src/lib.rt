//! One port: what it is set to, what falls due on it, and its step.
#![tactic(auto)]

mod asks;
mod due;
mod dues;
mod entry;
mod happens;
pub mod laws;
mod meter;
mod own_due;
mod polls;
mod port;

pub use due::{Due, What};
pub use entry::{ContractChange, Entry};
pub use meter::Meter;
pub use own_due::OwnDue;
pub use pd_line::stepping::Line;
pub use pd_line::{Fault, Start};
pub use pd_setup::{Event, EventKind, Happening, PortEventKind, Settings};
pub use port::Port;
