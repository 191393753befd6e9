//! What a run shows: the text of its packets, contracts, faults and margins.
#![tactic(auto)]

mod contract_lines;
mod fault_lines;
pub mod laws;
mod least;
mod line;
mod margin_lines;
mod page;
mod report;
mod walk;

pub use contract_lines::contracts;
pub use fault_lines::{WORDS, fault_words, faults};
pub use least::{Margin, least_margin};
pub use margin_lines::margins;
pub use pd_device::{BenchFault, DeviceFault, TextOut};
pub use report::transcript;
