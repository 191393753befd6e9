//! The power budget that the ports of one charger share.
#![tactic(auto)]

pub mod laws;
mod ledger;
mod offer;

pub use ledger::Ledger;
