//! The objects of power messages, and the power of a port: its configured supplies, what is asked of the shared budget,
//! the answers, and what is agreed on.
#![tactic(auto)]

mod contract;
mod fixed_supply;
pub mod laws;
mod query;
mod request_object;
mod sink_supply;
mod supply;
mod supply_list;
mod word;

pub use contract::Contract;
pub use fixed_supply::{FixedSupply, SupplyFlags};
pub use query::{Answer, Query};
pub use request_object::{RequestFlags, RequestObject};
pub use sink_supply::SinkSupply;
pub use supply::{Supply, same_supplies};
pub use supply_list::SupplyList;
pub use word::field;
