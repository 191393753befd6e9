//! What a step of a port says, in words: what fell due, what was asked of the shared budget and answered, contracts, holds,
//! packets with their content, and the states of the engines.
#![tactic(auto)]

mod amounts;
mod events;
mod json;
mod offers;
mod starts;
mod states;

pub use amounts::{push_amperes, push_number, push_volts, push_watts};
pub use events::push_event;
pub use json::{
    asked_kind, event_kind, push_asked_members, push_contract_members, push_event_members,
    push_fault_members, push_hold_members, push_number_member, push_start_members,
    push_state_members, push_text_member, start_kind,
};
pub use offers::{push_asked, push_contract, push_hold};
pub use starts::{push_start, side_text};
pub use states::{push_states, sink_name, source_name};
