//! What a step of a port says, as members of a JSON object.

mod events;
mod faults;
mod members;
mod offers;
mod starts;

pub use events::{event_kind, push_event_members};
pub use faults::push_fault_members;
pub use members::{push_number_member, push_text_member};
pub use offers::{asked_kind, push_asked_members, push_contract_members, push_hold_members};
pub use starts::{push_start_members, push_state_members, start_kind};
