//! The protocol layer of one side on one channel: messages, their packets, their IDs and their tries.
#![tactic(auto)]

pub mod laws;
mod layer;
mod message;

pub use layer::{Layer, LayerAct};
pub use message::{Message, good_crc_for};
