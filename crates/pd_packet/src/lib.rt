//! Packets as codes, and their check.
#![tactic(auto)]

mod check;
mod fate;
mod fault;
mod hearing;
pub mod laws;
mod packet;
mod reading;
mod timing;
mod writing;

pub use check::{check_of, check_of_words};
pub use fate::{Damage, Fate};
pub use fault::PacketFault;
pub use hearing::{codes_of, reaches};
pub use packet::Packet;
pub use reading::read;
pub use timing::{duration, hard_reset_duration, packet_duration};
pub use writing::write;
