//! What the codes that a user gives come to, and its text.
#![tactic(auto)]

mod argument;
mod decoded;
mod decoding;
pub mod laws;
mod lines;
mod printing;

pub use argument::read_codes;
pub use decoded::Decoded;
pub use decoding::decode;
pub use printing::print_decoded;
