//! What a line of a log says: a packet, by its codes, by its header and its objects, or by its bytes, in one line or in several; and what
//! is told of it, as a line of text and as a JSON object.
#![tactic(auto)]

mod answer;
mod begun;
mod bytes;
mod cells;
mod codes;
mod columns;
mod given;
mod heads;
mod json;
pub mod laws;
mod line;
mod mark;
mod messages;
mod names;
mod numbers;
mod parts;
mod places;
mod plain;
mod reading;
mod replies;
mod rows;
mod sets;
mod sniffed;
mod stamp;
mod supplies;
mod times;
mod words;

pub use answer::{Answer, LogPacket};
pub use begun::{Begun, Read, Stage};
pub use columns::Columns;
pub use json::push_json;
pub use line::push_line;
pub use mark::Mark;
pub use reading::read;
pub use sets::PacketSet;
pub use times::log_time;
