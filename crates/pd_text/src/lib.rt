//! Tellings as values: a telling is a list of pieces, written as a line of words or as a JSON object.
#![tactic(auto)]

mod amounts;
mod front;
pub mod laws;
mod line;
mod members;
mod page;
mod piece;
mod string;
mod words;

pub use front::Front;
pub use line::{begin_line, end_line, push_pieces};
pub use page::fill_page;
pub use piece::{Form, ListName, Piece, Unit};
pub use string::push_string;
