//! The engineer's desk: sessions at the keyboard, which say why a line is refused, and have lines of their own.
#![tactic(auto)]

mod answers;
mod byte_in;
mod colon;
mod copy;
mod desk;
mod diff;
mod help;
pub mod laws;
mod left;
mod line_in;
mod line_reasons;
mod lines;
mod live;
mod load;
mod notes;
mod outlets;
mod own;
mod reasons;
mod reports;
mod shelf;
mod steps;
mod tellings;
mod varying;

pub use byte_in::ByteIn;
pub use colon::{Colon, Losses, Saved, file_of, is_colon};
pub use diff::push_diff;
pub use left::Left;
pub use line_reasons::push_reasons;
pub use live::run_live;
pub use outlets::Outlets;
pub use own::OwnFault;
pub use reasons::tell_reason;
pub use reports::{run_diff, why_port};
pub use shelf::{Shelf, ShelfFault};
