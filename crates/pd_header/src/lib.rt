//! Message headers, and who speaks.
#![tactic(auto)]

mod header;
mod kind;
pub mod laws;
mod side;

pub use header::{Header, header_count, header_id, header_kind, header_revision};
pub use kind::{Kind, kind_of};
pub use side::Side;
