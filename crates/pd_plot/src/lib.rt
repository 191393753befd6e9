//! Pictures of what edits lead to: the rows of a `vary` as lines or as tables of colours.
#![tactic(auto)]

mod amounts;
mod heat;
pub mod laws;
mod layout;
mod line;
mod picture;
mod places;
mod point;
mod rows;
mod scale;
mod shape;

pub use heat::Table;
pub use layout::{Layout, Unfit};
pub use picture::plot;
