//! A run as a picture: below the chart of the budget a lane for each port, with the phases of its source, its events, contracts,
//! faults and packets.
#![tactic(auto)]

mod bands;
mod figure;
mod lane;
mod lanes;
mod laws;
mod marks;
mod moves;
mod phase;
mod picture;
mod place;
mod start;
mod texts;
mod walk;

pub use figure::{Figure, Style};
pub use lane::Lane;
pub use lanes::Lanes;
pub use laws::{bands_are_true, phases_stand, titles_are_lines};
pub use pd_chart::Look;
pub use pd_scene::{Refused, SceneFault};
pub use phase::Phase;
pub use place::{Place, Row};
pub use texts::draw_text;
pub use walk::draw;
