//! The bench for a page that calls it: texts in, texts out.
//!
//! Each export puts the first bytes of its answer into the caller's room, as many as have room, tells how many bytes the answer has,
//! and answers the number of how it ended. Where the room was short, the same call with more room gives all of it.
#![tactic(auto)]

mod answer;
mod choices;
mod decode;
mod draw;
mod durations;
mod ending;
mod explain;
mod guarantee;
mod list;
mod run;
mod show;
mod sweep;
mod test;
#[cfg(test)]
mod tests;
mod why;

pub use decode::page_decode;
pub use draw::page_draw;
pub use durations::{page_hard_reset_duration, page_packet_duration};
pub use ending::Ending;
pub use explain::page_explain;
pub use guarantee::page_guarantee;
pub use list::page_list;
pub use run::page_run;
pub use show::page_show;
pub use sweep::{page_packet_count, page_sweep};
pub use test::page_test;
pub use why::page_why;
