//! Runs in which packets are lost by lot, and what many of them come to.
#![tactic(auto)]

mod cell;
mod column;
mod draw;
mod edits;
mod laws;
mod losses;
mod noise;
mod noisy;
mod place;
mod report;
mod spread;
mod texts;
mod worst;

pub use column::Column;
pub use laws::{losses_are_in_the_plan, noisy_runs_are_one, spreads_are_of_the_numbers};
pub use losses::lose;
pub use noise::{Noise, Runs, Telling};
pub use noisy::{Noisy, noisy_of};
pub use place::Place;
pub use spread::Spread;
pub use texts::noise_text;
pub use worst::{Longest, Worst};
