//! Why a line of an edit script is refused: each place at which it breaks the rule, and what would be right there.
#![tactic(auto)]

mod broken;
mod hints;
pub mod laws;
mod lines;
mod numbers;
mod place;
mod places;
mod ranges;
mod refused;
mod sentences;
mod stops;
mod texts;

pub use broken::is_port;
pub use lines::{push_place, push_syntax};
pub use place::{Counted, NumberWord, Place, Reason};
pub use refused::reasons;
