//! What bounds a port, fact by fact: for each offer what set its currents, what the sink asked of it and why, and what came of it, each
//! as a line of words or a JSON object.
#![tactic(auto)]

mod bound;
mod cable;
mod fact;
mod holder;
mod idle;
mod known;
pub mod laws;
mod look;
mod offer;
mod outcome;
mod question;
mod request;
mod run;
mod story;
mod tell;
mod texts;
mod walk;
mod wants;
mod wish;

pub use bound::{Bound, Bounds};
pub use cable::CableLimit;
pub use fact::Fact;
pub use holder::Maker;
pub use pd_scene::{Refused, SceneFault};
pub use pd_text::Form;
pub use question::Question;
pub use run::why;
pub use tell::push_fact_lines;
pub use texts::why_text;
pub use walk::facts_of;
