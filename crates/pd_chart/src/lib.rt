//! The chart of a run: the shared budget, the ports' contracts and what they hold of it, over time.
#![tactic(auto)]

mod amounts;
mod chart;
mod curves;
mod elements;
mod frame;
mod laws;
mod look;
mod picture;
mod shapes;
mod ticks;

pub use amounts::Prefix;
pub use chart::push_port_name;
pub use curves::{Curve, Curves, Level};
pub use elements::{push_attribute, push_escaped};
pub use frame::Frame;
pub use laws::curves_are_true;
pub use look::Look;
pub use picture::{push_chart, push_head};
pub use shapes::{Area, push_box, push_path, push_style, push_words};
