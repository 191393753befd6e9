//! A run as a transcript that an engineer reads: what fell due on each port, what went wrong, what was offered and agreed, what
//! the port holds, the packets with their content, and the states of the engines.
#![tactic(auto)]

mod choice;
mod faults;
mod lines;
mod page;
mod seen;
mod since;
mod texts;
mod told;
mod walk;

pub use choice::{Choice, Form};
pub use faults::push_fault;
pub use page::push_bare_line;
pub use pd_scene::{Refused, SceneFault};
pub use seen::{Glance, Seen, step_seen};
pub use since::{start_since, told_at};
pub use texts::show_text;
pub use told::push_change;
pub use walk::show;
