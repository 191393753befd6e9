//! Sessions: a bench reads an edit script, keeps the run of the edited scenario, and answers each line.
#![tactic(auto)]

mod answer;
mod bench;
mod check;
mod files;
pub mod laws;
mod pending;
mod tally;
mod texts;

pub use answer::{State, answer as answer_line, refuse, write_done};
pub use bench::session;
pub use check::check_text;
pub use files::read_whole;
pub use pd_device::{Output, SliceIn, TextIn};
pub use pending::Pending;
pub use tally::{Outcome, Tally};
pub use texts::{Release, RunFault, run_kept, run_kept_releasing, run_plain};
