//! Each packet of a run lost in turn, and what that leads to: lines of words, JSON objects, or comma-separated values.
#![tactic(auto)]

mod base;
mod beside;
mod choice;
mod columns;
mod count;
mod effect;
mod findings;
mod form;
mod hit;
mod kind_lines;
mod laws;
mod limits;
mod lose;
mod makers;
mod measure;
mod names;
mod objects;
mod packet_texts;
mod packets;
mod part;
mod rows;
mod sets;
mod steps;
mod summary;
mod sums;
mod tally;
mod texts;
mod trial;
mod variant;
mod walk;
mod words;

pub use base::Base;
pub use beside::{Ledger, Whose, measures};
pub use choice::{Campaign, Choice, Loss};
pub use count::packet_count;
pub use effect::Effect;
pub use findings::Findings;
pub use form::{Form, Look};
pub use hit::is_hit;
pub use laws::{
    hits_are_true, limits_are_of_runs, measures_are_true, parts_are_the_sweep,
    shares_are_the_sweep, singles_are_the_packets,
};
pub use limits::{Limits, Passed, push_passed};
pub use lose::lost;
pub use makers::{Makers, makers_of};
pub use measure::{Extent, Measure, Step};
pub use packets::{Target, chosen};
pub use part::Part;
pub use pd_scene::{Refused, SceneFault};
pub use sets::Packets;
pub use summary::{Mishaps, Standing, Summary, summary_of};
pub use tally::{Lowest, Tally, Worst, WorstOn, push_tally};
pub use texts::{sweep_part_text, sweep_text};
pub use trial::{Outcome, Trial};
pub use variant::{Obstacle, variant_of};
pub use walk::sweep;
pub use words::{
    are_same, is_same, push_contracts, push_listed, push_makers, push_obstacle, push_trial,
    push_wide,
};
