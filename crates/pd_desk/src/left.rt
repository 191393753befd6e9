//! How a session at the desk ended.

use pd_bench::Tally;

/// What a session at the desk leaves.
#[derive(Clone, Copy, Debug, PartialEq, Eq)]
pub struct Left {
    pub tally: Tally,
    /// Whether the scenario that stands was saved, or no edit stands.
    pub is_saved: bool,
}
