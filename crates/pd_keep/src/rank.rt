//! Where a move stands among the moves of a run.

ghost use Rattle.std.specs.Prelude.{◌≡◌, ◌↔◌, IsTrue};
ghost use Rattle.pd_keep.specs.Ranks.{IsBefore, number_due, rank_of};

use pd_port::{Due, What};
use pd_setup::Happening;

/// Where a move stands among the moves of a run: by its time, then by its port, numbered from 1, and then by the number of its event.
/// What is no event comes after all events of its time and port.
#[derive(Clone, Copy)]
pub struct Rank {
    pub time: u64,
    pub port: usize,
    pub number: u32,
}

impl Rank {
    /// Where a port's move for a due stands.
    pub fn of(port: usize, due: &Due) -> Rank
        ensures { result ≡ rank_of port due.now }
    {
        Rank {
            time: due.time,
            port,
            number: number_due(&due.what),
        }
    }

    /// Whether it is before another one.
    pub fn is_before(&self, other: &Rank) -> bool
        ensures { IsTrue result ↔ IsBefore self.now other.now }
    {
        self.time < other.time
            || self.time == other.time
                && (self.port < other.port || self.port == other.port && self.number < other.number)
    }
}

/// The number of an event, which is 0 for a change of the budget, and one above all of those for what is no event.
pub fn number_due(what: &What) -> u32
    ensures { result ≡ number_due what.now }
{
    match what {
        What::Event(event) => match event.happening() {
            Happening::Port { id, .. } => id,
            Happening::Budget => 0,
        },
        What::Line | What::Timer { .. } => u32::MAX,
    }
}
