//! What falls due on a port.

ghost use Rattle.std.specs.Prelude.{◌≡◌, ◌↔◌, IsTrue};

use crate::Event;
use pd_header::Side;
use pd_timers::Timer;

/// What falls due: an event, the end of what is on the line, or a side's timer.
#[derive(Clone, Copy, Debug)]
pub enum What {
    Event(Event),
    Line,
    Timer { side: Side, timer: Timer },
}

impl What {
    /// Whether the same falls due: an equal event, the line, or the same side's same timer.
    pub fn same(&self, other: &What) -> bool
        ensures { IsTrue result ↔ (self.now ≡ other.now) }
    {
        match (self, other) {
            (What::Event(event), What::Event(other)) => event.same(other),
            (What::Line, What::Line) => true,
            (
                What::Timer { side, timer },
                What::Timer {
                    side: other_side,
                    timer: other_timer,
                },
            ) => side == other_side && timer == other_timer,
            _ => false,
        }
    }
}

/// The next thing that happens on a port, and when, in microseconds.
#[derive(Clone, Copy, Debug)]
pub struct Due {
    pub time: u64,
    pub what: What,
}

impl Due {
    /// Whether the same falls due at the same time.
    pub fn same(&self, other: &Due) -> bool
        ensures { IsTrue result ↔ (self.now ≡ other.now) }
    {
        self.time == other.time && self.what.same(&other.what)
    }
}
