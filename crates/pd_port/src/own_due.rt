//! What falls due on a port but for events.

ghost use Rattle.std.specs.Prelude.{◌≡◌, option_map};
ghost use Rattle.pd_line.specs.Later.{line_end};
ghost use Rattle.pd_port.specs.OwnDue.{told_due};
ghost use Rattle.pd_port.specs.Port.{earlier, rank, line_due, timer_due};

use crate::dues::{comes_before, rank_of};
use crate::{Due, What};
use pd_header::Side;
use pd_line::stepping::Line;
use pd_timers::Timer;

/// What falls due on a port but for events: nothing, the end of what is on its line, or a side's timer, at a time in microseconds. It is
/// shorter than a due.
#[derive(Clone, Copy, Debug)]
pub enum OwnDue {
    Nothing,
    Line(u64),
    Timer(Side, Timer, u64),
}

impl OwnDue {
    /// The same as a due.
    pub fn due(&self) -> Option<Due>
        ensures { result ≡ told_due self.now }
    {
        let (time, what) = match *self {
            OwnDue::Nothing => return None,
            OwnDue::Line(time) => (time, What::Line),
            OwnDue::Timer(side, timer, time) => (time, What::Timer { side, timer }),
        };
        Some(Due { time, what })
    }

    /// Its time, and its place among all that falls due then.
    fn placed(&self) -> Option<(u64, usize)>
        ensures { result ≡ option_map (λ d. (d.time, rank d.what)) (told_due self.now) }
    {
        match *self {
            OwnDue::Nothing => None,
            OwnDue::Line(time) => Some((time, rank_of(&What::Line))),
            OwnDue::Timer(side, timer, time) => {
                Some((time, rank_of(&What::Timer { side, timer })))
            }
        }
    }
}

/// The end of what is on the line.
pub(crate) fn own_due_of_line(line: &Line) -> OwnDue
    ensures { told_due result ≡ line_due (line_end line.now) }
{
    match line {
        Line::Idle => OwnDue::Nothing,
        Line::Message { end, .. } => OwnDue::Line(*end),
        Line::Pause { end, .. } => OwnDue::Line(*end),
        Line::GoodCrc { end, .. } => OwnDue::Line(*end),
        Line::NoAnswer { end, .. } => OwnDue::Line(*end),
        Line::HardReset { end, .. } => OwnDue::Line(*end),
    }
}

/// The end of the first timer of a side's engine.
pub(crate) fn own_due_of_timer(side: Side, first: Option<(u64, Timer)>) -> OwnDue
    ensures { told_due result ≡ timer_due side first }
{
    match first {
        Some((time, timer)) => OwnDue::Timer(side, timer, time),
        None => OwnDue::Nothing,
    }
}

/// The earlier of two, the first where neither is.
#[tactic(auto, unfolding(crate::specs::Port::is_before))]
pub(crate) fn earlier_own_due(first: OwnDue, second: OwnDue) -> OwnDue
    ensures { told_due result ≡ earlier (told_due first) (told_due second) }
{
    match (first.placed(), second.placed()) {
        (None, _) => second,
        (Some(_), None) => first,
        (Some(one), Some(other)) => {
            if comes_before(other, one) {
                second
            } else {
                first
            }
        }
    }
}
