//! Which due comes first.

ghost use Rattle.std.specs.Prelude.{◌≡◌, ℕ, ◌<◌, ◌==◌, ◌&&◌, ◌||◌, nat_lt};
ghost use Rattle.std.specs.Option.{option_copied};
ghost use Rattle.pd_port.specs.Port.{side_place, rank, earlier, event_due};

use crate::{Due, Event, What};
use pd_header::Side;
use pd_timers::place_of;

/// The place of a side among those whose same timer ends at one time.
fn place_of_side(side: Side) -> usize
    ensures value { result ≡ side_place side }
    ensures few { result < 3 }
{
    match side {
        Side::Source => 0,
        Side::Sink => 1,
        Side::Plug => 2,
    }
}

/// The place of what falls due among all that falls due at one time.
pub(crate) fn rank_of(what: &What) -> usize
    ensures { result ≡ rank what.now }
{
    match what {
        What::Event(_) => 0,
        What::Line => 1,
        What::Timer { side, timer } => 2 + 3 * place_of(*timer) + place_of_side(*side),
    }
}

/// Whether something falls due before something else, where each has its time and its place among all that falls due then.
pub(crate) fn comes_before(first: (u64, usize), second: (u64, usize)) -> bool
    ensures { result ≡ (nat_lt first.0 second.0 || (first.0 == second.0 && nat_lt first.1 second.1)) }
{
    first.0 < second.0 || (first.0 == second.0 && first.1 < second.1)
}

/// A due's time, and its place among all that falls due then.
fn placed(due: &Due) -> (u64, usize)
    ensures { result ≡ (due.now.time, rank due.now.what) }
{
    (due.time, rank_of(&due.what))
}

/// The earlier of two dues, the first where neither is.
#[tactic(auto, unfolding(crate::specs::Port::is_before))]
pub(crate) fn earlier_of(first: Option<Due>, second: Option<Due>) -> Option<Due>
    ensures { result ≡ earlier first second }
{
    match (first, second) {
        (None, second) => second,
        (Some(first), None) => Some(first),
        (Some(first), Some(second)) => {
            if comes_before(placed(&second), placed(&first)) {
                Some(second)
            } else {
                Some(first)
            }
        }
    }
}

/// The next event, as a due.
pub(crate) fn due_of_event(next: Option<&Event>) -> Option<Due>
    ensures { result ≡ event_due (option_copied next.entry) }
{
    let event = next?;
    Some(Due {
        time: event.at(),
        what: What::Event(*event),
    })
}
