//! The step of which a run mostly consists: the source finds the offer as it was delivered, and nothing starts.

ghost use Rattle.std.specs.Prelude.{◌≡◌, ◌↔◌, ◌≤◌, ◌&&◌, ◌||◌, None, IsTrue};
ghost use Rattle.pd_header.specs.declared.side.Side.TheVariants as sides;
ghost use Rattle.pd_timers.specs.declared.Timer.TheVariants.{OfferPoll};
ghost use Rattle.pd_line.specs.Lines.{is_idle, is_waiting};
ghost use Rattle.pd_port.specs.declared.due.What.TheVariants as whats;
ghost use Rattle.pd_port.specs.Port.{begun, portstep};

use crate::{Due, What};
use pd_header::Side;
use pd_line::stepping::{Line, PortParts, Waiting};
use pd_objects::Answer;
use pd_source::Stimulus;
use pd_timers::{LAST_TIME, Timer};

/// Takes such a step where the parts stand, and nothing is noted; whether it was one. If not, the parts are of no use any more.
#[tactic(auto, using(crate::proofs::Polled::polled_is))]
pub(crate) fn polls_again(parts: &mut PortParts, due: &Due, answer: &Option<Answer>) -> bool
    requires { due.now.time ≤ LAST_TIME }
    ensures { IsTrue result → begun parts.new None ≡ portstep parts.old due.now answer.now }
{
    let What::Timer {
        side: Side::Source,
        timer,
    } = due.what
    else {
        return false;
    };
    if others_start(parts) {
        return false;
    }
    if !parts
        .source
        .polls_again(due.time, &Stimulus::Ended(timer), answer)
    {
        return false;
    }
    parts.source_waits = Waiting::Nothing;
    true
}

/// Whether the end of OfferPoll falls due on the source.
pub(crate) fn is_poll(due: &Due) -> bool
    ensures { IsTrue result ↔ (due.now.what ≡ whats.Timer sides.Source OfferPoll) }
{
    matches!(
        due.what,
        What::Timer {
            side: Side::Source,
            timer: Timer::OfferPoll
        }
    )
}

/// Whether what waits on sink or plug starts where nothing waits on the source.
fn others_start(parts: &PortParts) -> bool
    ensures { result ≡ (is_idle parts.now.line && (is_waiting parts.now.sink_waits || is_waiting parts.now.plug_waits)) }
{
    matches!(parts.line, Line::Idle)
        && (!matches!(parts.sink_waits, Waiting::Nothing)
            || !matches!(parts.plug_waits, Waiting::Nothing))
}
