//! Events before a time.

ghost use Rattle.std.specs.Prelude.{◌≡◌, ◌-◌, ◌≤◌, length, take, drop};
ghost use Rattle.pd_scenario.specs.Plan.{script_of};
ghost use Rattle.pd_run.specs.UpTo.{had_by};

use crate::Plan;
use pd_setup::Event;

/// How many events of a port are before a time, where so many are known to be.
pub(crate) fn had_by<const N: usize>(plan: &Plan<N>, port: usize, known: usize, at: u64) -> usize
    requires first { 1 ≤ port }
    requires last { port ≤ N }
    requires known { known ≤ had_by at (script_of plan.now (port - 1)) }
    ensures { result ≡ had_by at (script_of plan.now (port - 1)) }
{
    let mut had = known;
    while let Some(event) = plan.event(port, had) {
        if event.at() >= at {
            return had;
        }
        had += 1;
    }
    had
}

/// The events of a port from one place in its script to another.
pub(crate) fn events_from<const N: usize>(
    plan: &Plan<N>,
    port: usize,
    from: usize,
    to: usize,
) -> &[Event]
    requires first { 1 ≤ port }
    requires last { port ≤ N }
    requires up { from ≤ to }
    requires within { to ≤ length (script_of plan.now (port - 1)) }
    ensures { result.now ≡ take (to - from) (drop from (script_of plan.now (port - 1))) }
{
    &plan.script(port)[from..to]
}
