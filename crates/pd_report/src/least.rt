//! The least that the contracts of a run leave of the shared budget.

ghost use Rattle.std.specs.Prelude.{◌≡◌, ◌<◌, ◌≤◌, ℕ, MatchOption, length};
ghost use Rattle.pd_report.specs.LeastMargin.{IsLeastMargin, lesser, margin_at};
ghost use Rattle.pd_report.specs.Walk.{IsWalk, left_of};
ghost use Rattle.pd_scenario.specs.Limits.{most_events};
ghost use Rattle.pd_scenario.specs.Plans.{plan_of};

use crate::margin_lines::{end_instant, pass, see_entry};
use crate::walk::Walk;
use pd_run::Runner;
use pd_scenario::{FEW, MOST_EVENTS, NO_CHANGE, Scenario, has_few_changes, put_in_order};

/// What the contracts of all ports leave of the shared budget at the end of an instant.
#[derive(Clone, Copy, Debug, PartialEq, Eq)]
pub struct Margin {
    /// The instant, in microseconds.
    pub at: u64,
    /// What is left, in microwatts.
    pub left: u64,
}

/// The lesser of two margins, and the first where both are the same.
fn lesser(least: Option<Margin>, margin: Margin) -> Margin
    ensures { result ≡ lesser least margin }
{
    match least {
        Some(least) if least.left <= margin.left => least,
        _ => margin,
    }
}

/// Sees the next entry that changes a contract; or goes on to the next instant, and answers what is left at the end of those
/// that have ended.
fn step<const N: usize, T: Runner<N>>(
    run: &T,
    scenario: &Scenario<N>,
    walk: &mut Walk<'_>,
) -> Option<u64>
    requires walk { IsWalk (plan_of scenario.now) (T.entries run.now) walk.old }
    requires in_time { walk.old.at ≤ (plan_of scenario.now).end }
    ensures walk { IsWalk (plan_of scenario.now) (T.entries run.now) walk.new }
    ensures left { MatchOption result (walk.new.at ≡ walk.old.at) (λ left. (walk.old.at < walk.new.at)
        × ((t : ℕ) → walk.old.at ≤ t → t < walk.new.at → margin_at (plan_of scenario.now) (T.entries run.now) t ≡ left)) }
    ensures less { left_of (plan_of scenario.now) (T.entries run.now) walk.new
        < left_of (plan_of scenario.now) (T.entries run.now) walk.old }
{
    pass(run, walk);
    if see_entry(run, walk) {
        return None;
    }
    let left = walk.margin();
    end_instant(run, scenario, walk);
    Some(left)
}

/// The least that the contracts of all ports leave of the scenario's budget at the end of an instant of the run, and the first of
/// these instants.
pub fn least_margin<const N: usize, T: Runner<N>>(run: &T, scenario: &Scenario<N>) -> Margin
    ensures { IsLeastMargin (plan_of scenario.now) (T.entries run.now) result }
{
    if has_few_changes(scenario) {
        least_with_room::<FEW, N, T>(run, scenario)
    } else {
        least_with_room::<MOST_EVENTS, N, T>(run, scenario)
    }
}

/// The least margin, with room for so many changes of the budget. It stands alone, so that a small room is all that is paid
/// for where there are few.
#[inline(never)]
fn least_with_room<const K: usize, const N: usize, T: Runner<N>>(
    run: &T,
    scenario: &Scenario<N>,
) -> Margin
    requires room { K ≤ most_events }
    requires enough { length (plan_of scenario.now).forces ≤ K }
    ensures { IsLeastMargin (plan_of scenario.now) (T.entries run.now) result }
{
    let mut room = [NO_CHANGE; K];
    let count = put_in_order(scenario, &mut room);
    let mut walk = Walk::new(scenario, &room[..count]);
    let end = scenario.end_time();
    let mut least = None;
    while walk.at <= end {
        let at = walk.at;
        if let Some(left) = step(run, scenario, &mut walk) {
            least = Some(lesser(least, Margin { at, left }));
        }
    }
    match least {
        Some(least) => least,
        None => Margin { at: 0, left: 0 },
    }
}
