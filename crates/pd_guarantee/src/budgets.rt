//! Between which budgets the ports of a scenario share power.

ghost use Rattle.std.specs.Prelude.{◌≡◌, fold, max, min};
ghost use Rattle.std.specs.List.{filter_map};
ghost use Rattle.pd_guarantee.specs.Charger.{budget_by};

use pd_scenario::{ScenarioEvent, ScenarioHappening};

/// The budget that an event changes to in the run, in mW.
fn budget_by(end: u32, event: &ScenarioEvent) -> Option<u32>
    ensures { result ≡ budget_by end event.now }
{
    match &event.happening {
        ScenarioHappening::Budget { mw } if event.at <= end => Some(*mw),
        _ => None,
    }
}

/// The least of the budget at the start and of those that events change to in the run, in mW.
pub(crate) fn least_mw(budget_mw: u32, end: u32, events: &[ScenarioEvent]) -> u32
    ensures { result ≡ fold min budget_mw (filter_map (budget_by end) events.now) }
{
    let mut least = budget_mw;
    for event in events {
        if let Some(mw) = budget_by(end, event) {
            least = least.min(mw);
        }
    }
    least
}

/// The greatest of them.
pub(crate) fn greatest_mw(budget_mw: u32, end: u32, events: &[ScenarioEvent]) -> u32
    ensures { result ≡ fold max budget_mw (filter_map (budget_by end) events.now) }
{
    let mut greatest = budget_mw;
    for event in events {
        if let Some(mw) = budget_by(end, event) {
            greatest = greatest.max(mw);
        }
    }
    greatest
}
