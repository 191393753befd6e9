//! Whether the floors of the ports fit the budget that they share.

ghost use Rattle.std.specs.Prelude.{◌≡◌};
ghost use Rattle.pd_scenario.specs.Scenarios.{are_funded, budget_of, least_budget};

use crate::{ScenarioEvent, ScenarioHappening};
use pd_setup::Settings;

/// The budget that an event changes to, in mW.
fn budget_of(event: &ScenarioEvent) -> Option<u64>
    ensures { result ≡ budget_of event.now }
{
    match &event.happening {
        ScenarioHappening::OnPort { .. } => None,
        ScenarioHappening::Budget { mw } => Some(u64::from(*mw)),
    }
}

/// The least of a budget and its changes, in mW.
pub fn least_budget(budget_mw: u64, events: &[ScenarioEvent]) -> u64
    ensures { result ≡ least_budget budget_mw events.now }
{
    let mut least = budget_mw;
    for event in events {
        if let Some(mw) = budget_of(event) {
            least = least.min(mw);
        }
    }
    least
}

/// Whether the floors of ports add to no more than a budget, in mW.
pub fn are_funded(settings: &[Settings], budget_mw: u64) -> bool
    ensures { result ≡ are_funded settings.now budget_mw }
{
    let mut left = budget_mw;
    for port in settings {
        let floor = u64::from(port.floor_mw());
        if floor > left {
            return false;
        }
        left -= floor;
    }
    true
}
