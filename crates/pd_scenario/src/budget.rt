//! The budget at each time.

ghost use Rattle.std.specs.Prelude.{◌≡◌};
ghost use Rattle.pd_scenario.specs.Plan.{is_later, with_change, last_change};
ghost use Rattle.pd_scenario.specs.Plans.{change_of, changes_of};

use crate::{ScenarioEvent, ScenarioHappening};

/// A change of the budget that all ports share: its id, its time in microseconds, and the budget from then on in
/// microwatts.
#[derive(Clone, Copy, Debug, PartialEq, Eq)]
pub struct BudgetChange {
    pub id: u32,
    pub at: u64,
    pub budget: u64,
}

/// The change of the budget that an event is.
pub(crate) fn change_of(event: &ScenarioEvent) -> Option<BudgetChange>
    ensures { result ≡ change_of event.now }
{
    match &event.happening {
        ScenarioHappening::OnPort { .. } => None,
        ScenarioHappening::Budget { mw } => Some(BudgetChange {
            id: event.id,
            at: u64::from(event.at),
            budget: u64::from(*mw) * 1_000,
        }),
    }
}

/// Whether a change is later than the last one known.
fn is_later(last: Option<BudgetChange>, change: BudgetChange) -> bool
    ensures { result ≡ is_later last change }
{
    match last {
        None => true,
        Some(last) => last.at < change.at || last.at == change.at && last.id < change.id,
    }
}

/// The last one known at a time, with one more change.
fn with_change(at: u64, last: Option<BudgetChange>, change: BudgetChange) -> Option<BudgetChange>
    ensures { result ≡ with_change at last change }
{
    if change.at <= at && is_later(last, change) {
        Some(change)
    } else {
        last
    }
}

/// The last change of the budget at or before a time: by time, and at one time by id.
pub(crate) fn last_change(events: &[ScenarioEvent], at: u64) -> Option<BudgetChange>
    ensures { result ≡ last_change (changes_of events.now) at }
{
    let mut last = None;
    for event in events {
        if let Some(change) = change_of(event) {
            last = with_change(at, last, change);
        }
    }
    last
}
