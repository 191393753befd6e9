//! Whether the rule at a place is broken.

ghost use Rattle.std.specs.Prelude.{◌≡◌, ◌==◌, not, ◌||◌};
ghost use Rattle.std.specs.List.{list_all};
ghost use Rattle.pd_scenario.specs.Limits.{is_port};
ghost use Rattle.pd_edit.specs.Refusals.{is_on_port};
ghost use Rattle.pd_explain.specs.Places.{is_broken, most_of};

use crate::{Counted, Place};
use pd_scenario::{
    FIRST_MV, MOST_EVENTS, MOST_NAMES, Scenario, ScenarioEvent, ScenarioHappening, rating_of,
};

/// Whether there is a port of this number, among so many.
pub fn is_port(ports: usize, port: u64) -> bool
    ensures { result ≡ is_port ports port }
{
    1 <= port && port <= ports as u64
}

fn is_on_port(happening: &ScenarioHappening) -> bool
    ensures { result ≡ is_on_port happening.now }
{
    match happening {
        ScenarioHappening::OnPort { .. } => true,
        ScenarioHappening::Budget { .. } => false,
    }
}

/// Whether no event of the id is a change of the budget.
fn are_on_port(events: &[ScenarioEvent], id: u64) -> bool
    ensures { result ≡ list_all (λ e. not (e.id == id) || is_on_port e.happening) events.now }
{
    events.iter().all(|event| u64::from(event.id) != id || is_on_port(&event.happening))
}

impl Counted {
    /// The most that there may be.
    fn most(self) -> usize
        ensures { result ≡ most_of self }
    {
        match self {
            Counted::Events => MOST_EVENTS,
            Counted::Cables | Counted::Sinks => MOST_NAMES,
        }
    }
}

/// Whether an edit of a scenario breaks the rule at a place.
pub(crate) fn is_broken<const N: usize>(scenario: &Scenario<N>, place: &Place) -> bool
    ensures { result ≡ is_broken N scenario.now place.now }
{
    match place {
        Place::NewId { id } => scenario.has_id(*id),
        Place::KnownId { id } => !scenario.has_id(*id),
        Place::Port { port } => !is_port(N, *port),
        Place::Changed { id } => !are_on_port(scenario.events(), *id),
        Place::Cable { name } => scenario.cable(name).is_none(),
        Place::Sink { name } => scenario.sink(name).is_none(),
        Place::User { .. } => true,
        Place::Number {
            quantity,
            value,
            ..
        } => !quantity.allows(*value),
        Place::Rating { rating } => rating_of(*rating).is_none(),
        Place::SupplyCount { count } => !(1 <= *count && *count <= 7),
        Place::FirstSupply { mv } => *mv != u64::from(FIRST_MV),
        Place::NextSupply { mv, before, .. } => *mv <= *before,
        Place::Floors {
            floors_mw,
            budget_mw,
        } => *floors_mw > u128::from(*budget_mw),
        Place::Room { counted, count } => *count >= counted.most(),
    }
}
