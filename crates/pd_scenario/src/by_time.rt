//! The changes of the shared budget in the order in which they come, in a room of the caller's, for whoever goes along them.

ghost use Rattle.std.specs.Prelude.{◌≡◌, ◌≤◌, ℕ, List, length, nat_le, take};
ghost use Rattle.std.specs.List.Sorted.{IsPermutation};
ghost use Rattle.pd_scenario.specs.ByTime.{IsByTime};
ghost use Rattle.pd_scenario.specs.Places.{ArePast, AreInOrder, StandsAt};
ghost use Rattle.pd_scenario.specs.Limits.{most_events};
ghost use Rattle.pd_scenario.specs.NextChange.{IsNextChange};
ghost use Rattle.pd_scenario.specs.Plan.{Plan, force};
ghost use Rattle.pd_scenario.specs.Plans.{change_of, changes_of, plan_of};

use crate::{BudgetChange, Scenario, ScenarioEvent, ScenarioHappening};

/// Where there are no more changes, a small room holds them: few scenarios have more.
pub const FEW: usize = 64;

/// Stands where no change is put yet.
pub const NO_CHANGE: BudgetChange = BudgetChange {
    id: 0,
    at: 0,
    budget: 0,
};

/// Whether a scenario's budget has few changes.
pub fn has_few_changes<const N: usize>(scenario: &Scenario<N>) -> bool
    ensures few { result ≡ nat_le (length (plan_of scenario.now).forces) FEW }
    ensures most { length (plan_of scenario.now).forces ≤ most_events }
{
    count_changes(scenario.events()) <= FEW
}

/// How many of the events are changes of the budget.
fn count_changes(events: &[ScenarioEvent]) -> usize
    ensures { result ≡ length (changes_of events.now) }
{
    let mut count = 0;
    for event in events {
        if let Some(_change) = change_of(event) {
            count += 1;
        }
    }
    count
}

/// Puts the changes of a scenario's budget into the room in their order, and answers how many there are.
pub fn put_in_order<const N: usize>(scenario: &Scenario<N>, room: &mut [BudgetChange]) -> usize
    requires enough { length (plan_of scenario.now).forces ≤ length room.old }
    ensures within { result ≤ length room.new }
    ensures order { IsByTime (plan_of scenario.now).forces (take result room.new) }
{
    let count = gather(scenario.events(), room);
    sort(&mut room[..count]);
    count
}

/// Puts the changes among events into the room, and answers how many there are.
fn gather(events: &[ScenarioEvent], room: &mut [BudgetChange]) -> usize
    requires enough { length (changes_of events.now) ≤ length room.old }
    ensures within { result ≤ length room.new }
    ensures all { take result room.new ≡ changes_of events.now }
{
    let mut count = 0;
    for event in events {
        if let Some(change) = change_of(event) {
            room[count] = change;
            count += 1;
        }
    }
    count
}

/// The change of the budget that an event is.
fn change_of(event: &ScenarioEvent) -> Option<BudgetChange>
    ensures { result ≡ change_of event.now }
{
    match &event.happening {
        ScenarioHappening::OnPort { .. } => None,
        ScenarioHappening::Budget { mw } => Some(BudgetChange {
            id: event.id,
            at: u64::from(event.at),
            budget: u64::from(*mw) * 1_000,
        }),
    }
}

/// Sorts changes by their times, and at one time by their ids.
fn sort(changes: &mut [BudgetChange])
    ensures same { IsPermutation changes.old changes.new }
    ensures in_order { AreInOrder changes.new }
{
    changes.sort_unstable_by_key(|change| (change.at, change.id));
}

/// Goes on from a place in the order past the changes that come by a time, as all before the place do.
pub fn passed(order: &[BudgetChange], place: usize, at: u64) -> usize
    requires in_order { AreInOrder order.now }
    requires within { place ≤ length order.now }
    requires past { ArePast order.now place at }
    ensures up { place ≤ result }
    ensures stands { StandsAt order.now result at }
{
    let mut place = place;
    while place < order.len() && order[place].at <= at {
        place += 1;
    }
    place
}

/// The budget at a place in the order: that of the change before it, and where there is none that before all changes.
pub fn budget_at(order: &[BudgetChange], place: usize, before_all: u64) -> u64
    requires within { place ≤ length order.now }
    ensures { (plan : Plan) (at : ℕ) → IsByTime plan.forces order.now → StandsAt order.now place at
        → (place ≡ 0 → before_all ≡ plan.budget) → result ≡ force plan at }
{
    if place == 0 {
        return before_all;
    }
    order[place - 1].budget
}

/// The time of the change at a place in the order, which is the next one.
pub fn next_at(order: &[BudgetChange], place: usize) -> Option<u64>
    ensures { (changes : List BudgetChange) (at : ℕ) → IsByTime changes order.now → StandsAt order.now place at
        → IsNextChange changes at result }
{
    match order.get(place) {
        Some(change) => Some(change.at),
        None => None,
    }
}
