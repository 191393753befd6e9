//! What an edit is refused for.

ghost use Rattle.std.specs.Prelude.{◌≡◌, ◌+◌, ◌<◌, ◌^◌, ◌==◌, not, ◌||◌, nat_le, length, find};
ghost use Rattle.std.specs.List.{list_all, list_any};
ghost use Rattle.pd_scenario.specs.Scenarios.{floors_mw};
ghost use Rattle.pd_scenario.specs.Limits.{is_port};
ghost use Rattle.pd_edit.specs.Edits.{changed_from, with_floor, has_cable, has_sink};
ghost use Rattle.pd_edit.specs.Refusals.{id_is_free, id_is_known, happens_on_port, is_on_port, port_is_known, kind_is_known};
ghost use Rattle.pd_edit.specs.Refusals.{happening_is_known, name_is_known, names_cable, names_sink, is_unused, kind_in_range};
ghost use Rattle.pd_edit.specs.Refusals.{happening_in_range, supply_in_range, in_range, begin_at, follows, voltages_rise, are_supplies};
ghost use Rattle.pd_edit.specs.Refusals.{supplies_rise, stays_funded, has_room, refuses, refusals};

use pd_edit_lines::{Edit, EditFault, EditHappening, EditKind, WrittenSupply};
use pd_scenario::{
    FIRST_MV, MOST_EVENTS, MOST_NAMES, Name, Quantity, Scenario, ScenarioEvent, ScenarioHappening,
    are_funded, least_budget, rating_of,
};
use pd_setup::{EventKind, Settings};

/// What an edit may be refused for, the least number first.
pub const REFUSALS: [EditFault; 9] = [
    EditFault::IdTaken,
    EditFault::NoSuchId,
    EditFault::NoSuchPort,
    EditFault::NoSuchName,
    EditFault::InUse,
    EditFault::Range,
    EditFault::Supplies,
    EditFault::Floors,
    EditFault::Limit,
];

/// Whether no event has the id of a new one.
fn id_is_free<const N: usize>(scenario: &Scenario<N>, edit: &Edit) -> bool
    ensures { result ≡ id_is_free scenario.now edit.now }
{
    match edit {
        Edit::Insert { id, .. } => !scenario.has_id(*id),
        _ => true,
    }
}

/// Whether some event has the id.
fn id_is_known<const N: usize>(scenario: &Scenario<N>, edit: &Edit) -> bool
    ensures { result ≡ id_is_known scenario.now edit.now }
{
    match edit {
        Edit::Remove { id } => scenario.has_id(*id),
        Edit::Move { id, .. } => scenario.has_id(*id),
        Edit::Change { id, .. } => scenario.has_id(*id),
        _ => true,
    }
}

fn is_port(ports: usize, port: u64) -> bool
    ensures { result ≡ is_port ports port }
{
    1 <= port && port <= ports as u64
}

fn happens_on_port(ports: usize, happening: &EditHappening) -> bool
    ensures { result ≡ happens_on_port ports happening.now }
{
    match happening {
        EditHappening::OnPort { port, .. } => is_port(ports, *port),
        EditHappening::Budget { .. } => true,
    }
}

fn is_on_port(happening: &ScenarioHappening) -> bool
    ensures { result ≡ is_on_port happening.now }
{
    match happening {
        ScenarioHappening::OnPort { .. } => true,
        ScenarioHappening::Budget { .. } => false,
    }
}

/// Whether no event of the id is a change of the budget.
fn are_on_port(events: &[ScenarioEvent], id: u64) -> bool
    ensures { result ≡ list_all (λ e. not (e.id == id) || is_on_port e.happening) events.now }
{
    events.iter().all(|event| u64::from(event.id) != id || is_on_port(&event.happening))
}

/// Whether there is such a port; a change of the budget is on none.
fn port_is_known<const N: usize>(scenario: &Scenario<N>, edit: &Edit) -> bool
    ensures { result ≡ port_is_known N scenario.now edit.now }
{
    match edit {
        Edit::Insert { happening, .. } => happens_on_port(N, happening),
        Edit::Change { id, .. } => are_on_port(scenario.events(), *id),
        Edit::Caps { port, .. } => is_port(N, *port),
        Edit::Floor { port, .. } => is_port(N, *port),
        _ => true,
    }
}

fn kind_is_known<const N: usize>(scenario: &Scenario<N>, kind: &EditKind) -> bool
    ensures { result ≡ kind_is_known scenario.now kind.now }
{
    match kind {
        EventKind::Attach { cable, sink } => {
            scenario.cable(cable).is_some() && scenario.sink(sink).is_some()
        }
        _ => true,
    }
}

fn happening_is_known<const N: usize>(scenario: &Scenario<N>, happening: &EditHappening) -> bool
    ensures { result ≡ happening_is_known scenario.now happening.now }
{
    match happening {
        EditHappening::OnPort { kind, .. } => kind_is_known(scenario, kind),
        EditHappening::Budget { .. } => true,
    }
}

/// Whether a cable or a sink has the name.
fn name_is_known<const N: usize>(scenario: &Scenario<N>, edit: &Edit) -> bool
    ensures { result ≡ name_is_known scenario.now edit.now }
{
    match edit {
        Edit::Insert { happening, .. } => happening_is_known(scenario, happening),
        Edit::Change { kind, .. } => kind_is_known(scenario, kind),
        Edit::DropCable { name } => scenario.cable(name).is_some(),
        Edit::DropSink { name } => scenario.sink(name).is_some(),
        _ => true,
    }
}

fn names_cable(name: &Name, happening: &ScenarioHappening) -> bool
    ensures { result ≡ names_cable name.now happening.now }
{
    match happening {
        ScenarioHappening::OnPort {
            kind: EventKind::Attach { cable, .. },
            ..
        } => cable.as_str() == name.as_str(),
        _ => false,
    }
}

fn names_sink(name: &Name, happening: &ScenarioHappening) -> bool
    ensures { result ≡ names_sink name.now happening.now }
{
    match happening {
        ScenarioHappening::OnPort {
            kind: EventKind::Attach { sink, .. },
            ..
        } => sink.as_str() == name.as_str(),
        _ => false,
    }
}

fn some_names_cable(events: &[ScenarioEvent], name: &Name) -> bool
    ensures { result ≡ list_any (λ e. names_cable name.now e.happening) events.now }
{
    events
        .iter()
        .any(|event| names_cable(name, &event.happening))
}

fn some_names_sink(events: &[ScenarioEvent], name: &Name) -> bool
    ensures { result ≡ list_any (λ e. names_sink name.now e.happening) events.now }
{
    events
        .iter()
        .any(|event| names_sink(name, &event.happening))
}

/// Whether no event names what is dropped.
fn is_unused<const N: usize>(scenario: &Scenario<N>, edit: &Edit) -> bool
    ensures { result ≡ is_unused scenario.now edit.now }
{
    match edit {
        Edit::DropCable { name } => !some_names_cable(scenario.events(), name),
        Edit::DropSink { name } => !some_names_sink(scenario.events(), name),
        _ => true,
    }
}

fn kind_in_range(kind: &EditKind) -> bool
    ensures { result ≡ kind_in_range kind.now }
{
    match kind {
        EventKind::Demand(mw) => Quantity::Demand.allows(*mw),
        EventKind::Damage(harm) => {
            Quantity::DamagePlace.allows(harm.place) && Quantity::DamageMask.allows(harm.mask)
        }
        _ => true,
    }
}

fn happening_in_range(happening: &EditHappening) -> bool
    ensures { result ≡ happening_in_range happening.now }
{
    match happening {
        EditHappening::OnPort { kind, .. } => kind_in_range(kind),
        EditHappening::Budget { mw } => Quantity::Budget.allows(*mw),
    }
}

fn supply_in_range(supply: WrittenSupply) -> bool
    ensures { result ≡ supply_in_range supply }
{
    Quantity::Voltage.allows(supply.mv) && Quantity::Current.allows(supply.ma)
}

fn supplies_in_range(supplies: &[WrittenSupply]) -> bool
    ensures { result ≡ list_all supply_in_range supplies.now }
{
    supplies.iter().all(|supply| supply_in_range(*supply))
}

/// Whether the numbers are within their limits.
fn in_range(edit: &Edit) -> bool
    ensures { result ≡ in_range edit.now }
{
    match edit {
        Edit::Insert { id, at, happening } => {
            Quantity::EventId.allows(*id)
                && Quantity::Time.allows(*at)
                && happening_in_range(happening)
        }
        Edit::Move { at, .. } => Quantity::Time.allows(*at),
        Edit::Change { kind, .. } => kind_in_range(kind),
        Edit::Cable { rating, .. } => rating_of(*rating).is_some(),
        Edit::Sink {
            max_mv,
            demand_mw,
            ..
        } => Quantity::Voltage.allows(*max_mv) && Quantity::Demand.allows(*demand_mw),
        Edit::Caps { supplies, .. } => supplies_in_range(supplies.as_slice()),
        Edit::Floor { mw, .. } => Quantity::Floor.allows(*mw),
        Edit::Budget { mw } => Quantity::Budget.allows(*mw),
        Edit::End { at } => Quantity::Time.allows(*at),
        _ => true,
    }
}

fn begin_at(mv: u64, supplies: &[WrittenSupply]) -> bool
    ensures { result ≡ begin_at mv supplies.now }
{
    match supplies {
        [first, ..] => first.mv == mv,
        [] => false,
    }
}

/// Whether the first of the supplies, if there is one, has a greater voltage.
fn follows(mv: u64, supplies: &[WrittenSupply]) -> bool
    ensures { result ≡ follows mv supplies.now }
{
    match supplies {
        [first, ..] => mv < first.mv,
        [] => true,
    }
}

fn voltages_rise(supplies: &[WrittenSupply]) -> bool
    ensures { result ≡ voltages_rise supplies.now }
{
    let mut rest = supplies;
    while let [first, others @ ..] = rest {
        if !follows(first.mv, others) {
            return false;
        }
        rest = others;
    }
    true
}

/// Whether the first of the supplies is of 5 V, and the voltages rise.
fn supplies_rise(edit: &Edit) -> bool
    ensures { result ≡ supplies_rise edit.now }
{
    match edit {
        Edit::Caps { supplies, .. } => {
            let supplies = supplies.as_slice();
            begin_at(u64::from(FIRST_MV), supplies) && voltages_rise(supplies)
        }
        _ => true,
    }
}

/// Whether the floors add to no more than a budget, in mW, with another floor of one port, the first of the ports being
/// numbered so.
fn are_funded_with(settings: &[Settings], first: u64, port: u64, mw: u64, budget_mw: u64) -> bool
    requires { first + length settings.now < 2 ^ 64 }
    ensures { result ≡ nat_le (floors_mw (changed_from first port (with_floor mw) settings.now)) budget_mw }
{
    match settings {
        [] => true,
        [own, others @ ..] => {
            let floor = if first == port {
                mw
            } else {
                u64::from(own.floor_mw())
            };
            floor <= budget_mw && are_funded_with(others, first + 1, port, mw, budget_mw - floor)
        }
    }
}

/// Whether the floors then add to no more than the least of the budget and its changes.
#[tactic(auto, using(crate::proofs::Floors::least_append))]
fn stays_funded<const N: usize>(scenario: &Scenario<N>, edit: &Edit) -> bool
    ensures { result ≡ stays_funded scenario.now edit.now }
{
    let settings = scenario.ports();
    let events = scenario.events();
    let budget_mw = u64::from(scenario.budget_mw());
    match edit {
        Edit::Insert {
            happening: EditHappening::Budget { mw },
            ..
        } => are_funded(settings, least_budget(budget_mw, events).min(*mw)),
        Edit::Floor { port, mw } => {
            are_funded_with(settings, 1, *port, *mw, least_budget(budget_mw, events))
        }
        Edit::Budget { mw } => are_funded(settings, least_budget(*mw, events)),
        _ => true,
    }
}

/// Whether there may be one more.
fn has_room<const N: usize>(scenario: &Scenario<N>, edit: &Edit) -> bool
    ensures { result ≡ has_room scenario.now edit.now }
{
    match edit {
        Edit::Insert { .. } => scenario.events().len() < MOST_EVENTS,
        Edit::Cable { name, .. } => {
            scenario.cable(name).is_some() || scenario.cables().len() < MOST_NAMES
        }
        Edit::Sink { name, .. } => {
            scenario.sink(name).is_some() || scenario.sinks().len() < MOST_NAMES
        }
        _ => true,
    }
}

/// Whether an edit of a scenario is refused for this.
fn refuses<const N: usize>(fault: EditFault, scenario: &Scenario<N>, edit: &Edit) -> bool
    ensures { result ≡ refuses fault N scenario.now edit.now }
{
    match fault {
        EditFault::IdTaken => !id_is_free(scenario, edit),
        EditFault::NoSuchId => !id_is_known(scenario, edit),
        EditFault::NoSuchPort => !port_is_known(scenario, edit),
        EditFault::NoSuchName => !name_is_known(scenario, edit),
        EditFault::InUse => !is_unused(scenario, edit),
        EditFault::Range => !in_range(edit),
        EditFault::Supplies => !supplies_rise(edit),
        EditFault::Floors => !stays_funded(scenario, edit),
        EditFault::Limit => !has_room(scenario, edit),
        EditFault::Syntax | EditFault::Memory => false,
    }
}

/// The first refusal that applies.
pub(crate) fn first_refusal<const N: usize>(
    scenario: &Scenario<N>,
    edit: &Edit,
) -> Option<EditFault>
    ensures { result ≡ find (λ fault. refuses fault N scenario.now edit.now) refusals }
{
    REFUSALS.iter().copied().find(
        |fault| -> bool
            ensures { result ≡ refuses fault.now N scenario.entry.now edit.entry.now }
        { refuses(*fault, scenario, edit) },
    )
}
