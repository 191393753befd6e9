//! Edits of a scenario.

ghost use Rattle.std.specs.Prelude.{◌≡◌, IfOk};
ghost use Rattle.pd_scenario.specs.Scenarios.{ScenarioData, IsValid};
ghost use Rattle.pd_edit.specs.Edits.{outcome, with_cable, with_sink, HasNames};
ghost use Rattle.pd_edit.specs.Refusals.{Applies, IsAccepted, edited};

use crate::change::{
    with_event, with_kind, with_new_cable, with_new_sink, with_other_cable, with_other_sink,
    with_port_floor, with_port_supplies, with_time, without_cable, without_event, without_sink,
};
use crate::made::{inserted_event, supplies_of, written_cable, written_sink};
use crate::refusals::first_refusal;
use pd_edit_lines::{Edit, EditFault};
use pd_scenario::{NamedCable, NamedSink, Scenario, ScenarioEvent};
use pd_setup::Settings;
use std::alloc::{AllocError, Global};

/// What the ports are set to after an edit.
fn settings_after<const N: usize>(
    alloc: Global,
    scenario: &Scenario<N>,
    edit: &Edit,
) -> Result<Vec<Settings>, AllocError>
    requires { IsAccepted N scenario.now edit.now }
    ensures { IfOk result (λ v. v.items ≡ (outcome scenario.now edit.now).settings) }
{
    let settings = scenario.ports();
    match edit {
        Edit::Caps { port, supplies } => {
            with_port_supplies(alloc, settings, *port, &supplies_of(supplies))
        }
        Edit::Floor { port, mw } => with_port_floor(alloc, settings, *port, *mw as u32),
        _ => settings.iter().map(|port| port.copy()).collect(alloc),
    }
}

/// The cables of a scenario with a new one, or with another in place of the one of its name.
fn put_cable<const N: usize>(
    alloc: Global,
    scenario: &Scenario<N>,
    cable: NamedCable,
) -> Result<Vec<NamedCable>, AllocError>
    ensures { IfOk result (λ v. v.items ≡ with_cable cable scenario.now.cables) }
{
    let cables = scenario.cables();
    if scenario.cable(&cable.name).is_some() {
        with_other_cable(alloc, cables, &cable)
    } else {
        with_new_cable(alloc, cables, cable)
    }
}

/// The cables after an edit.
fn cables_after<const N: usize>(
    alloc: Global,
    scenario: &Scenario<N>,
    edit: &Edit,
) -> Result<Vec<NamedCable>, AllocError>
    requires { IsAccepted N scenario.now edit.now }
    ensures { IfOk result (λ v. v.items ≡ (outcome scenario.now edit.now).cables) }
{
    let cables = scenario.cables();
    match edit {
        Edit::Cable { name, plug, rating } => {
            put_cable(alloc, scenario, written_cable(name, *plug, *rating))
        }
        Edit::DropCable { name } => without_cable(alloc, cables, name),
        _ => cables.iter().map(|cable| cable.copy()).collect(alloc),
    }
}

/// The sinks of a scenario with a new one, or with another in place of the one of its name.
fn put_sink<const N: usize>(
    alloc: Global,
    scenario: &Scenario<N>,
    sink: NamedSink,
) -> Result<Vec<NamedSink>, AllocError>
    ensures { IfOk result (λ v. v.items ≡ with_sink sink scenario.now.sinks) }
{
    let sinks = scenario.sinks();
    if scenario.sink(&sink.name).is_some() {
        with_other_sink(alloc, sinks, &sink)
    } else {
        with_new_sink(alloc, sinks, sink)
    }
}

/// The sinks after an edit.
fn sinks_after<const N: usize>(
    alloc: Global,
    scenario: &Scenario<N>,
    edit: &Edit,
) -> Result<Vec<NamedSink>, AllocError>
    requires { IsAccepted N scenario.now edit.now }
    ensures { IfOk result (λ v. v.items ≡ (outcome scenario.now edit.now).sinks) }
{
    let sinks = scenario.sinks();
    match edit {
        Edit::Sink {
            name,
            max_mv,
            demand_mw,
            mode,
            revision,
        } => put_sink(
            alloc,
            scenario,
            written_sink(name, *max_mv, *demand_mw, *mode, *revision),
        ),
        Edit::DropSink { name } => without_sink(alloc, sinks, name),
        _ => sinks.iter().map(|sink| sink.copy()).collect(alloc),
    }
}

/// The events after an edit.
fn events_after<const N: usize>(
    alloc: Global,
    scenario: &Scenario<N>,
    edit: &Edit,
) -> Result<Vec<ScenarioEvent>, AllocError>
    requires { IsAccepted N scenario.now edit.now }
    ensures { IfOk result (λ v. v.items ≡ (outcome scenario.now edit.now).events) }
{
    let events = scenario.events();
    match edit {
        Edit::Insert { id, at, happening } => {
            with_event(alloc, events, inserted_event(N, *id, *at, happening))
        }
        Edit::Remove { id } => without_event(alloc, events, *id),
        Edit::Move { id, at } => with_time(alloc, events, *id, *at as u32),
        Edit::Change { id, kind } => with_kind(alloc, events, *id, kind),
        _ => events.iter().map(|event| event.copy()).collect(alloc),
    }
}

/// The budget after an edit, in mW.
fn budget_after<const N: usize>(scenario: &Scenario<N>, edit: &Edit) -> u32
    requires { IsAccepted N scenario.now edit.now }
    ensures { result ≡ (outcome scenario.now edit.now).budget_mw }
{
    match edit {
        Edit::Budget { mw } => *mw as u32,
        _ => scenario.budget_mw(),
    }
}

/// The end after an edit, in microseconds.
fn end_after<const N: usize>(scenario: &Scenario<N>, edit: &Edit) -> u32
    requires { IsAccepted N scenario.now edit.now }
    ensures { result ≡ (outcome scenario.now edit.now).end_us }
{
    match edit {
        Edit::End { at } => *at as u32,
        _ => scenario.end_us(),
    }
}

/// For the prover alone: the names of a new cable or sink are names.
fn read_names(edit: &Edit)
    ensures { HasNames edit.now }
{
    match edit {
        Edit::Cable { name, .. } | Edit::Sink { name, .. } => {
            let _text = name.as_str();
        }
        _ => {}
    }
}

/// The scenario after an edit for which no refusal applies.
fn edited<const N: usize>(
    alloc: Global,
    scenario: &Scenario<N>,
    edit: &Edit,
) -> Result<Scenario<N>, AllocError>
    requires { IsAccepted N scenario.now edit.now }
    ensures { IfOk result (λ s. s ≡ outcome scenario.now edit.now) }
{
    read_names(edit);
    // Read for the prover alone: that the scenario is valid.
    let _ports = scenario.ports();
    let settings = settings_after(alloc, scenario, edit)?;
    let cables = cables_after(alloc, scenario, edit)?;
    let sinks = sinks_after(alloc, scenario, edit)?;
    let events = events_after(alloc, scenario, edit)?;
    let budget_mw = budget_after(scenario, edit);
    let end_us = end_after(scenario, edit);
    Ok(Scenario::new(settings, cables, sinks, events, budget_mw, end_us))
}

/// The scenario after an edit; the old one is as it was.
///
/// # Errors
/// The first of the refusals that applies, or `Memory` where none applies and there is no memory.
#[tactic(auto, unfolding(crate::specs::Refusals::edited))]
pub fn apply<const N: usize>(
    alloc: Global,
    scenario: &Scenario<N>,
    edit: &Edit,
) -> Result<Scenario<N>, EditFault>
    ensures { Applies result (edited N scenario.now edit.now) }
{
    if let Some(fault) = first_refusal(scenario, edit) {
        return Err(fault);
    }
    Ok(edited(alloc, scenario, edit)?)
}
