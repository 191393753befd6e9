//! The places of an edit at which the rule of a refusal bears.

ghost use Rattle.std.specs.Prelude.{◌≡◌, ◌++◌, ◌∷◌, [], OnOk, map, filter};
ghost use Rattle.pd_edit.specs.Refusals.{names_cable, names_sink};
ghost use Rattle.pd_explain.specs.Places.{new_ids, known_ids, happening_ports, ports, kind_names, happening_names, names, users, rooms};
ghost use Rattle.pd_explain.specs.Places.{places_of, user};

use crate::numbers::{push_floors, push_numbers, push_supplies};
use crate::{Counted, Place};
use pd_edit_lines::{Edit, EditFault, EditHappening, EditKind};
use pd_scenario::{Name, Scenario, ScenarioEvent, ScenarioHappening};
use pd_setup::EventKind;
use std::alloc::AllocError;

fn push_new_id(places: &mut Vec<Place>, edit: &Edit) -> Result<(), AllocError>
    ensures { OnOk result (places.new.items ≡ places.old.items ++ new_ids edit.now) }
{
    if let Edit::Insert { id, .. } = edit {
        places.push(Place::NewId { id: *id })?;
    }
    Ok(())
}

fn push_known_id(places: &mut Vec<Place>, edit: &Edit) -> Result<(), AllocError>
    ensures { OnOk result (places.new.items ≡ places.old.items ++ known_ids edit.now) }
{
    match edit {
        Edit::Remove { id } => places.push(Place::KnownId { id: *id })?,
        Edit::Move { id, .. } => places.push(Place::KnownId { id: *id })?,
        Edit::Change { id, .. } => places.push(Place::KnownId { id: *id })?,
        _ => {}
    }
    Ok(())
}

fn push_happening_port(places: &mut Vec<Place>, happening: &EditHappening) -> Result<(), AllocError>
    ensures { OnOk result (places.new.items ≡ places.old.items ++ happening_ports happening.now) }
{
    match happening {
        EditHappening::OnPort { port, .. } => places.push(Place::Port { port: *port })?,
        EditHappening::Budget { .. } => {}
    }
    Ok(())
}

fn push_ports(places: &mut Vec<Place>, edit: &Edit) -> Result<(), AllocError>
    ensures { OnOk result (places.new.items ≡ places.old.items ++ ports edit.now) }
{
    match edit {
        Edit::Insert { happening, .. } => push_happening_port(places, happening)?,
        Edit::Change { id, .. } => places.push(Place::Changed { id: *id })?,
        Edit::Caps { port, .. } => places.push(Place::Port { port: *port })?,
        Edit::Floor { port, .. } => places.push(Place::Port { port: *port })?,
        _ => {}
    }
    Ok(())
}

fn push_kind_names(places: &mut Vec<Place>, kind: &EditKind) -> Result<(), AllocError>
    ensures { OnOk result (places.new.items ≡ places.old.items ++ kind_names kind.now) }
{
    if let EventKind::Attach { cable, sink } = kind {
        places.push(Place::Cable { name: cable.copy() })?;
        places.push(Place::Sink { name: sink.copy() })?;
    }
    Ok(())
}

fn push_happening_names(
    places: &mut Vec<Place>,
    happening: &EditHappening,
) -> Result<(), AllocError>
    ensures { OnOk result (places.new.items ≡ places.old.items ++ happening_names happening.now) }
{
    match happening {
        EditHappening::OnPort { kind, .. } => push_kind_names(places, kind),
        EditHappening::Budget { .. } => Ok(()),
    }
}

fn push_names(places: &mut Vec<Place>, edit: &Edit) -> Result<(), AllocError>
    ensures { OnOk result (places.new.items ≡ places.old.items ++ names edit.now) }
{
    match edit {
        Edit::Insert { happening, .. } => push_happening_names(places, happening)?,
        Edit::Change { kind, .. } => push_kind_names(places, kind)?,
        Edit::DropCable { name } => places.push(Place::Cable { name: name.copy() })?,
        Edit::DropSink { name } => places.push(Place::Sink { name: name.copy() })?,
        _ => {}
    }
    Ok(())
}

fn names_cable(name: &Name, event: &ScenarioEvent) -> bool
    ensures { result ≡ names_cable name.now event.now.happening }
{
    match &event.happening {
        ScenarioHappening::OnPort {
            kind: EventKind::Attach { cable, .. },
            ..
        } => cable.as_str() == name.as_str(),
        _ => false,
    }
}

fn names_sink(name: &Name, event: &ScenarioEvent) -> bool
    ensures { result ≡ names_sink name.now event.now.happening }
{
    match &event.happening {
        ScenarioHappening::OnPort {
            kind: EventKind::Attach { sink, .. },
            ..
        } => sink.as_str() == name.as_str(),
        _ => false,
    }
}

fn user(event: &ScenarioEvent) -> Place
    ensures { result ≡ user event.now }
{
    Place::User {
        id: event.id,
        at: event.at,
    }
}

fn push_cable_users(
    places: &mut Vec<Place>,
    events: &[ScenarioEvent],
    name: &Name,
) -> Result<(), AllocError>
    ensures { OnOk result (places.new.items ≡ places.old.items ++ map user (filter (λ e. names_cable name.now e.happening) events.now)) }
{
    for event in events {
        if names_cable(name, event) {
            places.push(user(event))?;
        }
    }
    Ok(())
}

fn push_sink_users(
    places: &mut Vec<Place>,
    events: &[ScenarioEvent],
    name: &Name,
) -> Result<(), AllocError>
    ensures { OnOk result (places.new.items ≡ places.old.items ++ map user (filter (λ e. names_sink name.now e.happening) events.now)) }
{
    for event in events {
        if names_sink(name, event) {
            places.push(user(event))?;
        }
    }
    Ok(())
}

fn push_users<const N: usize>(
    places: &mut Vec<Place>,
    scenario: &Scenario<N>,
    edit: &Edit,
) -> Result<(), AllocError>
    ensures { OnOk result (places.new.items ≡ places.old.items ++ users scenario.now edit.now) }
{
    match edit {
        Edit::DropCable { name } => push_cable_users(places, scenario.events(), name),
        Edit::DropSink { name } => push_sink_users(places, scenario.events(), name),
        _ => Ok(()),
    }
}

fn push_room(places: &mut Vec<Place>, counted: Counted, count: usize) -> Result<(), AllocError>
    ensures { OnOk result (places.new.items ≡ places.old.items ++ Place.Room counted count ∷ []) }
{
    places.push(Place::Room { counted, count })?;
    Ok(())
}

fn push_rooms<const N: usize>(
    places: &mut Vec<Place>,
    scenario: &Scenario<N>,
    edit: &Edit,
) -> Result<(), AllocError>
    ensures { OnOk result (places.new.items ≡ places.old.items ++ rooms scenario.now edit.now) }
{
    match edit {
        Edit::Insert { .. } => push_room(places, Counted::Events, scenario.events().len()),
        Edit::Cable { name, .. } if scenario.cable(name).is_none() => {
            push_room(places, Counted::Cables, scenario.cables().len())
        }
        Edit::Sink { name, .. } if scenario.sink(name).is_none() => {
            push_room(places, Counted::Sinks, scenario.sinks().len())
        }
        _ => Ok(()),
    }
}

/// Writes the places of an edit at which the rule of a refusal bears.
pub(crate) fn push_places<const N: usize>(
    places: &mut Vec<Place>,
    fault: EditFault,
    scenario: &Scenario<N>,
    edit: &Edit,
) -> Result<(), AllocError>
    ensures { OnOk result (places.new.items ≡ places.old.items ++ places_of fault scenario.now edit.now) }
{
    match fault {
        EditFault::IdTaken => push_new_id(places, edit),
        EditFault::NoSuchId => push_known_id(places, edit),
        EditFault::NoSuchPort => push_ports(places, edit),
        EditFault::NoSuchName => push_names(places, edit),
        EditFault::InUse => push_users(places, scenario, edit),
        EditFault::Range => push_numbers(places, edit),
        EditFault::Supplies => push_supplies(places, edit),
        EditFault::Floors => push_floors(places, scenario, edit),
        EditFault::Limit => push_rooms(places, scenario, edit),
        EditFault::Syntax | EditFault::Memory => Ok(()),
    }
}
