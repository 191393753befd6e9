//! The events of a port in the order of their times.

ghost use Rattle.std.specs.Prelude.{◌≡◌, ℕ, [], true, fold, IfOk};
ghost use Rattle.std.specs.List.{list_all};
ghost use Rattle.pd_scenario.specs.Scenarios.{event_fits, ids_differ, kind_fits, kind_is_known, names_are_known};
ghost use Rattle.pd_scenario.specs.Plan.{number_of};
ghost use Rattle.pd_scenario.specs.Script.{AreOneEach, resolved, event_for, events_for, put, script};

use crate::scenario::{cable_named, sink_named};
use crate::{NamedCable, NamedSink, ScenarioEvent, ScenarioEventKind, ScenarioHappening};
use pd_setup::{Event, EventKind, Happening, PortEventKind, by_kind};
use std::alloc::{AllocError, Allocator};

/// What an event does, with the cable and the sink in place of their names.
pub(crate) fn resolved(
    cables: &[NamedCable],
    sinks: &[NamedSink],
    kind: &ScenarioEventKind,
) -> PortEventKind
    requires { kind_is_known cables.now sinks.now kind.now ≡ true }
    ensures { result ≡ resolved cables.now sinks.now kind.now }
{
    by_kind! {
        kind;
        Attach { cable, sink } => EventKind::Attach {
            cable: cable_named(cables, cable).unwrap(),
            sink: sink_named(sinks, sink).unwrap(),
        },
        Demand(demand) => EventKind::Demand(*demand),
        Damage(damage) => EventKind::Damage(*damage),
        plain => plain,
    }
}

/// What an event is for a port, if anything.
fn event_for(
    cables: &[NamedCable],
    sinks: &[NamedSink],
    port: usize,
    event: &ScenarioEvent,
    ports: usize,
) -> Option<Event>
    requires fits { event_fits ports event.now ≡ true }
    requires known { names_are_known cables.now sinks.now event.now.happening ≡ true }
    ensures { result ≡ event_for cables.now sinks.now port event.now }
{
    let at = u64::from(event.at);
    match &event.happening {
        ScenarioHappening::OnPort { port: other, kind } => {
            if *other as usize != port {
                return None;
            }
            let kind = resolved(cables, sinks, kind);
            let id = event.id;
            Some(Event::new(at, Happening::Port { id, kind }))
        }
        ScenarioHappening::Budget { .. } => Some(Event::new(at, Happening::Budget)),
    }
}

/// An event's place in a script: its time, and its number at that time.
fn place_of(event: &Event) -> (u64, u32)
    ensures { result ≡ (event.now.at, number_of event.now.happening) }
{
    match event.happening() {
        Happening::Port { id, .. } => (event.at(), id),
        Happening::Budget => (event.at(), 0),
    }
}

/// What the events are for a port, in the order of their making.
fn events_for<A: Allocator>(
    alloc: A,
    cables: &[NamedCable],
    sinks: &[NamedSink],
    events: &[ScenarioEvent],
    ports: usize,
    port: usize,
) -> Result<Vec<Event, A>, AllocError>
    requires fit { list_all (event_fits ports) events.now ≡ true }
    requires known { list_all (λ e. names_are_known cables.now sinks.now e.happening) events.now ≡ true }
    ensures { IfOk result (λ v. v.items ≡ events_for cables.now sinks.now port events.now) }
{
    let mut made = Vec::new(alloc);
    for event in events {
        if let Some(event) = event_for(cables, sinks, port, event, ports) {
            made.push(event)?;
        }
    }
    Ok(made)
}

/// What the events are for a port, by their times and numbers.
///
/// # Errors
/// There is no memory.
pub fn script<A: Allocator>(
    alloc: A,
    cables: &[NamedCable],
    sinks: &[NamedSink],
    events: &[ScenarioEvent],
    ports: usize,
    port: usize,
) -> Result<Vec<Event, A>, AllocError>
    requires fit { list_all (event_fits ports) events.now ≡ true }
    requires known { list_all (λ e. names_are_known cables.now sinks.now e.happening) events.now ≡ true }
    requires differ { ids_differ events.now ≡ true }
    ensures { IfOk result (λ v. v.items ≡ script cables.now sinks.now events.now port) }
{
    let made = events_for(alloc, cables, sinks, events, ports, port)?;
    in_order(made)
}

/// Events by their times and numbers.
///
/// # Errors
/// There is no memory.
pub(crate) fn in_order<A: Allocator>(made: Vec<Event, A>) -> Result<Vec<Event, A>, AllocError>
    requires { AreOneEach made.items }
    ensures { IfOk result (λ v. v.items ≡ fold put [] made.items) }
{
    let mut script = made;
    script.sort_by_key(|event| place_of(event))?;
    // Changes of the budget at one time are told once.
    script.dedup_by_key(|event| place_of(event));
    Ok(script)
}
