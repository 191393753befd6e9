//! Events after the end, and names that nothing uses.

ghost use Rattle.std.specs.Prelude.{◌≡◌, ◌++◌, OnOk};
ghost use Rattle.std.specs.List.{flat_map, list_any};
ghost use Rattle.pd_scenario.specs.declared.event.ScenarioEvent.{ScenarioEvent as EventData};
ghost use Rattle.pd_warn.specs.Stated.{late_part, has_cable, has_sink, cable_part, sink_part};

use crate::Warning;
use pd_scenario::{Name, NamedCable, NamedSink, ScenarioEvent, ScenarioHappening};
use pd_setup::EventKind;
use std::alloc::AllocError;

/// Warns of an event that is after the end.
fn push_late(out: &mut Vec<Warning>, end: u32, event: &ScenarioEvent) -> Result<(), AllocError>
    ensures { OnOk result (out.new.items ≡ out.old.items ++ late_part end event.now) }
{
    if event.at > end {
        out.push(Warning::AfterEnd {
            id: event.id,
            at: event.at,
            end,
        })?;
    }
    Ok(())
}

/// Warns of the events that are after the end.
pub(crate) fn push_late_events(
    out: &mut Vec<Warning>,
    end: u32,
    events: &[ScenarioEvent],
) -> Result<(), AllocError>
    ensures { OnOk result (out.new.items ≡ out.old.items ++ flat_map (late_part end) events.now) }
{
    for event in events {
        push_late(out, end, event)?;
    }
    Ok(())
}

fn has_cable(name: &Name, happening: &ScenarioHappening) -> bool
    ensures { result ≡ has_cable name.now happening.now }
{
    match happening {
        ScenarioHappening::OnPort {
            port: _,
            kind: EventKind::Attach { cable, sink: _ },
        } => cable.as_str().as_bytes() == name.as_str().as_bytes(),
        _ => false,
    }
}

fn has_sink(name: &Name, happening: &ScenarioHappening) -> bool
    ensures { result ≡ has_sink name.now happening.now }
{
    match happening {
        ScenarioHappening::OnPort {
            port: _,
            kind: EventKind::Attach { cable: _, sink },
        } => sink.as_str().as_bytes() == name.as_str().as_bytes(),
        _ => false,
    }
}

fn is_cable_used(name: &Name, events: &[ScenarioEvent]) -> bool
    ensures { result ≡ list_any (λ (e : EventData). has_cable name.now e.happening) events.now }
{
    events.iter().any(|event| has_cable(name, &event.happening))
}

fn is_sink_used(name: &Name, events: &[ScenarioEvent]) -> bool
    ensures { result ≡ list_any (λ (e : EventData). has_sink name.now e.happening) events.now }
{
    events.iter().any(|event| has_sink(name, &event.happening))
}

/// Warns of a cable that no event attaches.
fn push_cable(
    out: &mut Vec<Warning>,
    events: &[ScenarioEvent],
    cable: &NamedCable,
) -> Result<(), AllocError>
    ensures { OnOk result (out.new.items ≡ out.old.items ++ cable_part events.now cable.now) }
{
    if !is_cable_used(&cable.name, events) {
        out.push(Warning::UnusedCable {
            name: cable.name.copy(),
        })?;
    }
    Ok(())
}

/// Warns of a sink that no event attaches.
fn push_sink(
    out: &mut Vec<Warning>,
    events: &[ScenarioEvent],
    sink: &NamedSink,
) -> Result<(), AllocError>
    ensures { OnOk result (out.new.items ≡ out.old.items ++ sink_part events.now sink.now) }
{
    if !is_sink_used(&sink.name, events) {
        out.push(Warning::UnusedSink {
            name: sink.name.copy(),
        })?;
    }
    Ok(())
}

/// Warns of the cables that no event attaches.
pub(crate) fn push_cables(
    out: &mut Vec<Warning>,
    events: &[ScenarioEvent],
    cables: &[NamedCable],
) -> Result<(), AllocError>
    ensures { OnOk result (out.new.items ≡ out.old.items ++ flat_map (cable_part events.now) cables.now) }
{
    for cable in cables {
        push_cable(out, events, cable)?;
    }
    Ok(())
}

/// Warns of the sinks that no event attaches.
pub(crate) fn push_sinks(
    out: &mut Vec<Warning>,
    events: &[ScenarioEvent],
    sinks: &[NamedSink],
) -> Result<(), AllocError>
    ensures { OnOk result (out.new.items ≡ out.old.items ++ flat_map (sink_part events.now) sinks.now) }
{
    for sink in sinks {
        push_sink(out, events, sink)?;
    }
    Ok(())
}
