//! Sinks without Power Delivery that want more than the floor of their port.

ghost use Rattle.std.specs.Prelude.{◌≡◌, ◌++◌, OnOk};
ghost use Rattle.std.specs.List.{flat_map};
ghost use Rattle.pd_warn.specs.Stated.{floor_at, happening_plain, is_plain, plain_part, uncounted_part};

use crate::Warning;
use pd_scenario::{Name, Scenario, ScenarioEvent, ScenarioHappening};
use pd_setup::{EventKind, Settings, SinkMode, SinkSettings};
use std::alloc::AllocError;

/// The floor of a port, numbered from 1, in mW.
fn floor_at(ports: &[Settings], port: u32) -> u32
    ensures { result ≡ floor_at ports.now port }
{
    match ports.get(port.saturating_sub(1) as usize) {
        Some(settings) => settings.floor_mw(),
        None => 0,
    }
}

fn is_plain(sink: &SinkSettings) -> bool
    ensures { result ≡ is_plain sink.now.mode }
{
    match sink.mode() {
        SinkMode::Plain => true,
        SinkMode::PowerDelivery | SinkMode::Greedy => false,
    }
}

/// Warns of a sink of this name, where it doesn't speak Power Delivery and wants more than a floor.
fn push_plain(
    out: &mut Vec<Warning>,
    event: &ScenarioEvent,
    port: u32,
    name: &Name,
    floor_mw: u32,
    sink: Option<SinkSettings>,
) -> Result<(), AllocError>
    ensures { OnOk result (out.new.items ≡ out.old.items ++ plain_part event.now port name.now floor_mw sink) }
{
    match sink {
        Some(sink) if is_plain(&sink) && floor_mw < sink.demand_mw() => {
            out.push(Warning::Uncounted {
                id: event.id,
                at: event.at,
                port,
                name: name.copy(),
                demand_mw: sink.demand_mw(),
                floor_mw,
            })?;
            Ok(())
        }
        _ => Ok(()),
    }
}

/// Warns of what an event attaches.
fn push_attached<const N: usize>(
    out: &mut Vec<Warning>,
    scenario: &Scenario<N>,
    event: &ScenarioEvent,
) -> Result<(), AllocError>
    ensures { OnOk result (out.new.items ≡ out.old.items ++ happening_plain scenario.now event.now event.now.happening) }
{
    match &event.happening {
        ScenarioHappening::OnPort {
            port,
            kind: EventKind::Attach { cable: _, sink },
        } => {
            let floor = floor_at(scenario.ports(), *port);
            push_plain(out, event, *port, sink, floor, scenario.sink(sink))
        }
        _ => Ok(()),
    }
}

/// Warns of what an event attaches, where it happens.
fn push_event<const N: usize>(
    out: &mut Vec<Warning>,
    scenario: &Scenario<N>,
    event: &ScenarioEvent,
) -> Result<(), AllocError>
    ensures { OnOk result (out.new.items ≡ out.old.items ++ uncounted_part scenario.now event.now) }
{
    if event.at > scenario.end_us() {
        return Ok(());
    }
    push_attached(out, scenario, event)
}

/// Warns of the sinks that events attach.
pub(crate) fn push_uncounted<const N: usize>(
    out: &mut Vec<Warning>,
    scenario: &Scenario<N>,
    events: &[ScenarioEvent],
) -> Result<(), AllocError>
    ensures { OnOk result (out.new.items ≡ out.old.items ++ flat_map (uncounted_part scenario.now) events.now) }
{
    for event in events {
        push_event(out, scenario, event)?;
    }
    Ok(())
}
