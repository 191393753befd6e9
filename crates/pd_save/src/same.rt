//! Whether two scenarios are the same.

ghost use Rattle.std.specs.Prelude.{◌≡◌, ◌↔◌, IsTrue};

use pd_scenario::{
    Name, NamedCable, NamedSink, Scenario, ScenarioEvent, ScenarioEventKind, ScenarioHappening,
};
use pd_setup::{EventKind, Settings};

fn same_name(name: &Name, other: &Name) -> bool
    ensures { IsTrue result ↔ (name.now ≡ other.now) }
{
    name.as_str() == other.as_str()
}

fn same_cable(cable: &NamedCable, other: &NamedCable) -> bool
    ensures { IsTrue result ↔ (cable.now ≡ other.now) }
{
    same_name(&cable.name, &other.name) && cable.cable == other.cable
}

fn same_sink(sink: &NamedSink, other: &NamedSink) -> bool
    ensures { IsTrue result ↔ (sink.now ≡ other.now) }
{
    same_name(&sink.name, &other.name) && sink.sink.same(&other.sink)
}

fn same_kind(kind: &ScenarioEventKind, other: &ScenarioEventKind) -> bool
    ensures { IsTrue result ↔ (kind.now ≡ other.now) }
{
    match (kind, other) {
        (
            EventKind::Attach { cable, sink },
            EventKind::Attach {
                cable: other_cable,
                sink: other_sink,
            },
        ) => same_name(cable, other_cable) && same_name(sink, other_sink),
        (EventKind::Demand(demand), EventKind::Demand(other)) => demand.same(other),
        (EventKind::Damage(damage), EventKind::Damage(other)) => damage.same(other),
        (EventKind::Detach, EventKind::Detach) => true,
        (EventKind::Lose, EventKind::Lose) => true,
        (EventKind::GetSource, EventKind::GetSource) => true,
        (EventKind::GetSink, EventKind::GetSink) => true,
        _ => false,
    }
}

fn same_happening(happening: &ScenarioHappening, other: &ScenarioHappening) -> bool
    ensures { IsTrue result ↔ (happening.now ≡ other.now) }
{
    match (happening, other) {
        (
            ScenarioHappening::OnPort { port, kind },
            ScenarioHappening::OnPort {
                port: other_port,
                kind: other_kind,
            },
        ) => port == other_port && same_kind(kind, other_kind),
        (ScenarioHappening::Budget { mw }, ScenarioHappening::Budget { mw: other_mw }) => {
            mw == other_mw
        }
        _ => false,
    }
}

fn same_event(event: &ScenarioEvent, other: &ScenarioEvent) -> bool
    ensures { IsTrue result ↔ (event.now ≡ other.now) }
{
    event.id == other.id
        && event.at == other.at
        && same_happening(&event.happening, &other.happening)
}

fn same_ports(ports: &[Settings], others: &[Settings]) -> bool
    ensures { IsTrue result ↔ (ports.now ≡ others.now) }
{
    match (ports, others) {
        ([], []) => true,
        ([port, ports @ ..], [other, others @ ..]) => port.same(other) && same_ports(ports, others),
        _ => false,
    }
}

fn same_cables(cables: &[NamedCable], others: &[NamedCable]) -> bool
    ensures { IsTrue result ↔ (cables.now ≡ others.now) }
{
    match (cables, others) {
        ([], []) => true,
        ([cable, cables @ ..], [other, others @ ..]) => {
            same_cable(cable, other) && same_cables(cables, others)
        }
        _ => false,
    }
}

fn same_sinks(sinks: &[NamedSink], others: &[NamedSink]) -> bool
    ensures { IsTrue result ↔ (sinks.now ≡ others.now) }
{
    match (sinks, others) {
        ([], []) => true,
        ([sink, sinks @ ..], [other, others @ ..]) => {
            same_sink(sink, other) && same_sinks(sinks, others)
        }
        _ => false,
    }
}

fn same_events(events: &[ScenarioEvent], others: &[ScenarioEvent]) -> bool
    ensures { IsTrue result ↔ (events.now ≡ others.now) }
{
    match (events, others) {
        ([], []) => true,
        ([event, events @ ..], [other, others @ ..]) => {
            same_event(event, other) && same_events(events, others)
        }
        _ => false,
    }
}

/// Whether two scenarios are the same, in the order of their lists too.
pub fn is_same<const N: usize>(scenario: &Scenario<N>, other: &Scenario<N>) -> bool
    ensures { IsTrue result ↔ (scenario.now ≡ other.now) }
{
    same_ports(scenario.ports(), other.ports())
        && same_cables(scenario.cables(), other.cables())
        && same_sinks(scenario.sinks(), other.sinks())
        && same_events(scenario.events(), other.events())
        && scenario.budget_mw() == other.budget_mw()
        && scenario.end_us() == other.end_us()
}
