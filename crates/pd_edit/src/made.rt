//! What an edit makes of its numbers and names, where none of its refusals applies.

ghost use Rattle.std.specs.Prelude.{◌≡◌, ◌==◌, ◌≤◌, true, map, is_some, if◌then◌else◌};
ghost use Rattle.std.specs.List.{list_all};
ghost use Rattle.pd_setup.specs.Sinks.{IsSink};
ghost use Rattle.pd_scenario.specs.Limits.{allows};
ghost use Rattle.pd_scenario.specs.declared.limits.Quantity.TheVariants as quantity;
ghost use Rattle.pd_scenario.specs.Words.{rating_of};
ghost use Rattle.pd_edit.specs.Edits.{damage_of, event_kind_of, event_happening_of, inserted_event, moved_event, changed_event, with_kind};
ghost use Rattle.pd_edit.specs.Edits.{written_cable, written_sink, with_floor, supply_of, AreSupplies};
ghost use Rattle.pd_edit.specs.Refusals.{kind_in_range, happening_in_range, happens_on_port, supply_in_range};

use arrayvec::ArrayVec;
use pd_edit_lines::{EditHappening, EditKind, WrittenDamage, WrittenSupply};
use pd_identity::{Cable, CablePlug};
use pd_objects::Supply;
use pd_packet::Damage;
use pd_scenario::{
    Name, NamedCable, NamedSink, ScenarioEvent, ScenarioEventKind, ScenarioHappening, copy_kind,
    rating_of,
};
use pd_setup::{Demand, EventKind, Settings, SinkMode, SinkRevision, SinkSettings, by_kind};

fn damage_of(written: WrittenDamage) -> Damage
    requires { kind_in_range (EventKind.Damage written) ≡ true }
    ensures { result ≡ damage_of written }
{
    Damage::new(written.place as u8, written.mask as u8)
}

/// The kind of event that was written.
pub(crate) fn event_kind_of(kind: &EditKind) -> ScenarioEventKind
    requires { kind_in_range kind.now ≡ true }
    ensures { result ≡ event_kind_of kind.now }
{
    by_kind! {
        kind;
        Attach { cable, sink } => EventKind::Attach { cable: cable.copy(), sink: sink.copy() },
        Demand(mw) => EventKind::Demand(Demand::new(*mw as u32)),
        Damage(written) => EventKind::Damage(damage_of(*written)),
        plain => plain,
    }
}

fn event_happening_of(ports: usize, happening: &EditHappening) -> ScenarioHappening
    requires few { ports ≤ 8 }
    requires in_range { happening_in_range happening.now ≡ true }
    requires on_port { happens_on_port ports happening.now ≡ true }
    ensures { result ≡ event_happening_of happening.now }
{
    match happening {
        EditHappening::OnPort { port, kind } => ScenarioHappening::OnPort {
            port: *port as u32,
            kind: event_kind_of(kind),
        },
        EditHappening::Budget { mw } => ScenarioHappening::Budget { mw: *mw as u32 },
    }
}

/// The event that is inserted into a scenario of so many ports.
pub(crate) fn inserted_event(
    ports: usize,
    id: u64,
    at: u64,
    happening: &EditHappening,
) -> ScenarioEvent
    requires few { ports ≤ 8 }
    requires is_id { allows quantity.EventId id ≡ true }
    requires is_time { allows quantity.Time at ≡ true }
    requires in_range { happening_in_range happening.now ≡ true }
    requires on_port { happens_on_port ports happening.now ≡ true }
    ensures { result ≡ inserted_event id at happening.now }
{
    ScenarioEvent {
        id: id as u32,
        at: at as u32,
        happening: event_happening_of(ports, happening),
    }
}

/// An event, at another time in microseconds where it has the id.
pub(crate) fn moved_event(id: u64, at: u32, event: &ScenarioEvent) -> ScenarioEvent
    ensures { result ≡ moved_event id at event.now }
{
    let mut moved = event.copy();
    if u64::from(event.id) == id {
        moved.at = at;
    }
    moved
}

/// An event, of another kind where it has the id.
pub(crate) fn changed_event(
    id: u64,
    kind: &ScenarioEventKind,
    event: &ScenarioEvent,
) -> ScenarioEvent
    ensures { result ≡ changed_event id kind.now event.now }
{
    let mut changed = event.copy();
    if u64::from(event.id) == id {
        changed.happening = with_kind(kind, &event.happening);
    }
    changed
}

/// The same port with another kind of event; a change of the budget stays as it is.
fn with_kind(kind: &ScenarioEventKind, happening: &ScenarioHappening) -> ScenarioHappening
    ensures { result ≡ with_kind kind.now happening.now }
{
    match happening {
        ScenarioHappening::OnPort { port, .. } => ScenarioHappening::OnPort {
            port: *port,
            kind: copy_kind(kind),
        },
        ScenarioHappening::Budget { mw } => ScenarioHappening::Budget { mw: *mw },
    }
}

/// The cable of a name, a plug and a rating.
pub(crate) fn written_cable(name: &Name, plug: CablePlug, rating: u64) -> NamedCable
    requires { is_some (rating_of rating) ≡ true }
    ensures { result ≡ written_cable name.now plug rating }
{
    NamedCable {
        name: name.copy(),
        cable: Cable {
            plug,
            rating: rating_of(rating).unwrap(),
        },
    }
}

/// The sink of a name, a greatest voltage in mV, a demand in mW, a mode and a revision.
pub(crate) fn written_sink(
    name: &Name,
    max_mv: u64,
    demand_mw: u64,
    mode: SinkMode,
    revision: SinkRevision,
) -> NamedSink
    requires max { allows quantity.Voltage max_mv ≡ true }
    requires demand { allows quantity.Demand demand_mw ≡ true }
    ensures value { result ≡ written_sink name.now max_mv demand_mw mode revision }
    ensures is_sink { IsSink (record { max_mv = max_mv; demand_mw = demand_mw; mode = mode; revision = revision }) }
{
    NamedSink {
        name: name.copy(),
        sink: SinkSettings::new(max_mv as u32, demand_mw as u32, mode, revision),
    }
}

fn port_with_floor(settings: &Settings, mw: u32) -> Settings
    requires least { 500 ≤ mw }
    requires most { mw ≤ 100000 }
    ensures { result ≡ with_floor mw settings.now }
{
    let mut supplies = ArrayVec::<Supply, 7>::new();
    supplies.try_extend_from_slice(settings.supplies()).unwrap();
    Settings::new(
        mw,
        supplies,
        settings.identity_tries(),
        settings.unconstrained(),
    )
}

/// The settings of a port of this number, with another floor where it is the one that is meant.
pub(crate) fn with_floor_at(number: u64, port: u64, settings: &Settings, mw: u32) -> Settings
    requires least { 500 ≤ mw }
    requires most { mw ≤ 100000 }
    ensures { result ≡ (if number == port then with_floor mw settings.now else settings.now) }
{
    if number == port {
        port_with_floor(settings, mw)
    } else {
        settings.copy()
    }
}

fn port_with_supplies(settings: &Settings, supplies: &ArrayVec<Supply, 7>) -> Settings
    requires { AreSupplies supplies.now.items }
    ensures { result ≡ record settings.now { supplies = supplies.now.items } }
{
    let mut copies = ArrayVec::<Supply, 7>::new();
    copies.try_extend_from_slice(supplies.as_slice()).unwrap();
    Settings::new(
        settings.floor_mw(),
        copies,
        settings.identity_tries(),
        settings.unconstrained(),
    )
}

/// The settings of a port of this number, with other supplies where it is the one that is meant.
pub(crate) fn with_supplies_at(
    number: u64,
    port: u64,
    settings: &Settings,
    supplies: &ArrayVec<Supply, 7>,
) -> Settings
    requires { AreSupplies supplies.now.items }
    ensures { result ≡ (if number == port then record settings.now { supplies = supplies.now.items } else settings.now) }
{
    if number == port {
        port_with_supplies(settings, supplies)
    } else {
        settings.copy()
    }
}

/// The supplies that were written.
pub(crate) fn supplies_of(written: &ArrayVec<WrittenSupply, 7>) -> ArrayVec<Supply, 7>
    requires { list_all supply_in_range written.now.items ≡ true }
    ensures { result.items ≡ map supply_of written.now.items }
{
    let mut supplies = ArrayVec::<Supply, 7>::new();
    for supply in written.as_slice() {
        supplies.push(Supply::new(supply.mv as u32, supply.ma as u32));
    }
    supplies
}
