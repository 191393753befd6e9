//! What one table of a file says.

ghost use Rattle.std.specs.Prelude.{◌≡◌, pos};
ghost use Rattle.toml.specs.View.{view, table_view};
ghost use Rattle.pd_objects.specs.Supply.{IsSupply};
ghost use Rattle.pd_scenario_tables.specs.Schema.{port_rules};
ghost use Rattle.pd_scenario_tables.specs.Values.{small, supply_of};
ghost use Rattle.pd_scenario_tables.specs.Tables.{value_at, whole_in, number_at as number_of_key, word_at, event_at, IsSound, IsSoundPort};
ghost use Rattle.pd_scenario_tables.specs.Convert.{settings_of, cable_of, sink_of, on, damage_of, kind_in, happening_of, event_of};

use crate::schema::{
    DEFAULT_MODE, DEFAULT_REVISION, DEFAULT_TRIES, DEFAULT_UNCONSTRAINED, EventName, Key,
    TableKind, Version,
};
use crate::tables::{elements_at, event_at, truth_at, whole_at, word_at};
use crate::values::{natural, numbers_of, small};
use crate::words::revision_of;
use arrayvec::ArrayVec;
use pd_identity::{Cable, CablePlug, Rating};
use pd_objects::Supply;
use pd_packet::Damage;
use pd_scenario::{
    Name, NamedCable, NamedSink, ScenarioEvent, ScenarioEventKind, ScenarioHappening, mode_of,
    plug_of, rating_of,
};
use pd_setup::{Demand, EventKind, KindWord, Settings, SinkRevision, SinkSettings, by_kind};
use toml::{Table, Value};

/// The number at a key; 0 where there is none of 32 bits.
pub fn number_at(table: &Table, key: Key) -> u32
    ensures { result ≡ small (whole_in (value_at key (table_view table.now)) (pos 0)) }
{
    small(whole_at(table, key, 0))
}

/// How often a port's cables are asked who they are.
fn tries_at(table: &Table) -> u32
    ensures { result ≡ number_of_key port_rules Key.IdentityTries (table_view table.now) }
{
    small(whole_at(table, Key::IdentityTries, DEFAULT_TRIES))
}

fn supply_of(value: &Value) -> Supply
    requires { IsSupply (supply_of (view value.now)) }
    ensures { result ≡ supply_of (view value.now) }
{
    let (mv, ma) = numbers_of(value);
    Supply::new(mv, ma)
}

fn supplies_of(table: &Table) -> ArrayVec<Supply, 7>
    requires { IsSoundPort (table_view table.now) }
    ensures { result.items ≡ (settings_of (table_view table.now)).supplies }
{
    let items = elements_at(table, Key::Supplies);
    let mut supplies = ArrayVec::new();
    for item in items {
        supplies.push(supply_of(item));
    }
    supplies
}

/// The settings that the table of a port says, which is sound and whose supplies are well formed.
pub fn settings_of(table: &Table) -> Settings
    requires { IsSoundPort (table_view table.now) }
    ensures { result ≡ settings_of (table_view table.now) }
{
    let supplies = supplies_of(table);
    let floor_mw = number_at(table, Key::Floor);
    let tries = tries_at(table);
    let unconstrained = truth_at(table, Key::Unconstrained, DEFAULT_UNCONSTRAINED);
    Settings::new(floor_mw, supplies, tries as u8, unconstrained)
}

/// The cable that a sound table says.
pub fn cable_of(table: &Table) -> NamedCable
    requires { IsSound TableKind.Cable (table_view table.now) }
    ensures { result ≡ cable_of (table_view table.now) }
{
    let name = word_at(table, Key::Name);
    let plug = plug_of(word_at(table, Key::Plug).as_bytes()).unwrap_or(CablePlug::Absent);
    let rating_ma = natural(whole_at(table, Key::Rating, 0));
    let rating = rating_of(rating_ma).unwrap_or(Rating::ThreeAmperes);
    NamedCable {
        name: Name::new(name),
        cable: Cable { plug, rating },
    }
}

/// The sink that a sound table says; of a file of the first version, which has no key for it, it is of Revision 3.0.
pub fn sink_of(table: &Table) -> NamedSink
    requires { IsSound TableKind.Sink (table_view table.now) }
    ensures { result ≡ sink_of (table_view table.now) }
{
    let name = word_at(table, Key::Name);
    let max_mv = number_at(table, Key::Max);
    let demand_mw = number_at(table, Key::Demand);
    let mode = mode_of(word_at(table, Key::Mode).as_bytes()).unwrap_or(DEFAULT_MODE);
    let number = whole_at(table, Key::Revision, DEFAULT_REVISION);
    let revision = revision_of(number).unwrap_or(SinkRevision::Revision3);
    NamedSink {
        name: Name::new(name),
        sink: SinkSettings::new(max_mv, demand_mw, mode, revision),
    }
}

/// Something on the port that an event names.
fn on(table: &Table, kind: ScenarioEventKind) -> ScenarioHappening
    ensures { result ≡ on (table_view table.now) kind }
{
    ScenarioHappening::OnPort {
        port: number_at(table, Key::Port),
        kind,
    }
}

fn attach_of(table: &Table) -> ScenarioEventKind
    requires { IsSound (TableKind.Event (EventName.OnPort (EventKind.Attach tt tt))) (table_view table.now) }
    ensures { result ≡ kind_in (EventKind.Attach tt tt) (table_view table.now) }
{
    let cable = word_at(table, Key::Cable);
    let sink = word_at(table, Key::Sink);
    EventKind::Attach {
        cable: Name::new(cable),
        sink: Name::new(sink),
    }
}

fn demand_of(table: &Table) -> Demand
    requires { IsSound (TableKind.Event (EventName.OnPort (EventKind.Demand tt))) (table_view table.now) }
    ensures { result ≡ small (whole_in (value_at Key.Mw (table_view table.now)) (pos 0)) }
{
    let mw = number_at(table, Key::Mw);
    Demand::new(mw)
}

fn damage_of(table: &Table) -> Damage
    requires { IsSound (TableKind.Event (EventName.OnPort (EventKind.Damage tt))) (table_view table.now) }
    ensures { result ≡ damage_of (table_view table.now) }
{
    let place = number_at(table, Key::Place);
    let mask = number_at(table, Key::Mask);
    Damage::new(place as u8, mask as u8)
}

fn kind_in(kind: KindWord, table: &Table) -> ScenarioEventKind
    requires { IsSound (TableKind.Event (EventName.OnPort kind)) (table_view table.now) }
    ensures { result ≡ kind_in kind (table_view table.now) }
{
    by_kind! {
        kind;
        Attach { (), () } => attach_of(table),
        Demand(()) => EventKind::Demand(demand_of(table)),
        Damage(()) => EventKind::Damage(damage_of(table)),
        plain => plain,
    }
}

fn happening_of(name: EventName, table: &Table) -> ScenarioHappening
    requires { IsSound (TableKind.Event name) (table_view table.now) }
    ensures { result ≡ happening_of name (table_view table.now) }
{
    match name {
        EventName::OnPort(kind) => on(table, kind_in(kind, table)),
        EventName::Budget => ScenarioHappening::Budget {
            mw: number_at(table, Key::Mw),
        },
        EventName::Unknown => on(table, EventKind::Detach),
    }
}

/// The event that a sound table says in a file of a version.
pub fn event_of(version: Version, table: &Table) -> ScenarioEvent
    requires { IsSound (TableKind.Event (event_at version (table_view table.now))) (table_view table.now) }
    ensures { result ≡ event_of version (table_view table.now) }
{
    let happening = happening_of(event_at(version, table), table);
    ScenarioEvent {
        id: number_at(table, Key::Id),
        at: number_at(table, Key::At),
        happening,
    }
}
