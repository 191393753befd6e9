//! The events of a scenario.

ghost use Rattle.std.specs.Prelude.{◌≡◌};

use crate::Name;
use pd_packet::Damage;
use pd_setup::{Demand, EventKind, by_kind};

/// A kind in a scenario: the sink of a name is attached through the cable of a name.
pub type ScenarioEventKind = EventKind<Name, Name, Demand, Damage>;

/// What happens: something to one port, numbered from 1, or a change of the budget that all ports share, in mW.
#[derive(Drop)]
pub enum ScenarioHappening {
    OnPort { port: u32, kind: ScenarioEventKind },
    Budget { mw: u32 },
}

/// An event of a scenario: its id, its time in microseconds, and what happens.
#[derive(Drop)]
pub struct ScenarioEvent {
    pub id: u32,
    pub at: u32,
    pub happening: ScenarioHappening,
}

/// A copy of a kind.
pub fn copy_kind(kind: &ScenarioEventKind) -> ScenarioEventKind
    ensures { result ≡ kind.now }
{
    by_kind! {
        kind;
        Attach { cable, sink } => EventKind::Attach { cable: cable.copy(), sink: sink.copy() },
        Demand(demand) => EventKind::Demand(*demand),
        Damage(damage) => EventKind::Damage(*damage),
        plain => plain,
    }
}

impl ScenarioHappening {
    /// A copy of what happens.
    pub fn copy(&self) -> ScenarioHappening
        ensures { result ≡ self.now }
    {
        match self {
            ScenarioHappening::OnPort { port, kind } => ScenarioHappening::OnPort {
                port: *port,
                kind: copy_kind(kind),
            },
            ScenarioHappening::Budget { mw } => ScenarioHappening::Budget { mw: *mw },
        }
    }
}

impl ScenarioEvent {
    /// A copy of the event.
    pub fn copy(&self) -> ScenarioEvent
        ensures { result ≡ self.now }
    {
        ScenarioEvent {
            id: self.id,
            at: self.at,
            happening: self.happening.copy(),
        }
    }
}
