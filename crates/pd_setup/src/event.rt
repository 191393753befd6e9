//! What happens to a port from outside.

ghost use Rattle.std.specs.Prelude.{◌≡◌, ℕ, ◌↔◌, IsTrue};
ghost use Rattle.pd_setup.specs.Events.{EventData, IsEvent};

use crate::sink::{Demand, SinkSettings};
use pd_identity::Cable;
use pd_packet::Damage;
use std::marker::Model;

/// The kinds of events of a port. What a kind carries is said in the terms of whoever speaks of it, its parameters: the
/// cable and the sink that are attached, the demand, and the damage.
#[derive(Clone, Copy, Debug, Drop, PartialEq, Eq)]
pub enum EventKind<C, S, D, M> {
    /// A sink is attached through a cable.
    Attach { cable: C, sink: S },
    /// The cable is pulled out.
    Detach,
    /// The sink wants another power from now on.
    Demand(D),
    /// The next packet that starts is lost.
    Lose,
    /// The next packet that starts is damaged.
    Damage(M),
    /// The sink is to ask for the source's capabilities.
    GetSource,
    /// The source is to ask for the sink's capabilities.
    GetSink,
}

/// What becomes of a kind: one arm for each kind that carries something, and one for all that carry nothing, in which a
/// variable stands for the kind in the terms that are wanted.
#[macro_export]
macro_rules! by_kind {
    (
        $kind:expr;
        Attach { $cable:pat, $sink:pat } => $attach:expr,
        Demand($power:pat) => $demand:expr,
        Damage($harm:pat) => $damage:expr,
        $plain:ident => $other:expr $(,)?
    ) => {
        match $kind {
            $crate::EventKind::Attach {
                cable: $cable,
                sink: $sink,
            } => $attach,
            $crate::EventKind::Demand($power) => $demand,
            $crate::EventKind::Damage($harm) => $damage,
            $crate::EventKind::Detach => {
                let $plain = $crate::EventKind::Detach;
                $other
            }
            $crate::EventKind::Lose => {
                let $plain = $crate::EventKind::Lose;
                $other
            }
            $crate::EventKind::GetSource => {
                let $plain = $crate::EventKind::GetSource;
                $other
            }
            $crate::EventKind::GetSink => {
                let $plain = $crate::EventKind::GetSink;
                $other
            }
        }
    };
}

/// The kind alone, which a word stands for.
pub type KindWord = EventKind<(), (), (), ()>;

/// A kind at a port, with the cable and the sink themselves.
pub type PortEventKind = EventKind<Cable, SinkSettings, Demand, Damage>;

impl PortEventKind {
    /// Whether both are the same.
    pub fn same(&self, other: &PortEventKind) -> bool
        ensures { IsTrue result ↔ (self.now ≡ other.now) }
    {
        match (self, other) {
            (
                EventKind::Attach { cable, sink },
                EventKind::Attach {
                    cable: other_cable,
                    sink: other_sink,
                },
            ) => cable == other_cable && sink.same(other_sink),
            (EventKind::Demand(demand), EventKind::Demand(other)) => demand.same(other),
            (EventKind::Damage(damage), EventKind::Damage(other)) => damage.same(other),
            (EventKind::Detach, EventKind::Detach) => true,
            (EventKind::Lose, EventKind::Lose) => true,
            (EventKind::GetSource, EventKind::GetSource) => true,
            (EventKind::GetSink, EventKind::GetSink) => true,
            _ => false,
        }
    }
}

/// What happens: something to the port itself, or a change of the budget that all ports share. The id is that of a scenario's event,
/// from 1 to 1,000,000; or 0, where the event stands in no scenario.
#[derive(Clone, Copy, Debug)]
pub enum Happening {
    Port { id: u32, kind: PortEventKind },
    Budget,
}

impl Happening {
    /// Whether both are the same.
    pub fn same(&self, other: &Happening) -> bool
        ensures { IsTrue result ↔ (self.now ≡ other.now) }
    {
        match (self, other) {
            (
                Happening::Port { id, kind },
                Happening::Port {
                    id: other_id,
                    kind: other_kind,
                },
            ) => id == other_id && kind.same(other_kind),
            (Happening::Budget, Happening::Budget) => true,
            _ => false,
        }
    }
}

/// An event of a port: its time in microseconds, up to 120,000,000, and what happens.
#[derive(Clone, Copy, Debug)]
pub struct Event {
    at: u64,
    happening: Happening,
}

impl Model for Event {
    ghost use Rattle.std.specs.Prelude.{◌≡◌};
    ghost use Rattle.pd_setup.specs.Events.{EventData, IsEvent};

    ghost Value = { EventData };

    ghost view = { λ e. record { at = e.at; happening = e.happening } };

    ghost invariant = { λ e. IsEvent (record { at = e.at; happening = e.happening }) };

    ghost inverse = { λ v. record { at = v.at; happening = v.happening } };
}

impl Event {
    /// An event at a time in microseconds.
    pub fn new(at: u64, happening: Happening) -> Event
        requires { IsEvent (record { at = at; happening = happening }) }
        ensures { result ≡ record { at = at; happening = happening } }
    {
        Event { at, happening }
    }

    /// The time in microseconds.
    pub fn at(&self) -> u64
        ensures value { result ≡ self.now.at }
        ensures is_event { IsEvent self.now }
    {
        let _happening = self.happening;
        self.at
    }

    /// What happens.
    pub fn happening(&self) -> Happening
        ensures value { result ≡ self.now.happening }
        ensures is_event { IsEvent self.now }
    {
        let _at = self.at;
        self.happening
    }

    /// Whether both are the same.
    pub fn same(&self, other: &Event) -> bool
        ensures { IsTrue result ↔ (self.now ≡ other.now) }
    {
        other.at == self.at && self.happening.same(&other.happening)
    }
}
