//! Edits of a scenario, with their numbers as they were written.

use arrayvec::ArrayVec;
use pd_identity::CablePlug;
use pd_scenario::Name;
use pd_setup::{EventKind, SinkMode, SinkRevision};

/// Damage as it was written: the place that is hit, and the bits that are turned.
#[derive(Clone, Copy, Debug, Default, PartialEq, Eq)]
pub struct WrittenDamage {
    pub place: u64,
    pub mask: u64,
}

/// A kind of event as it was written, with the names of a cable and a sink, and a demand in mW. Its numbers may be out of
/// the ranges that a scenario keeps.
pub type EditKind = EventKind<Name, Name, u64, WrittenDamage>;

/// What an event that is inserted is: something to one port, numbered from 1, or a change of the budget in mW.
#[derive(Drop)]
pub enum EditHappening {
    OnPort { port: u64, kind: EditKind },
    Budget { mw: u64 },
}

/// A supply as it was written: its voltage in mV and its current in mA.
#[derive(Clone, Copy, Debug, Default, PartialEq, Eq)]
pub struct WrittenSupply {
    pub mv: u64,
    pub ma: u64,
}

/// An edit of a scenario.
#[derive(Drop)]
pub enum Edit {
    /// An event of this id, at a time in microseconds.
    Insert {
        id: u64,
        at: u64,
        happening: EditHappening,
    },
    /// The event of this id is taken out.
    Remove {
        id: u64,
    },
    /// The event of this id is at another time, in microseconds.
    Move {
        id: u64,
        at: u64,
    },
    /// The event of this id does something else to its port.
    Change {
        id: u64,
        kind: EditKind,
    },
    /// A cable of this name, new or in place of the old one, with a rating in mA.
    Cable {
        name: Name,
        plug: CablePlug,
        rating: u64,
    },
    /// The cable of this name is taken out.
    DropCable {
        name: Name,
    },
    /// A sink of this name, new or in place of the old one, with its greatest voltage in mV and its demand in mW.
    Sink {
        name: Name,
        max_mv: u64,
        demand_mw: u64,
        mode: SinkMode,
        revision: SinkRevision,
    },
    /// The sink of this name is taken out.
    DropSink {
        name: Name,
    },
    /// The supplies of a port.
    Caps {
        port: u64,
        supplies: ArrayVec<WrittenSupply, 7>,
    },
    /// The floor of a port in mW.
    Floor {
        port: u64,
        mw: u64,
    },
    /// The budget that the ports share, in mW.
    Budget {
        mw: u64,
    },
    /// The end in microseconds.
    End {
        at: u64,
    },
}
