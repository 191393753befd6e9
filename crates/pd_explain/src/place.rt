//! The places of an edit at which a rule bears.

use pd_edit_lines::EditFault;
use pd_scenario::{Name, Quantity};

/// A word of an edit line that stands for a number of some range, by its name in docs/FORMATS.md; of `caps` with the place
/// of its supply, from 1.
#[derive(Clone, Copy, Debug, PartialEq, Eq)]
pub enum NumberWord {
    Id,
    At,
    Mw,
    Place,
    Mask,
    Max,
    Demand,
    Mv { supply: usize },
    Ma { supply: usize },
}

/// What a scenario has at most so many of.
#[derive(Clone, Copy, Debug, PartialEq, Eq)]
pub enum Counted {
    Events,
    Cables,
    Sinks,
}

/// A place of an edit at which a rule bears, with all that is needed to tell how it is broken there.
#[derive(Drop)]
pub enum Place {
    /// The id of a new event, which none has yet.
    NewId {
        id: u64,
    },
    /// The id of an event that is there.
    KnownId {
        id: u64,
    },
    /// A port that is there, numbered from 1.
    Port {
        port: u64,
    },
    /// The event that is to be of another kind, which is on a port.
    Changed {
        id: u64,
    },
    /// The name of a cable that is there.
    Cable {
        name: Name,
    },
    /// The name of a sink that is there.
    Sink {
        name: Name,
    },
    /// An event that names the cable or the sink that is to be taken out: its id, and its time in microseconds.
    User {
        id: u32,
        at: u32,
    },
    /// A number within its range.
    Number {
        word: NumberWord,
        quantity: Quantity,
        value: u64,
    },
    /// The rating of a cable in mA, one that there is.
    Rating {
        rating: u64,
    },
    /// How many supplies there are, 1 to 7.
    SupplyCount {
        count: usize,
    },
    /// The voltage of the first supply in mV, 5000.
    FirstSupply {
        mv: u64,
    },
    /// The voltage of a later supply, numbered from 2, in mV, above that of the one before it.
    NextSupply {
        supply: usize,
        mv: u64,
        before: u64,
    },
    /// The floors of all ports together, no more than the least of the budget and its changes, in mW.
    Floors {
        floors_mw: u128,
        budget_mw: u64,
    },
    /// How many there are already, fewer than there may be.
    Room {
        counted: Counted,
        count: usize,
    },
}

/// A refusal that applies to an edit, and a place at which it does.
#[derive(Drop)]
pub struct Reason {
    pub fault: EditFault,
    pub place: Place,
}
