//! What is told, fact by fact.

use crate::bound::Bounds;
use crate::cable::CableLimit;
use crate::holder::Maker;
use pd_line::Fault;
use pd_port::ContractChange;
use pd_setup::SinkMode;
use pd_source::State;

/// One fact of what bounds a port: a line of the text. Times are in microseconds, budgets, holds and powers in microwatts.
#[derive(Clone, Copy, Debug)]
pub enum Fact {
    /// A port makes an offer, out of this budget.
    Offer {
        at: u64,
        port: usize,
        budget: u64,
    },
    /// What another port holds, and why.
    Hold {
        port: usize,
        hold: u64,
        maker: Maker,
    },
    /// What is free to the port, never less than its floor.
    Free {
        port: usize,
        free: u64,
        floor: u64,
    },
    /// What the cable carries in mA, and how that is known, where it was asked at most so often.
    Cable {
        ma: u32,
        known: CableLimit,
        tries: u8,
    },
    /// What bounds the supply at a position of the offer.
    Supply {
        position: usize,
        bounds: Bounds,
    },
    /// The sink asks for a supply at a current in mA, with or without a capability mismatch.
    Request {
        at: u64,
        position: u32,
        ma: u32,
        mismatch: bool,
    },
    /// What the sink wants, in mW, the greatest voltage that it accepts, in mV, and how it behaves.
    Demand {
        demand_mw: u32,
        max_mv: u32,
        mode: SinkMode,
    },
    /// What the sink needs in mA of a supply of so many mV and mA, if it accepts that at all.
    Need {
        position: usize,
        mv: u32,
        ma: u32,
        need: Option<u64>,
    },
    /// By which rule the sink chose.
    Choice {
        mismatch: bool,
    },
    /// Whether the power of the request fits, and what is free.
    Fits {
        at: u64,
        power: u64,
        fits: bool,
        free: u64,
    },
    /// What went wrong.
    Wrong {
        at: u64,
        fault: Fault,
    },
    /// What became of the contract.
    Contract {
        at: u64,
        change: ContractChange,
    },
    /// The cable is pulled out.
    Detached {
        at: u64,
    },
    /// The port makes no offer, up to a time or at all: its source is in this state.
    NoOffer {
        port: usize,
        to: Option<u64>,
        state: State,
    },
}
