//! What is warned of.

use pd_scenario::Name;

/// Why a port ignores an event.
#[derive(Clone, Copy, Debug, PartialEq, Eq)]
pub enum Why {
    /// A sink is attached already.
    Attached,
    /// Nothing is attached.
    Detached,
    /// Eight disturbances wait already.
    Full,
    /// The sink isn't in PE_SNK_Ready.
    SinkNotReady,
    /// The source isn't in PE_SRC_Ready.
    SourceNotReady,
}

/// What a scenario has that is accepted and surely not meant. Times are in microseconds, ports are numbered from 1.
#[derive(Drop)]
pub enum Warning {
    /// The event of this id is after the end, so it never happens.
    AfterEnd {
        id: u32,
        at: u32,
        end: u32,
    },
    /// No event attaches the cable of this name.
    UnusedCable {
        name: Name,
    },
    /// No event attaches the sink of this name.
    UnusedSink {
        name: Name,
    },
    /// Beside the floors of the other ports this port gets at most this share of the greatest budget, in microwatts, and each of
    /// its supplies wants more.
    SmallShare {
        port: usize,
        share: u64,
    },
    /// The event of this id attaches a sink without Power Delivery, whose demand is above the floor of its port: nothing counts what
    /// it draws. Both are in mW.
    Uncounted {
        id: u32,
        at: u32,
        port: u32,
        name: Name,
        demand_mw: u32,
        floor_mw: u32,
    },
    /// The event of this id does nothing.
    Ignored {
        id: u32,
        at: u64,
        port: usize,
        why: Why,
    },
    /// The event of this id disturbs no packet: too few start before the detach at this time, or before the end.
    Unmet {
        id: u32,
        at: u64,
        port: usize,
        until: Option<u64>,
    },
}
