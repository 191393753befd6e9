//! What a port is made of.

use crate::disturbances::Disturbances;
use pd_header::Side;
use pd_identity::Cable;
use pd_packet::{Fate, Packet};
use pd_plug::Plug;
use pd_protocol::{Layer, Message};
use pd_sink::Sink;
use pd_source::Source;

/// What waits on a side until the line is idle: what its engine sent last.
#[derive(Clone, Copy, Debug)]
pub enum Waiting {
    Nothing,
    Message(Message),
    HardReset,
}

/// What is on the line between source, sink and plug, and when it ends, in microseconds.
#[derive(Clone, Copy, Debug)]
pub enum Line {
    Idle,
    /// A side's message is sent.
    Message {
        side: Side,
        packet: Packet,
        fate: Fate,
        end: u64,
    },
    /// A side's message was heard, and its GoodCRC starts at the end.
    Pause {
        side: Side,
        packet: Packet,
        end: u64,
    },
    /// The GoodCRC for a side's message is sent.
    GoodCrc {
        side: Side,
        packet: Packet,
        answer: Packet,
        fate: Fate,
        end: u64,
    },
    /// No GoodCRC for a side's message has come, or it was disturbed: the sender's CRCReceiveTimer runs to the end.
    NoAnswer {
        side: Side,
        packet: Packet,
        end: u64,
    },
    /// A side's Hard Reset signalling is sent.
    HardReset {
        side: Side,
        end: u64,
    },
}

/// All that a port keeps from step to step: the attached cable, the engines, the layers by side and channel, what waits,
/// what is on the line, and the disturbances that wait for packets. The source's engine has its settings in it; without
/// them these are the port's record, `PortRecord` of `specs/Record.antt`.
#[derive(Clone, Copy)]
pub struct PortParts {
    pub cable: Option<Cable>,
    // Both are aligned at each byte: apart, each would be followed by a gap.
    pub disturbances: Disturbances,
    pub source: Source,
    pub sink: Sink,
    pub plug: Plug,
    pub source_sop: Layer,
    pub sink_sop: Layer,
    pub source_sop_prime: Layer,
    pub plug_sop_prime: Layer,
    pub source_waits: Waiting,
    pub sink_waits: Waiting,
    pub plug_waits: Waiting,
    pub line: Line,
}
