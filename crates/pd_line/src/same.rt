//! Equal records, and copies.

ghost use Rattle.std.specs.Prelude.{◌≡◌, ℕ, ◌≤◌, length, IsTrue, ◌↔◌};

use crate::disturbances::{Disturbance, Disturbances};
use crate::port_parts::{Line, PortParts, Waiting};
use pd_header::Side;
use pd_objects::Supply;
use pd_packet::{Fate, Packet};
use pd_plug::Plug;
use pd_protocol::Layer;
use pd_sink::Sink;
use pd_source::Source;
use pd_symbols::Channel;

impl Waiting {
    /// Whether the same waits on both.
    fn same(&self, other: &Waiting) -> bool
        ensures { IsTrue result ↔ (self.now ≡ other.now) }
    {
        match (self, other) {
            (Waiting::Nothing, Waiting::Nothing) => true,
            (Waiting::Message(message), Waiting::Message(other)) => message.same(other),
            (Waiting::HardReset, Waiting::HardReset) => true,
            _ => false,
        }
    }
}

impl Line {
    ghost use Rattle.pd_line.specs.declared.port_parts.Line.TheVariants as lines;

    /// Whether the same is on both lines, with the same end.
    fn same(&self, other: &Line) -> bool
        ensures { IsTrue result ↔ (self.now ≡ other.now) }
    {
        match self {
            Line::Idle => matches!(other, Line::Idle),
            Line::Message {
                side,
                packet,
                fate,
                end,
            } => other.is_message(*side, packet, fate, *end),
            Line::Pause { side, packet, end } => other.is_pause(*side, packet, *end),
            Line::GoodCrc {
                side,
                packet,
                answer,
                fate,
                end,
            } => other.is_good_crc(*side, packet, answer, fate, *end),
            Line::NoAnswer { side, packet, end } => other.is_no_answer(*side, packet, *end),
            Line::HardReset { side, end } => other.is_hard_reset(*side, *end),
        }
    }

    /// Whether it is this message, which is sent.
    fn is_message(&self, from: Side, sent: &Packet, its: &Fate, until: u64) -> bool
        ensures { IsTrue result ↔ (lines.Message from sent.now its.now until ≡ self.now) }
    {
        match self {
            Line::Message {
                side,
                packet,
                fate,
                end,
            } => *side == from && packet == sent && fate.same(its) && *end == until,
            _ => false,
        }
    }

    /// Whether it is the pause after this message.
    fn is_pause(&self, from: Side, sent: &Packet, until: u64) -> bool
        ensures { IsTrue result ↔ (lines.Pause from sent.now until ≡ self.now) }
    {
        match self {
            Line::Pause { side, packet, end } => *side == from && packet == sent && *end == until,
            _ => false,
        }
    }

    /// Whether it is this GoodCRC for this message.
    fn is_good_crc(
        &self,
        from: Side,
        sent: &Packet,
        good_crc: &Packet,
        its: &Fate,
        until: u64,
    ) -> bool
        ensures { IsTrue result ↔ (lines.GoodCrc from sent.now good_crc.now its.now until ≡ self.now) }
    {
        match self {
            Line::GoodCrc {
                side,
                packet,
                answer,
                fate,
                end,
            } => {
                *side == from
                    && packet == sent
                    && answer == good_crc
                    && fate.same(its)
                    && *end == until
            }
            _ => false,
        }
    }

    /// Whether no GoodCRC comes for this message.
    fn is_no_answer(&self, from: Side, sent: &Packet, until: u64) -> bool
        ensures { IsTrue result ↔ (lines.NoAnswer from sent.now until ≡ self.now) }
    {
        match self {
            Line::NoAnswer { side, packet, end } => *side == from
                && packet == sent
                && *end == until,
            _ => false,
        }
    }

    /// Whether it is this side's Hard Reset.
    fn is_hard_reset(&self, from: Side, until: u64) -> bool
        ensures { IsTrue result ↔ (lines.HardReset from until ≡ self.now) }
    {
        match self {
            Line::HardReset { side, end } => *side == from && *end == until,
            _ => false,
        }
    }
}

impl Disturbance {
    /// Whether both do the same to a packet.
    fn same(&self, other: &Disturbance) -> bool
        ensures { IsTrue result ↔ (self.now ≡ other.now) }
    {
        match (self, other) {
            (Disturbance::Lost, Disturbance::Lost) => true,
            (Disturbance::Damaged(damage), Disturbance::Damaged(other)) => damage.same(other),
            _ => false,
        }
    }
}

/// Whether the same disturbances wait, in the same order.
fn same_disturbances(first: &[Disturbance], second: &[Disturbance]) -> bool
    ensures { IsTrue result ↔ (first.now ≡ second.now) }
{
    match (first, second) {
        ([], []) => true,
        ([x, xs @ ..], [y, ys @ ..]) => x.same(y) && same_disturbances(xs, ys),
        _ => false,
    }
}

impl PortParts {
    ghost use Rattle.pd_source.specs.Record.{SourceSettings};
    ghost use Rattle.pd_line.specs.Record.{without_settings, with_settings, nothing_attached};

    /// A port to which nothing is attached.
    #[tactic(auto, unfolding(crate::specs::Record::nothing_attached))]
    pub fn new(supplies: &[Supply], identity_tries: u8, unconstrained: bool) -> PortParts
        requires { length supplies.now ≤ 7 }
        ensures { let settings : SourceSettings =
            record { supplies = supplies.now; identity_tries = identity_tries; unconstrained = unconstrained } in
            result ≡ with_settings settings (nothing_attached settings) }
    {
        PortParts {
            cable: None,
            disturbances: Disturbances::new(),
            source: Source::new(supplies, identity_tries, unconstrained),
            sink: Sink::new(),
            plug: Plug::new(),
            source_sop: Layer::new(Side::Source, Channel::Sop),
            sink_sop: Layer::new(Side::Sink, Channel::Sop),
            source_sop_prime: Layer::new(Side::Source, Channel::SopPrime),
            plug_sop_prime: Layer::new(Side::Plug, Channel::SopPrime),
            source_waits: Waiting::Nothing,
            sink_waits: Waiting::Nothing,
            plug_waits: Waiting::Nothing,
            line: Line::Idle,
        }
    }

    /// Whether the engines of both sides and the plug are the same, but for what the source is set to.
    fn same_engines(&self, other: &PortParts) -> bool
        ensures { IsTrue result ↔ ((self.now.source.record ≡ other.now.source.record) × (self.now.sink ≡ other.now.sink)
            × (self.now.plug ≡ other.now.plug)) }
    {
        self.source.same_record(&other.source)
            && self.sink.same(&other.sink)
            && self.plug.same(&other.plug)
    }

    /// Whether the four layers are the same.
    fn same_layers(&self, other: &PortParts) -> bool
        ensures { IsTrue result ↔ ((self.now.source_sop ≡ other.now.source_sop) × (self.now.sink_sop ≡ other.now.sink_sop)
            × (self.now.source_sop_prime ≡ other.now.source_sop_prime) × (self.now.plug_sop_prime ≡ other.now.plug_sop_prime)) }
    {
        self.source_sop.same(&other.source_sop)
            && self.sink_sop.same(&other.sink_sop)
            && self.source_sop_prime.same(&other.source_sop_prime)
            && self.plug_sop_prime.same(&other.plug_sop_prime)
    }

    /// Whether the same waits on each side.
    fn same_waiting(&self, other: &PortParts) -> bool
        ensures { IsTrue result ↔ ((self.now.source_waits ≡ other.now.source_waits) × (self.now.sink_waits ≡ other.now.sink_waits)
            × (self.now.plug_waits ≡ other.now.plug_waits)) }
    {
        self.source_waits.same(&other.source_waits)
            && self.sink_waits.same(&other.sink_waits)
            && self.plug_waits.same(&other.plug_waits)
    }

    /// Whether both records are the same, whatever their sources are set to. What differs most often is compared first: mostly
    /// disturbances that wait.
    pub fn same(&self, other: &PortParts) -> bool
        ensures { IsTrue result ↔ (without_settings self.now ≡ without_settings other.now) }
    {
        same_disturbances(self.disturbances.as_slice(), other.disturbances.as_slice())
            && self.line.same(&other.line)
            && self.cable == other.cable
            && self.same_waiting(other)
            && self.same_layers(other)
            && self.same_engines(other)
    }
}
