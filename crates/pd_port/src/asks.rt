//! With what the source is stepped, and so what it asks.

ghost use Rattle.std.specs.Prelude.{◌≡◌};
ghost use Rattle.pd_port.specs.Happens.{is_budget};
ghost use Rattle.pd_port.specs.SourceTold.{source_layer, told_at_good_crc, told_at_time_out, told_of_reset, told_by_line};
ghost use Rattle.pd_port.specs.SourceTold.{told_by_event, source_told};

use crate::{EventKind, Happening, What};
use pd_header::{Side, header_id};
use pd_line::stepping::{Line, PortParts, sent_as, source_hears_as};
use pd_packet::{Fate, Packet, reaches};
use pd_protocol::{Layer, LayerAct};
use pd_source::{Sent, Stimulus};
use pd_symbols::Channel;

/// A copy of the source's layer on a channel, to be asked what it would answer.
fn copy_of_source_layer(port: &PortParts, channel: Channel) -> Layer
    ensures { result ≡ source_layer channel port.now }
{
    match channel {
        Channel::Sop => port.source_sop.copy(),
        Channel::SopPrime => port.source_sop_prime.copy(),
    }
}

/// N3: with what the source is stepped where a GoodCRC ends.
fn told_at_good_crc(
    port: &PortParts,
    side: Side,
    packet: &Packet,
    answer: &Packet,
    fate: Fate,
) -> Option<Stimulus>
    ensures { result ≡ told_at_good_crc side packet.now answer.now fate port.now }
{
    let mut layer = copy_of_source_layer(port, packet.channel());
    if let Side::Source = side {
        if !reaches(answer, fate) {
            return None;
        }
        return match layer.good_crc(header_id(answer.header())) {
            LayerAct::Sent => Some(Stimulus::Sent(sent_as(packet))),
            _ => None,
        };
    }
    match layer.received(packet.header()) {
        LayerAct::Up => Some(source_hears_as(packet)),
        _ => None,
    }
}

/// N4: with what the source is stepped where its CRCReceiveTimer ends.
fn told_at_time_out(port: &PortParts, side: Side, packet: &Packet) -> Option<Stimulus>
    ensures { result ≡ told_at_time_out side packet.now port.now }
{
    if side != Side::Source {
        return None;
    }
    match copy_of_source_layer(port, packet.channel()).timed_out() {
        LayerAct::Failed => Some(Stimulus::Failed),
        _ => None,
    }
}

/// N5: with what the source is stepped where a side's Hard Reset ends.
fn told_of_reset(port: &PortParts, side: Side) -> Option<Stimulus>
    ensures { result ≡ told_of_reset side port.now }
{
    if let Side::Source = side {
        return Some(Stimulus::Sent(Sent::Other));
    }
    if port.source.hears() {
        Some(Stimulus::HardReset)
    } else {
        None
    }
}

/// With what the source is stepped where what is on the line ends.
fn told_by_line(port: &PortParts) -> Option<Stimulus>
    ensures { result ≡ told_by_line port.now.line port.now }
{
    match &port.line {
        Line::Idle | Line::Message { .. } | Line::Pause { .. } => None,
        Line::GoodCrc {
            side,
            packet,
            answer,
            fate,
            ..
        } => told_at_good_crc(port, *side, packet, answer, *fate),
        Line::NoAnswer { side, packet, .. } => told_at_time_out(port, *side, packet),
        Line::HardReset { side, .. } => told_of_reset(port, *side),
    }
}

/// With what the source is stepped by an event.
fn told_by_event(port: &PortParts, happening: &Happening) -> Option<Stimulus>
    ensures { result ≡ told_by_event happening.now port.now }
{
    let Happening::Port { kind, .. } = happening else {
        return None;
    };
    let attached = port.cable.is_some();
    match kind {
        EventKind::Attach { .. } if !attached => Some(Stimulus::Attach),
        EventKind::GetSink if attached && port.source.ready() => Some(Stimulus::GetSink),
        _ => None,
    }
}

/// With what the source is stepped for what falls due, where that is no change of the budget.
#[inline(always)]
pub(crate) fn source_told(port: &PortParts, what: &What) -> Option<Stimulus>
    ensures { result ≡ source_told what.now port.now }
{
    match what {
        What::Event(event) => told_by_event(port, &event.happening()),
        What::Line => told_by_line(port),
        What::Timer {
            side: Side::Source,
            timer,
        } => Some(Stimulus::Ended(*timer)),
        What::Timer { .. } => None,
    }
}

/// Whether a change of the shared budget falls due.
pub(crate) fn is_budget(what: &What) -> bool
    ensures { result ≡ is_budget what.now }
{
    match what {
        What::Event(event) => matches!(event.happening(), Happening::Budget),
        What::Line => false,
        What::Timer { .. } => false,
    }
}
