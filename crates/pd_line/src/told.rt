//! What messages are to the engines, and what the engines send and note: with the numbers and names of pd_header,
//! `Kind`, all that is fixed of a message.

ghost use Rattle.std.specs.Prelude.{◌≡◌, ◌≤◌, length, [], ◌∷◌};
ghost use Rattle.pd_header.specs.Kinds.{kind_of_header};
ghost use Rattle.pd_line.specs.Told.{source_hears_as, sink_hears_as, plug_hears_as, sent_as, source_message, sink_message};
ghost use Rattle.pd_line.specs.Told.{plug_message, source_fault, sink_fault};

use crate::notes::Fault;
use arrayvec::ArrayVec;
use pd_header::{Kind, Side, header_kind, header_revision};
use pd_identity::request;
use pd_packet::Packet;
use pd_plug::Stimulus as PlugStimulus;
use pd_protocol::Message;
use pd_sink::{Note as SinkNote, Sending as SinkSending, Stimulus as SinkStimulus};
use pd_source::{Note as SourceNote, Sending as SourceSending, Sent, Stimulus as SourceStimulus};
use pd_symbols::copied;

/// What a message is to the source.
pub fn source_hears_as(packet: &Packet) -> SourceStimulus
    ensures { result ≡ source_hears_as (kind_of_header packet.now.header) packet.now.header packet.now.objects }
{
    match header_kind(packet.header()) {
        Kind::Request => match packet.objects() {
            [object, ..] => SourceStimulus::Request {
                object: *object,
                revision: header_revision(packet.header()),
            },
            [] => SourceStimulus::Other,
        },
        Kind::GetSourceCap => SourceStimulus::GetSourceCap,
        Kind::SinkCapabilities => SourceStimulus::SinkCapabilities,
        Kind::Accept => SourceStimulus::Accept,
        Kind::SoftReset => SourceStimulus::SoftReset,
        Kind::VendorDefined => SourceStimulus::Identity(copied(packet.objects())),
        _ => SourceStimulus::Other,
    }
}

/// What a message is to the sink.
pub(crate) fn sink_hears_as(packet: &Packet) -> SinkStimulus
    ensures { result ≡ sink_hears_as (kind_of_header packet.now.header) packet.now.objects }
{
    match header_kind(packet.header()) {
        Kind::SourceCapabilities => SinkStimulus::SourceCapabilities(copied(packet.objects())),
        Kind::Accept => SinkStimulus::Accept,
        Kind::Reject => SinkStimulus::Reject,
        Kind::Wait => SinkStimulus::Wait,
        Kind::PsRdy => SinkStimulus::PsRdy,
        Kind::GetSinkCap => SinkStimulus::GetSinkCap,
        Kind::SoftReset => SinkStimulus::SoftReset,
        _ => SinkStimulus::Other,
    }
}

/// What a message is to the plug.
pub(crate) fn plug_hears_as(packet: &Packet) -> PlugStimulus
    ensures { result ≡ plug_hears_as (kind_of_header packet.now.header) packet.now.objects }
{
    match (header_kind(packet.header()), packet.objects()) {
        (Kind::VendorDefined, [object, ..]) if *object == request() => {
            PlugStimulus::DiscoverIdentity
        }
        _ => PlugStimulus::Other,
    }
}

/// Which message of the source has reached its receiver.
pub fn sent_as(packet: &Packet) -> Sent
    ensures { result ≡ sent_as (kind_of_header packet.now.header) }
{
    match header_kind(packet.header()) {
        Kind::Accept => Sent::Accept,
        Kind::PsRdy => Sent::PsRdy,
        _ => Sent::Other,
    }
}

/// One object.
fn one(object: u32) -> ArrayVec<u32, 7>
    ensures { result.items ≡ object ∷ [] }
{
    let mut objects = ArrayVec::new();
    objects.push(object);
    objects
}

/// The message that the source sends.
pub(crate) fn source_message(sending: &SourceSending) -> Message
    ensures { result ≡ source_message sending.now }
{
    match sending {
        SourceSending::DiscoverIdentity => Message::of(Kind::VendorDefined, one(request())),
        SourceSending::SourceCapabilities(objects) => Message::of(
            Kind::SourceCapabilities,
            copied(objects.as_slice()),
        ),
        SourceSending::Accept => Message::control(Kind::Accept),
        SourceSending::Reject => Message::control(Kind::Reject),
        SourceSending::Wait => Message::control(Kind::Wait),
        SourceSending::PsRdy => Message::control(Kind::PsRdy),
        SourceSending::GetSinkCap => Message::control(Kind::GetSinkCap),
        SourceSending::SoftReset => Message::control(Kind::SoftReset),
    }
}

/// The message that the sink sends.
pub(crate) fn sink_message(sending: &SinkSending) -> Message
    ensures { result ≡ sink_message sending.now }
{
    match sending {
        SinkSending::Request(object) => Message::of(Kind::Request, one(*object)),
        SinkSending::GetSourceCap => Message::control(Kind::GetSourceCap),
        SinkSending::SinkCapabilities(objects) => Message::of(
            Kind::SinkCapabilities,
            copied(objects.as_slice()),
        ),
        SinkSending::Accept => Message::control(Kind::Accept),
        SinkSending::SoftReset => Message::control(Kind::SoftReset),
    }
}

/// The message that the plug sends.
pub(crate) fn plug_message(objects: &ArrayVec<u32, 7>) -> Message
    ensures { result ≡ plug_message objects.now.items }
{
    Message::of(Kind::VendorDefined, copied(objects.as_slice()))
}

/// What the source notes.
pub(crate) fn source_fault(note: SourceNote) -> Fault
    ensures { result ≡ source_fault note }
{
    match note {
        SourceNote::SoftReset => Fault::SoftReset { side: Side::Source },
        SourceNote::HardReset => Fault::HardReset { side: Side::Source },
        SourceNote::Disabled => Fault::SourceDisabled,
        SourceNote::CableUnread => Fault::CableUnread,
        SourceNote::Reject => Fault::Reject,
        SourceNote::Wait => Fault::Wait,
    }
}

/// What the sink notes.
pub(crate) fn sink_fault(note: SinkNote) -> Fault
    ensures { result ≡ sink_fault note }
{
    match note {
        SinkNote::SoftReset => Fault::SoftReset { side: Side::Sink },
        SinkNote::HardReset => Fault::HardReset { side: Side::Sink },
        SinkNote::Disabled => Fault::SinkDisabled,
        SinkNote::Mismatch => Fault::Mismatch,
    }
}
