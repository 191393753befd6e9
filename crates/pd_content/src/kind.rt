//! What an object is.

ghost use Rattle.std.specs.Prelude.{◌≡◌, ◌<◌, length};
ghost use Rattle.pd_content.specs.Kinds as kinds;
ghost use Rattle.pd_content.specs.Kinds.{kind_at, kind_name};

use pd_header::{Kind, header_kind};
use pd_objects::field;
use pd_packet::Packet;
use pd_symbols::Channel;

/// What an object of a message is (USB Power Delivery 3.0, sections 6.4.1, 6.4.2 and 6.4.4).
#[derive(Clone, Copy, Debug, PartialEq, Eq)]
pub enum ObjectKind {
    /// A supply of a source: of one voltage, by its power, of a range of voltages, or programmable.
    FixedSupply,
    BatterySupply,
    VariableSupply,
    ProgrammableSupply,
    /// A supply that a sink can use.
    SinkFixedSupply,
    SinkBatterySupply,
    SinkVariableSupply,
    /// A request for a fixed or variable supply, and one that can give power back.
    Request,
    GiveBackRequest,
    /// The header of a structured Vendor_Defined message, and of another one.
    StructuredHeader,
    VendorHeader,
    /// The ID Header of a port partner, and of a cable's plug.
    IdHeader,
    CableIdHeader,
    PassiveCable,
    /// Any other object.
    Other,
}

/// The object of a Source_Capabilities message.
fn source_supply(object: u32) -> ObjectKind
    ensures { result ≡ kinds.source_supply object }
{
    match (field(object, 31, 30), field(object, 29, 28)) {
        (0, _) => ObjectKind::FixedSupply,
        (1, _) => ObjectKind::BatterySupply,
        (2, _) => ObjectKind::VariableSupply,
        (_, 0) => ObjectKind::ProgrammableSupply,
        _ => ObjectKind::Other,
    }
}

/// The object of a Sink_Capabilities message.
fn sink_supply(object: u32) -> ObjectKind
    ensures { result ≡ kinds.sink_supply object }
{
    match field(object, 31, 30) {
        0 => ObjectKind::SinkFixedSupply,
        1 => ObjectKind::SinkBatterySupply,
        2 => ObjectKind::SinkVariableSupply,
        _ => ObjectKind::Other,
    }
}

/// The object of a Request, which is taken for that of a fixed or variable supply.
fn request(object: u32) -> ObjectKind
    ensures { result ≡ kinds.request object }
{
    if field(object, 27, 27) == 1 {
        ObjectKind::GiveBackRequest
    } else {
        ObjectKind::Request
    }
}

/// The first object of a Vendor_Defined message.
fn vendor_header(object: u32) -> ObjectKind
    ensures { result ≡ kinds.vendor_header object }
{
    if field(object, 15, 15) == 1 {
        ObjectKind::StructuredHeader
    } else {
        ObjectKind::VendorHeader
    }
}

/// Whether an object is the header of a Discover Identity ACK.
fn is_identity_ack(header: u32) -> bool
    ensures { result ≡ kinds.is_identity_ack header }
{
    field(header, 31, 16) == 0xFF00
        && field(header, 15, 15) == 1
        && field(header, 7, 6) == 1
        && field(header, 4, 0) == 1
}

/// An object of a Vendor_Defined message after the first.
fn identity(channel: Channel, objects: &[u32], index: usize) -> ObjectKind
    requires { index < length objects.now }
    ensures { result ≡ kinds.identity channel objects.now index }
{
    if !is_identity_ack(objects[0]) {
        return ObjectKind::Other;
    }
    match (channel, index) {
        (Channel::Sop, 1) => ObjectKind::IdHeader,
        (Channel::SopPrime, 1) => ObjectKind::CableIdHeader,
        (Channel::SopPrime, 4) if field(objects[1], 29, 27) == 3 => ObjectKind::PassiveCable,
        _ => ObjectKind::Other,
    }
}

/// What the object at this place, from 0, is.
pub fn kind_at(packet: &Packet, index: usize) -> ObjectKind
    requires { index < length packet.now.objects }
    ensures { result ≡ kind_at packet.now index }
{
    let objects = packet.objects();
    let object = objects[index];
    if field(u32::from(packet.header()), 15, 15) == 1 {
        return ObjectKind::Other;
    }
    match header_kind(packet.header()) {
        Kind::SourceCapabilities => source_supply(object),
        Kind::SinkCapabilities => sink_supply(object),
        Kind::Request => request(object),
        Kind::VendorDefined if index == 0 => vendor_header(object),
        Kind::VendorDefined => identity(packet.channel(), objects, index),
        _ => ObjectKind::Other,
    }
}

impl ObjectKind {
    /// The name that is shown.
    pub fn name(self) -> &'static str
        ensures { result.now ≡ kind_name self }
    {
        match self {
            ObjectKind::FixedSupply | ObjectKind::SinkFixedSupply => "fixed",
            ObjectKind::BatterySupply | ObjectKind::SinkBatterySupply => "battery",
            ObjectKind::VariableSupply | ObjectKind::SinkVariableSupply => "variable",
            ObjectKind::ProgrammableSupply => "programmable",
            ObjectKind::Request | ObjectKind::GiveBackRequest => "request",
            ObjectKind::StructuredHeader => "structured",
            ObjectKind::VendorHeader => "unstructured",
            ObjectKind::IdHeader => "id_header",
            ObjectKind::CableIdHeader => "cable_id_header",
            ObjectKind::PassiveCable => "passive_cable",
            ObjectKind::Other => "object",
        }
    }
}
