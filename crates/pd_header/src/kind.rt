//! Kinds of messages, their numbers and their names.

ghost use Rattle.std.specs.Prelude.{◌≡◌};
ghost use Rattle.pd_header.specs.Kinds.{is_soft_reset, kind_of, name_of, number_of};

use arrayvec::ArrayString;
use itoa::Buffer;

/// What a message is: its type in the header, read beside the count of its objects (USB Power Delivery 3.0, sections
/// 6.3 and 6.4). Control messages have no objects, and data messages have one at the least.
///
/// `number`, `name` and `kind_of` are the code's table of the messages. What a message becomes where it is heard, and
/// what sends it, stands in pd_line, `told.rt`.
#[derive(Clone, Copy, Debug, PartialEq, Eq)]
pub enum Kind {
    /// GoodCRC, a control message: whoever heard a message answers it.
    GoodCrc,
    /// Accept, a control message: of the source to a Request, and of source and sink to a Soft_Reset.
    Accept,
    /// Reject, a control message: of the source to a Request.
    Reject,
    /// PS_RDY, a control message: the source's power is as agreed.
    PsRdy,
    /// Get_Source_Cap, a control message: the sink asks for Source_Capabilities.
    GetSourceCap,
    /// Get_Sink_Cap, a control message: the source asks for Sink_Capabilities.
    GetSinkCap,
    /// Wait, a control message: of the source to a Request.
    Wait,
    /// Soft_Reset, a control message of the source and the sink.
    SoftReset,
    /// Not_Supported, a control message, which no side of the bench sends.
    NotSupported,
    /// Source_Capabilities, a data message: the source's offer.
    SourceCapabilities,
    /// Request, a data message: the sink asks for one supply of the offer.
    Request,
    /// Sink_Capabilities, a data message: the sink answers Get_Sink_Cap.
    SinkCapabilities,
    /// Vendor_Defined, a data message: the source asks the plug who it is, and the plug answers.
    VendorDefined,
    /// A message of another type.
    Other(u8),
}

/// The kind of a message of this type, the number in bits 4 to 0 of its header, with so many objects.
#[tactic(auto, unfolding(crate::specs::Kinds::kind_of))]
pub fn kind_of(number: u8, count: u8) -> Kind
    ensures { result ≡ kind_of number count }
{
    match (count, number) {
        (0, 1) => Kind::GoodCrc,
        (0, 3) => Kind::Accept,
        (0, 4) => Kind::Reject,
        (0, 6) => Kind::PsRdy,
        (0, 7) => Kind::GetSourceCap,
        (0, 8) => Kind::GetSinkCap,
        (0, 12) => Kind::Wait,
        (0, 13) => Kind::SoftReset,
        (0, 16) => Kind::NotSupported,
        (1.., 1) => Kind::SourceCapabilities,
        (1.., 2) => Kind::Request,
        (1.., 4) => Kind::SinkCapabilities,
        (1.., 15) => Kind::VendorDefined,
        _ => Kind::Other(number),
    }
}

impl Kind {
    /// The message's type: the number in bits 4 to 0 of its header.
    pub fn number(&self) -> u8
        ensures { result ≡ number_of self.now }
    {
        match self {
            Kind::GoodCrc => 1,
            Kind::Accept => 3,
            Kind::Reject => 4,
            Kind::PsRdy => 6,
            Kind::GetSourceCap => 7,
            Kind::GetSinkCap => 8,
            Kind::Wait => 12,
            Kind::SoftReset => 13,
            Kind::NotSupported => 16,
            Kind::SourceCapabilities => 1,
            Kind::Request => 2,
            Kind::SinkCapabilities => 4,
            Kind::VendorDefined => 15,
            Kind::Other(number) => *number,
        }
    }

    /// Whether it is a Soft_Reset.
    pub fn is_soft_reset(&self) -> bool
        ensures { result ≡ is_soft_reset self.now }
    {
        matches!(self, Kind::SoftReset)
    }

    /// The name that is shown: the standard's, and for another type `Type` and the type in decimal.
    pub fn name(&self) -> ArrayString<20>
        ensures { result.bytes ≡ name_of self.now }
    {
        let mut name = ArrayString::<20>::new();
        match self {
            Kind::GoodCrc => name.push_str("GoodCRC"),
            Kind::Accept => name.push_str("Accept"),
            Kind::Reject => name.push_str("Reject"),
            Kind::PsRdy => name.push_str("PS_RDY"),
            Kind::GetSourceCap => name.push_str("Get_Source_Cap"),
            Kind::GetSinkCap => name.push_str("Get_Sink_Cap"),
            Kind::Wait => name.push_str("Wait"),
            Kind::SoftReset => name.push_str("Soft_Reset"),
            Kind::NotSupported => name.push_str("Not_Supported"),
            Kind::SourceCapabilities => name.push_str("Source_Capabilities"),
            Kind::Request => name.push_str("Request"),
            Kind::SinkCapabilities => name.push_str("Sink_Capabilities"),
            Kind::VendorDefined => name.push_str("Vendor_Defined"),
            Kind::Other(number) => {
                name.push_str("Type");
                name.push_str(Buffer::new().format(*number));
            }
        }
        name
    }
}
