//! What codes come to.

use crate::lines::{fault_text, packet_text, refused_text};
use pd_device::Text;
use pd_packet::{Packet, PacketFault};

/// The most bytes of a text.
pub const WIDTH: usize = 256;

/// What the codes that a user gives come to.
#[derive(Drop)]
pub enum Decoded {
    /// They spell this packet.
    Packet(Packet),
    /// They spell none, and this is the first fault.
    Fault(PacketFault),
    /// No codes are given.
    Refused,
}

impl Decoded {
    ghost use Rattle.std.specs.Prelude.{◌≡◌};
    ghost use Rattle.pd_decode.specs.Decoding.{decoded_text, status_of};

    /// The lines that are printed: a packet's, or `fault` and the fault's number, or `input refused`.
    pub fn text(&self) -> Text<WIDTH>
        ensures { result ≡ decoded_text self.now }
    {
        match self {
            Decoded::Packet(packet) => packet_text(packet),
            Decoded::Fault(fault) => fault_text(fault),
            Decoded::Refused => refused_text(),
        }
    }

    /// The status that the program ends with: 0 for a packet, and else 1.
    pub fn status(&self) -> u8
        ensures { result ≡ status_of self.now }
    {
        match self {
            Decoded::Packet(_) => 0,
            Decoded::Fault(_) | Decoded::Refused => 1,
        }
    }
}
