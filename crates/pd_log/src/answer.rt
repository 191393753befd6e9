//! What is said of a line.

use crate::mark::Mark;
use crate::sets::PacketSet;
use pd_packet::{Packet, PacketFault};

/// A packet, and the ordered set that it begins with. One of the far plug or of debugging has the channel of the near plug, by which its
/// header is read.
#[derive(Clone, Copy, Debug, PartialEq, Eq)]
pub struct LogPacket {
    pub set: PacketSet,
    pub packet: Packet,
}

/// What a line of a log says.
#[derive(Clone, Copy, Debug, PartialEq, Eq)]
pub enum Answer {
    /// It is empty, a comment, the heading of a show or of a table, or a log's line on something else; or it gives an object of a packet
    /// that is told whole at its last object.
    Nothing,
    /// Its codes spell this packet, or its header and its objects are those of this packet.
    Packet(LogPacket, Mark),
    /// It gives the last object of this packet, and tells its supplies in a kernel's words: the bits that these leave out are 0.
    Supplies(LogPacket),
    /// Its bytes are those of this packet, low byte first.
    Bytes(LogPacket),
    /// Its header and its objects are those of the first packet; its bytes, low byte first, those of the second.
    Either(LogPacket, LogPacket),
    /// Its codes spell none: the first fault, and at which of the codes it shows, from 1.
    Fault {
        fault: PacketFault,
        at: usize,
        mark: Mark,
    },
    /// Its codes are the four of a Hard Reset, or it names one.
    HardReset(Mark),
    /// Its codes are the four of a reset of the cable's plugs, or it names one.
    CableReset(Mark),
    /// It gives a header that tells of objects, and none of them.
    Header(PacketSet, u16),
    /// It gives a header and so many objects, and the header tells another count.
    Miscounted(PacketSet, u16, usize),
    /// It says that the packet before it is damaged.
    Spoiled,
    /// It gives neither codes, nor a header, nor a packet as bytes.
    Unknown,
}
