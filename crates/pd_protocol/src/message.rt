//! Messages, and the packets that carry them.

ghost use Rattle.std.specs.Prelude.{◌≡◌, ◌↔◌, ◌<◌, ◌≤◌, ◌^◌, IsTrue, length};
ghost use Rattle.pd_header.specs.Kinds.{number_of};
ghost use Rattle.pd_protocol.specs.Messages.{IsMessage, MessageData, acknowledges, control, data_role_of, header_of, message_of};
ghost use Rattle.pd_protocol.specs.Messages.{packet_of, role_of};

use arrayvec::ArrayVec;
use pd_header::{Header, Kind, Side, header_id};
use pd_packet::Packet;
use pd_symbols::{Channel, ShortList};
use std::marker::Model;

/// What a side sends: its type, 0 to 31, and at most seven objects.
#[derive(Clone, Copy, Debug)]
pub struct Message {
    kind: u8,
    objects: ShortList,
}

impl Model for Message {
    ghost Value = { MessageData };

    ghost view = { λ m. record { kind = m.kind; objects = m.objects } };

    ghost invariant = { λ m. m.kind < 2 ^ 5 };

    ghost inverse = { λ v. record { kind = v.kind; objects = v.objects } };
}

impl Message {
    /// A message of this type.
    pub fn new(kind: u8, objects: ArrayVec<u32, 7>) -> Message
        requires { kind < 2 ^ 5 }
        ensures { result ≡ record { kind = kind; objects = objects.items } }
    {
        Message {
            kind,
            objects: ShortList::of(objects.as_slice()),
        }
    }

    /// The message of this kind with these objects.
    pub fn of(kind: Kind, objects: ArrayVec<u32, 7>) -> Message
        requires { number_of kind < 2 ^ 5 }
        ensures { result ≡ message_of kind objects.items }
    {
        Message::new(kind.number(), objects)
    }

    /// The control message of this kind, which has no objects.
    pub fn control(kind: Kind) -> Message
        requires { number_of kind < 2 ^ 5 }
        ensures { result ≡ control kind }
    {
        Message::of(kind, ArrayVec::new())
    }

    /// Its type.
    pub fn kind(&self) -> u8
        ensures value { result ≡ self.now.kind }
        ensures fits { result < 2 ^ 5 }
    {
        self.kind
    }

    /// Its objects.
    pub fn objects(&self) -> &[u32]
        ensures objects { result.now ≡ self.now.objects }
        ensures is_message { IsMessage self.now }
    {
        // Read for the proof alone, which then knows its range.
        let _kind = self.kind;
        let objects = self.objects.as_slice();
        objects
    }

    /// Whether both are of the same type with the same objects.
    pub fn same(&self, other: &Message) -> bool
        ensures { IsTrue result ↔ (self.now ≡ other.now) }
    {
        self.objects == other.objects && self.kind == other.kind
    }

    /// A copy of the message, which allocates nothing.
    pub fn copy(&self) -> Message
        ensures { result ≡ self.now }
    {
        *self
    }

    /// The packet that carries it.
    #[tactic(auto, using(crate::proofs::Headers::count_is), unfolding(crate::specs::Messages::packet_of))]
    pub fn into_packet(self, side: Side, channel: Channel, revision: u8, id: u8) -> Packet
        requires revision { revision < 2 ^ 2 }
        requires id { id < 2 ^ 3 }
        ensures { result ≡ packet_of side channel revision id self }
    {
        let kind = self.kind;
        let count = self.objects.as_slice().len() as u8;
        let header = header_word(side, channel, revision, id, kind, count);
        Packet::of(channel, header, self.objects)
    }
}

/// Bit 8 of a header: on SOP whether the source speaks, and on SOP' whether the plug does.
fn role_of(channel: Channel, side: Side) -> bool
    ensures { result ≡ role_of channel side }
{
    match (channel, side) {
        (Channel::Sop, Side::Source) => true,
        (Channel::SopPrime, Side::Plug) => true,
        _ => false,
    }
}

/// Bit 5 of a header: on SOP whether the source speaks.
fn data_role_of(channel: Channel, side: Side) -> bool
    ensures { result ≡ data_role_of channel side }
{
    match (channel, side) {
        (Channel::Sop, Side::Source) => true,
        _ => false,
    }
}

#[tactic(auto, unfolding(crate::specs::Messages::header_of))]
fn header_word(side: Side, channel: Channel, revision: u8, id: u8, kind: u8, count: u8) -> u16
    requires revision { revision < 2 ^ 2 }
    requires id { id < 2 ^ 3 }
    requires kind { kind < 2 ^ 5 }
    requires count { count < 2 ^ 3 }
    ensures { result ≡ header_of side channel revision id kind count }
{
    Header::new(kind, count, id)
        .with_revision(revision)
        .with_roles(role_of(channel, side), data_role_of(channel, side))
        .pack()
}

/// The GoodCRC with which a side that heard a packet acknowledges it, with these revision bits.
#[tactic(auto, unfolding(crate::specs::Messages::acknowledges))]
pub fn good_crc_for(hearer: Side, packet: &Packet, revision: u8) -> Packet
    requires { revision < 2 ^ 2 }
    ensures { result ≡ acknowledges hearer revision packet.now }
{
    Message::control(Kind::GoodCrc).into_packet(
        hearer,
        packet.channel(),
        revision,
        header_id(packet.header()),
    )
}
