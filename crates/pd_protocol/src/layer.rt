//! The protocol layer of one side on one channel.

ghost use Rattle.std.specs.Prelude.{◌≡◌, ◌↔◌, ◌<◌, ◌^◌, IsTrue, None};
ghost use Rattle.pd_protocol.specs.Layer.{fresh, reset, closed, submit, good_crc, timed_out, received, tries_of};
ghost use Rattle.pd_protocol.specs.LayerRecord.{blank};

use crate::message::Message;
use pd_header::{Kind, Side, header_id, header_kind, header_revision};
use pd_packet::Packet;
use pd_symbols::{Channel, ShortList};
use std::marker::Model;

/// What a layer makes of a call.
#[derive(Debug, Drop)]
pub enum LayerAct {
    /// The outstanding message has its GoodCRC.
    Sent,
    /// The same packet is to go out again.
    Retry(Packet),
    /// The outstanding message was sent as often as it may be.
    Failed,
    /// Nothing is to be done.
    Idle,
    /// What came goes up to the engine.
    Up,
    /// What came was there before.
    Repeat,
}

/// The layer of one side on one channel: the next ID (the standard's MessageIDCounter), the ID that came last (its stored
/// MessageID), and the packet that waits for its GoodCRC with its tries (one more than its RetryCounter, up to nRetryCount
/// retries) (USB Power Delivery 3.0, sections 6.7 and 6.8.1). Where nothing is outstanding it had no tries, and the packet is a
/// blank one: that is shorter than an `Option`.
#[derive(Clone, Copy, Debug)]
pub struct Layer {
    side: Side,
    channel: Channel,
    next_id: u8,
    stored_id: Option<u8>,
    tries: u8,
    packet: Packet,
}

impl Model for Layer {
    ghost use Rattle.std.specs.Prelude.{◌≡◌, ◌<◌, ◌^◌};
    ghost use Rattle.pd_protocol.specs.LayerRecord.{LayerRecord, outstanding_of, blank, tries_in, packet_in};
    ghost use Rattle.pd_protocol.specs.LayerRecord.{tries_are_kept, packet_is_kept};

    ghost Value = { LayerRecord };

    ghost view = { λ l. record {
      side = l.side;
      channel = l.channel;
      next_id = l.next_id;
      stored_id = l.stored_id;
      outstanding = outstanding_of l.tries l.packet;
    } };

    ghost invariant = { λ l. (l.next_id < 2 ^ 3) × (l.tries ≡ 0 → l.packet ≡ blank) };

    ghost inverse = { λ v. record {
      side = v.side;
      channel = v.channel;
      next_id = v.next_id;
      stored_id = v.stored_id;
      tries = tries_in v.outstanding;
      packet = packet_in v.outstanding;
    } };

    ghost inverse_ok = { λ l h i. record {
      side = l.side;
      channel = l.channel;
      next_id = l.next_id;
      stored_id = l.stored_id;
      tries = tries_are_kept l.tries l.packet i;
      packet = packet_is_kept l.tries l.packet h.1 i;
    } };
}

/// How often a packet with this header is sent at most: once and nRetryCount times again, which is 3 in revision 2.0 and 2
/// in revision 3.0.
#[tactic(auto, unfolding(crate::specs::Layer::tries_of))]
fn tries_of(header: u16) -> u8
    ensures { result ≡ tries_of header }
{
    if header_revision(header) == 1 { 4 } else { 3 }
}

/// What stands in the packet's place where none is outstanding.
fn blank() -> Packet
    ensures { result ≡ blank }
{
    Packet::of(Channel::Sop, 0, ShortList::new())
}

impl Layer {
    /// A layer as after a reset.
    #[tactic(auto, unfolding(crate::specs::Layer::fresh))]
    pub fn new(side: Side, channel: Channel) -> Layer
        ensures { result ≡ fresh side channel }
    {
        Layer {
            side,
            channel,
            next_id: 0,
            stored_id: None,
            tries: 0,
            packet: blank(),
        }
    }

    /// Whether both are of the same side and channel, with the same counters and the same packet outstanding.
    pub fn same(&self, other: &Layer) -> bool
        ensures { IsTrue result ↔ (self.now ≡ other.now) }
    {
        self.side == other.side
            && self.channel == other.channel
            && self.next_id == other.next_id
            && self.stored_id == other.stored_id
            && self.same_outstanding(other)
    }

    /// Whether nothing is outstanding on both, or the same packet, sent as often.
    fn same_outstanding(&self, other: &Layer) -> bool
        ensures { IsTrue result ↔ (self.now.outstanding ≡ other.now.outstanding) }
    {
        self.tries == other.tries && self.packet.same(&other.packet)
    }

    /// A copy of the layer, which allocates nothing.
    pub fn copy(&self) -> Layer
        ensures { result ≡ self.now }
    {
        *self
    }

    /// Nothing is outstanding any more.
    fn forget(&mut self)
        ensures { self.new ≡ record self.old { outstanding = None } }
    {
        self.tries = 0;
        self.packet = blank();
    }

    /// The outstanding message is done with, and the next ID rises.
    fn close(&mut self)
        ensures { self.new ≡ closed self.old }
    {
        self.forget();
        self.next_id = (self.next_id + 1) % 8;
    }

    /// Forgets the IDs and the outstanding message.
    #[tactic(auto, unfolding(crate::specs::Layer::reset, crate::specs::Layer::fresh))]
    pub fn reset(&mut self)
        ensures { self.new ≡ reset self.old }
    {
        self.forget();
        self.next_id = 0;
        self.stored_id = None;
    }

    /// The packet for a message, with these revision bits.
    ///
    /// # Errors
    ///
    /// The message where one is outstanding; the layer is as before.
    #[tactic(auto, unfolding(crate::specs::Layer::submit))]
    pub fn submit(&mut self, message: Message, revision: u8) -> Result<Packet, Message>
        requires { revision < 2 ^ 2 }
        ensures after { self.new ≡ (submit self.old revision message).0 }
        ensures answer { result ≡ (submit self.old revision message).1 }
    {
        if self.tries > 0 {
            return Err(message);
        }
        let packet = message.into_packet(self.side, self.channel, revision, self.next_id);
        self.tries = 1;
        self.packet = packet.copy();
        Ok(packet)
    }

    /// What comes of a GoodCRC with this ID: Sent, or Idle where no message with that ID is outstanding.
    #[tactic(auto, unfolding(crate::specs::Layer::good_crc))]
    pub fn good_crc(&mut self, id: u8) -> LayerAct
        ensures after { self.new ≡ (good_crc self.old id).0 }
        ensures answer { result ≡ (good_crc self.old id).1 }
    {
        if self.tries == 0 || header_id(self.packet.header()) != id {
            return LayerAct::Idle;
        }
        self.close();
        LayerAct::Sent
    }

    /// What comes of a GoodCRC that did not come before the CRCReceiveTimer (tReceive) ran out: Retry, Failed, or Idle where no
    /// message is outstanding.
    #[tactic(auto, unfolding(crate::specs::Layer::timed_out))]
    pub fn timed_out(&mut self) -> LayerAct
        ensures after { self.new ≡ (timed_out self.old).0 }
        ensures answer { result ≡ (timed_out self.old).1 }
    {
        if self.tries == 0 {
            return LayerAct::Idle;
        }
        if self.tries < tries_of(self.packet.header()) {
            self.tries += 1;
            return LayerAct::Retry(self.packet.copy());
        }
        self.close();
        LayerAct::Failed
    }

    /// What comes of a message with this header: Up or Repeat.
    #[tactic(auto, unfolding(crate::specs::Layer::received, crate::specs::Layer::reset))]
    pub fn received(&mut self, header: u16) -> LayerAct
        ensures after { self.new ≡ (received self.old header).0 }
        ensures answer { result ≡ (received self.old header).1 }
    {
        let id = header_id(header);
        if header_kind(header).is_soft_reset() {
            self.reset();
            self.stored_id = Some(id);
            return LayerAct::Up;
        }
        let known = self.stored_id == Some(id);
        self.stored_id = Some(id);
        if known {
            LayerAct::Repeat
        } else {
            LayerAct::Up
        }
    }
}
