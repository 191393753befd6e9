//! What happens on the line: the rules N1 to N5, in the order of `specs/Lines.antt`. `t` is the time of the step, in microseconds.

ghost use Rattle.std.specs.Prelude.{◌≡◌, ℕ, ◌+◌, ◌<◌, ◌≤◌, length};
ghost use Rattle.pd_line.specs.Lines.{receiver, channel_for, rest_of_time_out, fate_of};

use crate::disturbances::Disturbance;
use crate::notes::{Fault, Start};
use crate::port_parts::{Line, Waiting};
use crate::port_step::PortStep;
use crate::told::sent_as;
use pd_header::{Kind, Side, header_id, header_kind};
use pd_packet::{Fate, Packet, duration, hard_reset_duration, packet_duration, reaches};
use pd_protocol::{LayerAct, Message, good_crc_for};
use pd_source::Sent;
use pd_symbols::Channel;
use pd_timers::LAST_TIME;
use std::mem;

/// How long the receiver waits before its GoodCRC, in microseconds: less than tTransmit, the most that the standard gives it.
const PAUSE: u64 = 100;

/// tReceive, how long the sender's CRCReceiveTimer runs from a message's end, in microseconds (section 6.6.1).
const TIME_OUT: u64 = 1_000;

/// How many symbols a GoodCRC has: ordered set, header, check and EOP.
const GOOD_CRC_SYMBOLS: u32 = 17;

/// The revision bits of packets on SOP': 10, USB Power Delivery 3.0.
const REVISION_3: u8 = 2;

/// What is left of the CRCReceiveTimer where a GoodCRC has ended, in microseconds.
#[tactic(auto, unfolding(pd_packet::specs::Timing::duration_of))]
fn rest_of_time_out() -> u64
    ensures value { result ≡ rest_of_time_out }
    ensures bounded { result < 1000 }
{
    TIME_OUT - (PAUSE + u64::from(duration(GOOD_CRC_SYMBOLS)))
}

/// Which channel a side speaks on: SOP, or SOP' between source and plug.
fn channel_for(side: Side, kind: u8) -> Channel
    ensures { result ≡ channel_for side kind }
{
    match side {
        Side::Source if kind != Kind::VendorDefined.number() => Channel::Sop,
        Side::Source | Side::Plug => Channel::SopPrime,
        Side::Sink => Channel::Sop,
    }
}

/// Who is spoken to by a side's packet on a channel.
fn receiver_of(side: Side, channel: Channel) -> Side
    ensures { result ≡ receiver side channel }
{
    match (side, channel) {
        (Side::Source, Channel::Sop) => Side::Sink,
        (Side::Source, Channel::SopPrime) => Side::Plug,
        (Side::Sink | Side::Plug, _) => Side::Source,
    }
}

/// A side's packet that starts, and what becomes of it.
fn start_of(side: Side, packet: &Packet, fate: &Fate) -> Start
    ensures { result ≡ Start.Packet side packet.now fate.now }
{
    Start::Packet {
        side,
        packet: packet.copy(),
        fate: *fate,
    }
}

impl Disturbance {
    /// What it makes of a packet.
    fn fate(self) -> Fate
        ensures { result ≡ fate_of self }
    {
        match self {
            Disturbance::Lost => Fate::Lost,
            Disturbance::Damaged(damage) => Fate::Damaged(damage),
        }
    }
}

impl PortStep {
    ghost use Rattle.pd_packet.specs.Hearing.{heard};
    ghost use Rattle.pd_line.specs.Noise.{most, most_besides};
    ghost use Rattle.pd_line.specs.PortStep.{wait};
    ghost use Rattle.pd_line.specs.Lines.{hears, taken, revision_on, packet_starts, good_crc_starts, message_ends, goes_up};
    ghost use Rattle.pd_line.specs.Lines.{good_crc_ends, times_out, hard_reset_ends, line_ends, line_starts, acknowledged};
    ghost use Rattle.pd_line.specs.Lines.{waiting_on, message_starts, hard_reset_starts, side_starts};

    /// Whether a side hears: its engine is neither off nor disabled.
    #[tactic(auto, unfolding(crate::specs::Lines::hears))]
    pub(crate) fn hears(&self, side: Side) -> bool
        ensures { result ≡ hears side self.now }
    {
        match side {
            Side::Source => self.port.source.hears(),
            Side::Sink => self.port.sink.hears(),
            Side::Plug => self.port.plug.hears(),
        }
    }

    /// The revision bits of what a side sends on a channel.
    fn revision_on(&self, side: Side, channel: Channel) -> u8
        ensures value { result ≡ revision_on side channel self.now }
        ensures fits { result < 4 }
    {
        match (side, channel) {
            (Side::Source, Channel::Sop) => self.port.source.revision(),
            (Side::Source, Channel::SopPrime) => REVISION_3,
            (Side::Sink, _) => self.port.sink.revision(),
            (Side::Plug, _) => REVISION_3,
        }
    }

    /// What becomes of the packet that starts next.
    #[tactic(auto, unfolding(crate::specs::Lines::taken))]
    fn take_fate(&mut self) -> Fate
        ensures after { self.new ≡ (taken self.old).0 }
        ensures fate { result ≡ (taken self.old).1 }
        ensures faults { self.new.faults ≡ self.old.faults }
    {
        match self.port.disturbances.take_first() {
            None => Fate::Undisturbed,
            Some(disturbance) => disturbance.fate(),
        }
    }

    /// A message's packet starts, from its layer or again (N4).
    #[tactic(auto, unfolding(crate::specs::Lines::packet_starts, crate::specs::Lines::with_line, crate::specs::Lines::started))]
    fn packet_starts(&mut self, side: Side, packet: Packet, t: u64)
        requires { t ≤ LAST_TIME }
        ensures after { self.new ≡ packet_starts side packet t self.old }
        ensures faults { self.new.faults ≡ self.old.faults }
    {
        let fate = self.take_fate();
        let end = t + u64::from(packet_duration(&packet));
        self.start = Some(start_of(side, &packet, &fate));
        self.port.line = Line::Message {
            side,
            packet,
            fate,
            end,
        };
    }

    /// Takes what waits on a side.
    #[tactic(auto, unfolding(crate::specs::PortStep::wait))]
    fn take_waiting(&mut self, side: Side) -> Waiting
        ensures value { result ≡ waiting_on side self.old }
        ensures after { self.new ≡ wait side Waiting.Nothing self.old }
        ensures faults { self.new.faults ≡ self.old.faults }
    {
        match side {
            Side::Source => mem::replace(&mut self.port.source_waits, Waiting::Nothing),
            Side::Sink => mem::replace(&mut self.port.sink_waits, Waiting::Nothing),
            Side::Plug => mem::replace(&mut self.port.plug_waits, Waiting::Nothing),
        }
    }

    /// A message goes to its layer, which gives it a MessageID, and starts.
    #[tactic(auto, unfolding(crate::specs::Lines::message_starts))]
    fn message_starts(&mut self, side: Side, message: Message, t: u64)
        requires { t ≤ LAST_TIME }
        ensures after { self.new ≡ message_starts side message t self.old }
        ensures faults { self.new.faults ≡ self.old.faults }
    {
        let channel = channel_for(side, message.kind());
        let revision = self.revision_on(side, channel);
        match self.submit_on(side, channel, message, revision) {
            Ok(packet) => self.packet_starts(side, packet, t),
            Err(message) => self.wait(side, Waiting::Message(message)),
        }
    }

    /// A side's Hard Reset signalling starts. It goes to no layer, and takes no disturbance.
    #[tactic(auto, unfolding(crate::specs::Lines::hard_reset_starts, crate::specs::Lines::with_line, crate::specs::Lines::started))]
    fn hard_reset_starts(&mut self, side: Side, t: u64)
        requires { t ≤ LAST_TIME }
        ensures after { self.new ≡ hard_reset_starts side t self.old }
        ensures faults { self.new.faults ≡ self.old.faults }
    {
        let end = t + u64::from(hard_reset_duration());
        self.start = Some(Start::HardReset { side });
        self.port.line = Line::HardReset { side, end };
    }

    /// What waits on a side starts.
    #[tactic(auto, unfolding(crate::specs::Lines::side_starts))]
    fn side_starts(&mut self, side: Side, t: u64)
        requires { t ≤ LAST_TIME }
        ensures after { self.new ≡ side_starts side t self.old }
        ensures faults { self.new.faults ≡ self.old.faults }
    {
        match self.take_waiting(side) {
            Waiting::Nothing => {}
            Waiting::Message(message) => self.message_starts(side, message, t),
            Waiting::HardReset => self.hard_reset_starts(side, t),
        }
    }

    /// N1: where the line is idle, the first that waits starts, in the order source, sink, plug.
    #[tactic(auto, unfolding(crate::specs::Lines::line_starts))]
    pub fn line_starts(&mut self, t: u64)
        requires { t ≤ LAST_TIME }
        ensures after { self.new ≡ line_starts t self.old }
        ensures faults { self.new.faults ≡ self.old.faults }
    {
        if !matches!(self.port.line, Line::Idle) {
            return;
        }
        if !matches!(self.port.source_waits, Waiting::Nothing) {
            self.side_starts(Side::Source, t);
        } else if !matches!(self.port.sink_waits, Waiting::Nothing) {
            self.side_starts(Side::Sink, t);
        } else if !matches!(self.port.plug_waits, Waiting::Nothing) {
            self.side_starts(Side::Plug, t);
        }
    }

    /// N2: a message has ended. Undisturbed and heard, it is followed by its GoodCRC.
    #[tactic(auto, unfolding(crate::specs::Lines::message_ends, crate::specs::Lines::with_line))]
    fn message_ends(&mut self, side: Side, packet: Packet, fate: Fate, t: u64)
        requires { t ≤ LAST_TIME }
        ensures after { self.new ≡ message_ends side packet fate t self.old }
        ensures faults { self.new.faults ≡ self.old.faults }
    {
        let hears = self.hears(receiver_of(side, packet.channel()));
        let arrives = reaches(&packet, fate);
        self.port.line = if hears && arrives {
            Line::Pause {
                side,
                packet,
                end: t + PAUSE,
            }
        } else {
            Line::NoAnswer {
                side,
                packet,
                end: t + TIME_OUT,
            }
        };
    }

    /// N2: the GoodCRC for a side's message starts.
    #[tactic(auto, unfolding(crate::specs::Lines::good_crc_starts, crate::specs::Lines::with_line, crate::specs::Lines::started))]
    fn good_crc_starts(&mut self, side: Side, packet: Packet, t: u64)
        requires { t ≤ LAST_TIME }
        ensures after { self.new ≡ good_crc_starts side packet t self.old }
        ensures faults { self.new.faults ≡ self.old.faults }
    {
        let hearer = receiver_of(side, packet.channel());
        let revision = self.revision_on(hearer, packet.channel());
        let answer = good_crc_for(hearer, &packet, revision);
        let fate = self.take_fate();
        let end = t + u64::from(packet_duration(&answer));
        self.start = Some(start_of(hearer, &answer, &fate));
        self.port.line = Line::GoodCrc {
            side,
            packet,
            answer,
            fate,
            end,
        };
    }

    /// The receiver's layer takes a message, which goes up to its engine where it is no repeat.
    #[tactic(auto, unfolding(crate::specs::Lines::goes_up))]
    fn goes_up(&mut self, side: Side, packet: &Packet, t: u64)
        requires time { t ≤ LAST_TIME }
        requires room { length self.old.faults.items + most side ≤ 4 }
        ensures after { self.new ≡ goes_up side packet.now t self.old }
        ensures faults { length self.new.faults.items ≤ length self.old.faults.items + most side }
    {
        if let LayerAct::Up = self.received_on(side, packet.channel(), packet.header()) {
            self.tell_message(side, packet, t);
        }
    }

    /// A GoodCRC has ended, for the sender: undisturbed, it goes to its layer, which compares the MessageID.
    #[tactic(auto, unfolding(crate::specs::Lines::with_line))]
    fn acknowledged(&mut self, side: Side, packet: &Packet, answer: &Packet, fate: Fate, t: u64)
        requires time { t ≤ LAST_TIME }
        requires room { length self.old.faults.items + most side ≤ 4 }
        ensures after { self.new ≡ acknowledged side packet.now t (heard answer.now fate) self.old }
        ensures faults { length self.new.faults.items ≤ length self.old.faults.items + most side }
    {
        if !reaches(answer, fate) {
            self.port.line = Line::NoAnswer {
                side,
                packet: packet.copy(),
                end: t + rest_of_time_out(),
            };
            return;
        }
        if let LayerAct::Sent = self.good_crc_on(
            side,
            packet.channel(),
            header_id(answer.header()),
        ) {
            self.tell_sent(side, sent_as(packet), t);
        }
    }

    /// N3: a GoodCRC has ended, for sender and receiver.
    #[tactic(auto, unfolding(crate::specs::Lines::good_crc_ends))]
    fn good_crc_ends(&mut self, side: Side, packet: &Packet, answer: &Packet, fate: Fate, t: u64)
        requires time { t ≤ LAST_TIME }
        requires room { length self.old.faults.items ≡ 0 }
        ensures after { self.new ≡ good_crc_ends side packet.now answer.now fate t self.old }
        ensures faults { length self.new.faults.items ≤ length self.old.faults.items + 4 }
    {
        self.acknowledged(side, packet, answer, fate, t);
        self.goes_up(receiver_of(side, packet.channel()), packet, t);
    }

    /// N4: the CRCReceiveTimer has ended, and no GoodCRC has come. The layer sends again, up to nRetryCount times.
    #[tactic(auto, unfolding(crate::specs::Lines::times_out))]
    fn times_out(&mut self, side: Side, packet: &Packet, t: u64)
        requires time { t ≤ LAST_TIME }
        requires room { length self.old.faults.items ≡ 0 }
        ensures after { self.new ≡ times_out side packet.now t self.old }
        ensures faults { length self.new.faults.items ≤ length self.old.faults.items + 4 }
    {
        match self.timed_out_on(side, packet.channel()) {
            LayerAct::Retry(again) => self.packet_starts(side, again, t),
            LayerAct::Failed => {
                self.note(Fault::NoGoodCrc {
                    side,
                    kind: header_kind(packet.header()),
                });
                self.tell_failed(side, t);
            }
            _ => {}
        }
    }

    /// What is on the line has ended: N2 to N5.
    #[tactic(auto, unfolding(crate::specs::Lines::line_ends, crate::specs::Lines::with_line))]
    pub fn line_ends(&mut self, t: u64)
        requires time { t ≤ LAST_TIME }
        requires room { length self.old.faults.items ≡ 0 }
        ensures after { self.new ≡ line_ends t self.old }
        ensures faults { length self.new.faults.items ≤ length self.old.faults.items + 4 }
    {
        match mem::replace(&mut self.port.line, Line::Idle) {
            Line::Idle => {}
            Line::Message {
                side,
                packet,
                fate,
                ..
            } => self.message_ends(side, packet, fate, t),
            Line::Pause { side, packet, .. } => self.good_crc_starts(side, packet, t),
            Line::GoodCrc {
                side,
                packet,
                answer,
                fate,
                ..
            } => self.good_crc_ends(side, &packet, &answer, fate, t),
            Line::NoAnswer { side, packet, .. } => self.times_out(side, &packet, t),
            Line::HardReset { side, .. } => self.hard_reset_ends(side, t),
        }
    }
}
