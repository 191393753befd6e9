//! A step under way, and what the engines' acts do to a port. `t` is its time, in microseconds.

ghost use Rattle.std.specs.Prelude.{◌≡◌, ℕ, ◌<◌, ◌≤◌, length};

use crate::notes::{Fault, Start};
use crate::port_parts::{PortParts, Waiting};
use crate::told::{
    plug_hears_as, plug_message, sink_fault, sink_hears_as, sink_message, source_fault,
    source_hears_as, source_message,
};
use arrayvec::ArrayVec;
use pd_header::Side;
use pd_identity::Cable;
use pd_objects::Answer;
use pd_packet::Packet;
use pd_plug::{Act as PlugAct, Stimulus as PlugStimulus};
use pd_protocol::{LayerAct, Message};
use pd_setup::SinkSettings;
use pd_sink::{Act as SinkAct, Stimulus as SinkStimulus};
use pd_source::{Act as SourceAct, Sent, Stimulus as SourceStimulus};
use pd_symbols::Channel;
use pd_timers::{LAST_TIME, Timer};

/// A call of the layer of a side on a channel: the source has one on each channel, the sink on SOP, the plug on SOP'.
macro_rules! on_layer {
    ($step:expr, $side:expr, $channel:expr, $call:ident($($argument:expr),*)) => {
        match ($side, $channel) {
            (Side::Source, Channel::Sop) => $step.port.source_sop.$call($($argument),*),
            (Side::Source, Channel::SopPrime) => $step.port.source_sop_prime.$call($($argument),*),
            (Side::Sink, _) => $step.port.sink_sop.$call($($argument),*),
            (Side::Plug, _) => $step.port.plug_sop_prime.$call($($argument),*),
        }
    };
}

/// A step under way: the port, the answer of the shared budget until the source has used it, the faults so far, at most
/// four, and what has started on the line.
#[derive(Drop)]
pub struct PortStep {
    pub port: PortParts,
    pub answer: Option<Answer>,
    pub faults: ArrayVec<Fault, 4>,
    pub start: Option<Start>,
}

impl PortStep {
    ghost use Rattle.std.specs.Prelude.{◌+◌};
    ghost use Rattle.pd_source.specs.Acts.{fault_count as source_faults, fault_count_of as source_faults_of};
    ghost use Rattle.pd_sink.specs.Acts.{fault_count as sink_faults, fault_count_of as sink_faults_of};
    ghost use Rattle.pd_line.specs.Noise.{most};
    ghost use Rattle.pd_line.specs.PortStep.{at_rest, wait, reset_on, sink_act, sink_acts, sink_steps, plug_act, plug_acts};
    ghost use Rattle.pd_line.specs.PortStep.{plug_steps, source_act, source_acts, source_steps, noted, submit_on, good_crc_on};
    ghost use Rattle.pd_line.specs.PortStep.{timed_out_on, received_on, tells_sent, tells_failed, tells_message, tells_reset};
    ghost use Rattle.pd_line.specs.PortStep.{tells_timer, tells_attach};

    /// A port on which no step is under way.
    pub fn at_rest(port: &PortParts) -> PortStep
        ensures { result ≡ at_rest port.now }
    {
        PortStep {
            port: *port,
            answer: None,
            faults: ArrayVec::new(),
            start: None,
        }
    }

    /// Notes a fault.
    #[tactic(auto, unfolding(crate::specs::PortStep::noted))]
    pub fn note(&mut self, fault: Fault)
        requires { length self.old.faults.items < 4 }
        ensures after { self.new ≡ noted fault self.old }
        ensures faults { length self.new.faults.items ≡ length self.old.faults.items + 1 }
    {
        self.faults.push(fault);
    }

    /// Puts what waits on a side, in the place of what waited there.
    #[tactic(auto, unfolding(crate::specs::PortStep::wait))]
    pub(crate) fn wait(&mut self, side: Side, waiting: Waiting)
        ensures after { self.new ≡ wait side waiting self.old }
        ensures faults { self.new.faults ≡ self.old.faults }
    {
        match side {
            Side::Source => self.port.source_waits = waiting,
            Side::Sink => self.port.sink_waits = waiting,
            Side::Plug => self.port.plug_waits = waiting,
        }
    }

    /// L2: submits a message to the layer of a side, which gives its packet, with the MessageIDCounter; or the message back
    /// where another is outstanding.
    #[tactic(auto, unfolding(crate::specs::PortStep::submit_on))]
    pub(crate) fn submit_on(
        &mut self,
        side: Side,
        channel: Channel,
        message: Message,
        revision: u8,
    ) -> Result<Packet, Message>
        requires { revision < 4 }
        ensures after { self.new ≡ (submit_on side channel message revision self.old).0 }
        ensures answer { result ≡ (submit_on side channel message revision self.old).1 }
        ensures faults { self.new.faults ≡ self.old.faults }
    {
        on_layer!(self, side, channel, submit(message, revision))
    }

    /// L3: hands a GoodCRC's MessageID to the layer of a side, which compares it with that of what is outstanding.
    #[tactic(auto, unfolding(crate::specs::PortStep::good_crc_on))]
    pub(crate) fn good_crc_on(&mut self, side: Side, channel: Channel, id: u8) -> LayerAct
        ensures after { self.new ≡ (good_crc_on side channel id self.old).0 }
        ensures answer { result ≡ (good_crc_on side channel id self.old).1 }
        ensures faults { self.new.faults ≡ self.old.faults }
    {
        on_layer!(self, side, channel, good_crc(id))
    }

    /// L4: tells the layer of a side that the CRCReceiveTimer has ended: the packet again, up to nRetryCount times.
    #[tactic(auto, unfolding(crate::specs::PortStep::timed_out_on))]
    pub(crate) fn timed_out_on(&mut self, side: Side, channel: Channel) -> LayerAct
        ensures after { self.new ≡ (timed_out_on side channel self.old).0 }
        ensures answer { result ≡ (timed_out_on side channel self.old).1 }
        ensures faults { self.new.faults ≡ self.old.faults }
    {
        on_layer!(self, side, channel, timed_out())
    }

    /// L5: hands a message's header to the layer of a side, which tells repeats by the MessageID that it stored.
    #[tactic(auto, unfolding(crate::specs::PortStep::received_on))]
    pub(crate) fn received_on(&mut self, side: Side, channel: Channel, header: u16) -> LayerAct
        ensures after { self.new ≡ (received_on side channel header self.old).0 }
        ensures answer { result ≡ (received_on side channel header self.old).1 }
        ensures faults { self.new.faults ≡ self.old.faults }
    {
        on_layer!(self, side, channel, received(header))
    }

    /// L1: resets the layer of a side.
    #[tactic(auto, unfolding(crate::specs::PortStep::reset_on))]
    pub(crate) fn reset_on(&mut self, side: Side, channel: Channel)
        ensures after { self.new ≡ reset_on side channel self.old }
        ensures faults { self.new.faults ≡ self.old.faults }
    {
        on_layer!(self, side, channel, reset())
    }

    /// An act of the sink.
    fn sink_act(&mut self, act: &SinkAct)
        requires { length self.old.faults.items + sink_faults_of act.now ≤ 4 }
        ensures after { self.new ≡ sink_act act.now self.old }
        ensures faults { length self.new.faults.items ≤ length self.old.faults.items + sink_faults_of act.now }
    {
        match act {
            SinkAct::DropWaiting => self.wait(Side::Sink, Waiting::Nothing),
            SinkAct::ResetLayer => self.reset_on(Side::Sink, Channel::Sop),
            SinkAct::Note(note) => self.note(sink_fault(*note)),
            SinkAct::Send(sending) => {
                self.wait(Side::Sink, Waiting::Message(sink_message(sending)));
            }
            SinkAct::SendHardReset => self.wait(Side::Sink, Waiting::HardReset),
        }
    }

    /// The acts of the sink, in order.
    fn sink_acts(&mut self, acts: &[SinkAct])
        requires { length self.old.faults.items + sink_faults acts.now ≤ 4 }
        ensures after { self.new ≡ sink_acts acts.now self.old }
        ensures faults { length self.new.faults.items ≤ length self.old.faults.items + sink_faults acts.now }
    {
        for act in acts {
            self.sink_act(act);
        }
    }

    /// Steps the sink's engine.
    #[tactic(auto, unfolding(crate::specs::PortStep::sink_steps))]
    pub fn sink_steps(&mut self, t: u64, stimulus: &SinkStimulus)
        requires time { t ≤ LAST_TIME }
        requires room { length self.old.faults.items + 1 ≤ 4 }
        ensures after { self.new ≡ sink_steps t stimulus.now self.old }
        ensures faults { length self.new.faults.items ≤ length self.old.faults.items + 1 }
    {
        let mut acts = ArrayVec::new();
        self.port.sink.step_into(t, stimulus, &mut acts);
        self.sink_acts(acts.as_slice());
    }

    /// An act of the plug.
    fn plug_act(&mut self, act: &PlugAct)
        ensures after { self.new ≡ plug_act act.now self.old }
        ensures faults { self.new.faults ≡ self.old.faults }
    {
        match act {
            PlugAct::DropWaiting => self.wait(Side::Plug, Waiting::Nothing),
            PlugAct::SendIdentity(objects) => {
                self.wait(Side::Plug, Waiting::Message(plug_message(objects)));
            }
        }
    }

    /// The acts of the plug, in order.
    fn plug_acts(&mut self, acts: &[PlugAct])
        ensures after { self.new ≡ plug_acts acts.now self.old }
        ensures faults { self.new.faults ≡ self.old.faults }
    {
        for act in acts {
            self.plug_act(act);
        }
    }

    /// Steps the plug's engine.
    #[tactic(auto, unfolding(crate::specs::PortStep::plug_steps))]
    pub(crate) fn plug_steps(&mut self, t: u64, stimulus: &PlugStimulus)
        requires { t ≤ LAST_TIME }
        ensures after { self.new ≡ plug_steps t stimulus.now self.old }
        ensures faults { self.new.faults ≡ self.old.faults }
    {
        let mut acts = ArrayVec::new();
        self.port.plug.step_into(t, stimulus, &mut acts);
        self.plug_acts(acts.as_slice());
    }

    /// An act of the source.
    fn source_act(&mut self, t: u64, act: &SourceAct)
        requires time { t ≤ LAST_TIME }
        requires room { length self.old.faults.items + source_faults_of act.now ≤ 4 }
        ensures after { self.new ≡ source_act t act.now self.old }
        ensures faults { length self.new.faults.items ≤ length self.old.faults.items + source_faults_of act.now }
    {
        match act {
            SourceAct::DropWaiting => self.wait(Side::Source, Waiting::Nothing),
            SourceAct::On => self.sink_steps(t, &SinkStimulus::Vbus),
            SourceAct::Off => {}
            SourceAct::ResetLayer => self.reset_on(Side::Source, Channel::Sop),
            SourceAct::Note(note) => self.note(source_fault(*note)),
            SourceAct::Send(sending) => {
                self.wait(Side::Source, Waiting::Message(source_message(sending)));
            }
            SourceAct::SendHardReset => self.wait(Side::Source, Waiting::HardReset),
        }
    }

    /// The acts of the source, in order.
    fn source_acts(&mut self, t: u64, acts: &[SourceAct])
        requires time { t ≤ LAST_TIME }
        requires room { length self.old.faults.items + source_faults acts.now ≤ 4 }
        ensures after { self.new ≡ source_acts t acts.now self.old }
        ensures faults { length self.new.faults.items ≤ length self.old.faults.items + source_faults acts.now }
    {
        for act in acts {
            self.source_act(t, act);
        }
    }

    /// Steps the source's engine.
    #[tactic(auto, unfolding(crate::specs::PortStep::source_steps))]
    pub fn source_steps(&mut self, t: u64, stimulus: &SourceStimulus)
        requires time { t ≤ LAST_TIME }
        requires room { length self.old.faults.items + 2 ≤ 4 }
        ensures after { self.new ≡ source_steps t stimulus.now self.old }
        ensures faults { length self.new.faults.items ≤ length self.old.faults.items + 2 }
    {
        if self.port.source.polls_again(t, stimulus, &self.answer) {
            self.answer = None;
            self.wait(Side::Source, Waiting::Nothing);
            return;
        }
        let mut acts = ArrayVec::new();
        self.port
            .source
            .step_into(t, stimulus, &self.answer, &mut acts);
        self.answer = None;
        self.source_acts(t, acts.as_slice());
    }

    /// What a side has sent has reached its receiver.
    #[tactic(auto, unfolding(crate::specs::PortStep::tells_sent))]
    pub(crate) fn tell_sent(&mut self, side: Side, sent: Sent, t: u64)
        requires time { t ≤ LAST_TIME }
        requires room { length self.old.faults.items + most side ≤ 4 }
        ensures after { self.new ≡ tells_sent side sent t self.old }
        ensures faults { length self.new.faults.items ≤ length self.old.faults.items + most side }
    {
        match side {
            Side::Source => self.source_steps(t, &SourceStimulus::Sent(sent)),
            Side::Sink => self.sink_steps(t, &SinkStimulus::Sent),
            Side::Plug => self.plug_steps(t, &PlugStimulus::Sent),
        }
    }

    /// A side's message was sent as often as it may be, and nobody has answered.
    #[tactic(auto, unfolding(crate::specs::PortStep::tells_failed))]
    pub(crate) fn tell_failed(&mut self, side: Side, t: u64)
        requires time { t ≤ LAST_TIME }
        requires room { length self.old.faults.items + most side ≤ 4 }
        ensures after { self.new ≡ tells_failed side t self.old }
        ensures faults { length self.new.faults.items ≤ length self.old.faults.items + most side }
    {
        match side {
            Side::Source => self.source_steps(t, &SourceStimulus::Failed),
            Side::Sink => self.sink_steps(t, &SinkStimulus::Failed),
            Side::Plug => self.plug_steps(t, &PlugStimulus::Failed),
        }
    }

    /// A side gets a message.
    #[tactic(auto, unfolding(crate::specs::PortStep::tells_message))]
    pub(crate) fn tell_message(&mut self, side: Side, packet: &Packet, t: u64)
        requires time { t ≤ LAST_TIME }
        requires room { length self.old.faults.items + most side ≤ 4 }
        ensures after { self.new ≡ tells_message side packet.now t self.old }
        ensures faults { length self.new.faults.items ≤ length self.old.faults.items + most side }
    {
        match side {
            Side::Source => self.source_steps(t, &source_hears_as(packet)),
            Side::Sink => self.sink_steps(t, &sink_hears_as(packet)),
            Side::Plug => self.plug_steps(t, &plug_hears_as(packet)),
        }
    }

    /// A side gets a Hard Reset.
    #[tactic(auto, unfolding(crate::specs::PortStep::tells_reset))]
    pub(crate) fn tell_reset(&mut self, side: Side, t: u64)
        requires time { t ≤ LAST_TIME }
        requires room { length self.old.faults.items + most side ≤ 4 }
        ensures after { self.new ≡ tells_reset side t self.old }
        ensures faults { length self.new.faults.items ≤ length self.old.faults.items + most side }
    {
        match side {
            Side::Source => self.source_steps(t, &SourceStimulus::HardReset),
            Side::Sink => self.sink_steps(t, &SinkStimulus::HardReset),
            Side::Plug => self.plug_steps(t, &PlugStimulus::HardReset),
        }
    }

    /// A side's timer has ended.
    #[tactic(auto, unfolding(crate::specs::PortStep::tells_timer))]
    pub fn tell_timer(&mut self, side: Side, timer: Timer, t: u64)
        requires time { t ≤ LAST_TIME }
        requires room { length self.old.faults.items + most side ≤ 4 }
        ensures after { self.new ≡ tells_timer side timer t self.old }
        ensures faults { length self.new.faults.items ≤ length self.old.faults.items + most side }
    {
        match side {
            Side::Source => self.source_steps(t, &SourceStimulus::Ended(timer)),
            Side::Sink => self.sink_steps(t, &SinkStimulus::Ended(timer)),
            Side::Plug => self.plug_steps(t, &PlugStimulus::Ended(timer)),
        }
    }

    /// A sink is attached through a cable.
    #[tactic(auto, unfolding(crate::specs::PortStep::tells_attach))]
    pub fn tell_attach(&mut self, cable: Cable, sink: SinkSettings, t: u64)
        requires time { t ≤ LAST_TIME }
        requires room { length self.old.faults.items + 3 ≤ 4 }
        ensures after { self.new ≡ tells_attach cable sink t self.old }
        ensures faults { length self.new.faults.items ≤ length self.old.faults.items + 3 }
    {
        self.port.cable = Some(cable);
        self.source_steps(t, &SourceStimulus::Attach);
        self.sink_steps(t, &SinkStimulus::Attach(sink));
        self.plug_steps(t, &PlugStimulus::Attach(cable));
    }
}
