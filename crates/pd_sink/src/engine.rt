//! The engine: what it keeps, and its steps.

ghost use Rattle.std.specs.Prelude.{◌≡◌, ◌≤◌, ◌<◌, ◌+◌, ◌++◌, ◌↔◌, [], IsTrue, IfSome, length, option_to_list};
ghost use Rattle.arrayvec.specs.ArrayVec.{array_vec_len};
ghost use Rattle.pd_timers.specs.Deadlines.{first_of};
ghost use Rattle.pd_timers.specs.SinkDeadlines.{timer_of};
ghost use Rattle.pd_sink.specs.Record.{off};
ghost use Rattle.pd_sink.specs.Facts.{facts_of};
ghost use Rattle.pd_sink.specs.Acts.{after, wants, all_after, all_wants, started_where, offer_from, asked_in, sending_of, fault_count};
ghost use Rattle.pd_sink.specs.Rule.{IsAsked};
ghost use Rattle.pd_sink.specs.Step.{before_row, stepped, acts_of, hears_in, is_ready, revision_bits, demanding};

use crate::kinds::{Deed, Facts, Message};
use crate::objects::{request_object, sink_capabilities};
use crate::rows::choose;
use crate::rule::{Asked, request};
use crate::{Act, Note, Sending, State, Stimulus};
use arrayvec::ArrayVec;
use pd_setup::{Demand, SinkMode, SinkRevision, SinkSettings};
use pd_symbols::ShortList;
use pd_timers::{LAST_TIME, SinkDeadlines, SinkTimer, Timer};
use std::marker::Model;

/// How often Hard Reset is sent again: nHardResetCount.
const N_HARD_RESET_COUNT: u8 = 2;

/// The sink's policy engine.
#[derive(Clone, Copy)]
pub struct Sink {
    state: State,
    /// Whether the message of this state was sent.
    sent: bool,
    /// The HardResetCounter, which nHardResetCount bounds.
    hard_reset_counter: u8,
    /// Whether the sink asks again after a Wait.
    again: bool,
    /// Whether the sink has a demand that it has not asked for yet.
    fresh: bool,
    has_contract: bool,
    /// When the timers that the rows start fall due.
    deadlines: SinkDeadlines,
    /// The sink that is attached.
    sink: Option<SinkSettings>,
    /// The objects of the offer that came last.
    kept_offer: ShortList,
}

impl Model for Sink {
    ghost use Rattle.pd_sink.specs.Record.{SinkRecord};

    ghost Value = { SinkRecord };

    ghost view = { λ s. record {
      state = s.state;
      deadlines = s.deadlines;
      sent = s.sent;
      hard_reset_counter = s.hard_reset_counter;
      again = s.again;
      fresh = s.fresh;
      has_contract = s.has_contract;
      sink = s.sink;
      kept_offer = s.kept_offer;
    } };

    ghost inverse = { λ v. record {
      state = v.state;
      deadlines = v.deadlines;
      sent = v.sent;
      hard_reset_counter = v.hard_reset_counter;
      again = v.again;
      fresh = v.fresh;
      has_contract = v.has_contract;
      sink = v.sink;
      kept_offer = v.kept_offer;
    } };
}

// Each test leaves the function at once where it fails, so that no proof has to look at all of them together.
macro_rules! all_of {
    ($($test:expr;)*) => {{
        $(
            if !$test {
                return false;
            }
        )*
        true
    }};
}

impl Sink {
    /// An engine in Off.
    pub fn new() -> Sink
        ensures { result ≡ off }
    {
        Sink {
            state: State::Off,
            deadlines: SinkDeadlines::new(),
            sent: false,
            hard_reset_counter: 0,
            again: false,
            fresh: false,
            has_contract: false,
            sink: None,
            kept_offer: ShortList::new(),
        }
    }

    /// The first deadline.
    pub fn first(&self) -> Option<(u64, Timer)>
        ensures { result ≡ first_of self.now.deadlines }
    {
        self.deadlines.first()
    }

    /// The state that the engine is in.
    pub fn state(&self) -> State
        ensures { result ≡ self.now.state }
    {
        self.state
    }

    /// The sink that is attached.
    pub fn settings(&self) -> Option<SinkSettings>
        ensures { result ≡ self.now.sink }
    {
        self.sink
    }

    /// The objects of the offer that it keeps.
    pub fn kept_offer(&self) -> &[u32]
        ensures offer { result.now ≡ self.now.kept_offer }
        ensures few { length result.now ≤ 7 }
    {
        self.kept_offer.as_slice()
    }

    /// Whether messages reach the engine.
    pub fn hears(&self) -> bool
        ensures { result ≡ hears_in self.now }
    {
        !matches!(self.state, State::Off | State::Disabled)
    }

    /// Whether the engine is in Ready.
    pub fn ready(&self) -> bool
        ensures { result ≡ is_ready self.now }
    {
        matches!(self.state, State::Ready)
    }

    /// The revision bits of what the sink sends.
    pub fn revision(&self) -> u8
        ensures value { result ≡ revision_bits self.now }
        ensures fits { result < 4 }
    {
        match &self.sink {
            Some(sink) => match sink.revision() {
                SinkRevision::Revision2 => 1,
                SinkRevision::Revision3 => 2,
            },
            None => 2,
        }
    }

    /// One step at a time in microseconds: the first row that fits, and its acts.
    pub fn step(&mut self, now: u64, stimulus: &Stimulus) -> ArrayVec<Act, 8>
        requires { now ≤ LAST_TIME }
        ensures after { self.new ≡ stepped now stimulus.now self.old }
        ensures acts { result.items ≡ acts_of now stimulus.now self.old }
        ensures few { length result.items ≤ 6 }
        ensures few_faults { fault_count result.items ≤ 1 }
    {
        let mut acts = ArrayVec::new();
        self.step_into(now, stimulus, &mut acts);
        acts
    }

    /// The same, with its acts put in an empty place.
    pub fn step_into(&mut self, now: u64, stimulus: &Stimulus, acts: &mut ArrayVec<Act, 8>)
        requires time { now ≤ LAST_TIME }
        requires none { acts.old.items ≡ [] }
        ensures after { self.new ≡ stepped now stimulus.now self.old }
        ensures acts { acts.new.items ≡ acts_of now stimulus.now self.old }
        ensures few { length acts.new.items ≤ 6 }
        ensures few_faults { fault_count acts.new.items ≤ 1 }
    {
        self.arrive(stimulus);
        let deeds = choose(self.state, stimulus, self.facts());
        self.run(deeds, now, stimulus, acts);
    }

    /// A timer that falls due has ended, Sent sets the mark, and a sink that is attached is known.
    fn arrive(&mut self, stimulus: &Stimulus)
        ensures { self.new ≡ before_row stimulus.now self.old }
    {
        match stimulus {
            Stimulus::Attach(sink) => self.sink = Some(*sink),
            Stimulus::Sent => self.sent = true,
            Stimulus::Ended(timer) => self.deadlines.stop(*timer),
            Stimulus::Demand(demand) => self.sink = demanding(&self.sink, *demand),
            _ => {}
        }
    }

    /// What the guards of the rows ask.
    fn facts(&self) -> Facts
        ensures { result ≡ facts_of self.now }
    {
        let plain = match &self.sink {
            Some(sink) => matches!(sink.mode(), SinkMode::Plain),
            None => false,
        };
        Facts {
            plain,
            no_contract: !self.has_contract,
            was_sent: self.sent,
            hard_resets_left: self.hard_reset_counter <= N_HARD_RESET_COUNT,
        }
    }

    /// Takes the acts of a row, in order; what it wants is put in an empty place.
    fn run(&mut self, deeds: &[Deed], now: u64, stimulus: &Stimulus, acts: &mut ArrayVec<Act, 8>)
        requires time { now ≤ LAST_TIME }
        requires few { length deeds.now ≤ 6 }
        requires none { acts.old.items ≡ [] }
        ensures after { self.new ≡ all_after deeds.now now stimulus.now self.old }
        ensures acts { acts.new.items ≡ all_wants deeds.now now stimulus.now self.old }
        ensures few { length acts.new.items ≤ 6 }
    {
        for deed in deeds {
            self.take(*deed, now, stimulus, acts);
        }
    }

    /// Takes one act of a row.
    fn take(&mut self, deed: Deed, now: u64, stimulus: &Stimulus, acts: &mut ArrayVec<Act, 8>)
        requires time { now ≤ LAST_TIME }
        requires room { array_vec_len acts.old < 8 }
        ensures after { self.new ≡ after deed now stimulus.now self.old }
        ensures few { array_vec_len acts.new ≤ array_vec_len acts.old + 1 }
        ensures acts { acts.new.items ≡ acts.old.items ++ wants deed self.old }
    {
        if let Some(act) = self.wanted(deed) {
            acts.push(act);
        }
        self.change(deed, now, stimulus);
    }

    /// What an act of a row does to the engine.
    fn change(&mut self, deed: Deed, now: u64, stimulus: &Stimulus)
        requires { now ≤ LAST_TIME }
        ensures { self.new ≡ after deed now stimulus.now self.old }
    {
        match deed {
            Deed::Enter(state) => {
                self.state = state;
                self.deadlines.stop_all();
                self.sent = false;
            }
            Deed::Start(timer) => self.deadlines.start(now, timer),
            Deed::StartWhereAgain(timer) => self.start_where(self.again, now, timer),
            Deed::StartWhereFresh(timer) => self.start_where(self.fresh, now, timer),
            Deed::KeepOffer => self.keep_offer(stimulus),
            Deed::Again(again) => self.again = again,
            Deed::Fresh(fresh) => self.fresh = fresh,
            Deed::Contract(has_contract) => self.has_contract = has_contract,
            Deed::HardResetCounterUp => {
                self.hard_reset_counter = self.hard_reset_counter.saturating_add(1);
            }
            Deed::HardResetCounterZero => self.hard_reset_counter = 0,
            _ => {}
        }
    }

    /// Starts a timer, where it is to be started.
    fn start_where(&mut self, is_wanted: bool, now: u64, timer: SinkTimer)
        requires { now ≤ LAST_TIME }
        ensures { self.new ≡ record self.old { deadlines = started_where is_wanted self.old.deadlines now (timer_of timer) } }
    {
        if is_wanted {
            self.deadlines.start(now, timer);
        }
    }

    /// The objects that came are the offer now.
    fn keep_offer(&mut self, stimulus: &Stimulus)
        ensures { self.new ≡ record self.old { kept_offer = offer_from stimulus.now self.old.kept_offer } }
    {
        if let Stimulus::SourceCapabilities(objects) = stimulus {
            self.kept_offer = ShortList::of(objects.as_slice());
        }
    }

    /// What an act of a row wants of the port.
    fn wanted(&self, deed: Deed) -> Option<Act>
        ensures { option_to_list result ≡ wants deed self.now }
    {
        match deed {
            Deed::Enter(_) => Some(Act::DropWaiting),
            Deed::ResetLayer => Some(Act::ResetLayer),
            Deed::Note(note) => Some(Act::Note(note)),
            Deed::NoteMismatch => match self.asked() {
                Some(Asked { mismatch: true, .. }) => Some(Act::Note(Note::Mismatch)),
                _ => None,
            },
            Deed::Send(message) => match self.sending(message) {
                Some(sending) => Some(Act::Send(sending)),
                None => None,
            },
            Deed::SendHardReset => Some(Act::SendHardReset),
            _ => None,
        }
    }

    /// What the sink that is attached asks of the kept offer.
    fn asked(&self) -> Option<Asked>
        ensures value { result ≡ asked_in self.now }
        ensures sound { IfSome result IsAsked }
    {
        match &self.sink {
            Some(sink) => request(sink, self.kept_offer.as_slice()),
            None => None,
        }
    }

    /// A message with its objects, where there is something to send.
    fn sending(&self, message: Message) -> Option<Sending>
        ensures { result ≡ sending_of message self.now }
    {
        match message {
            Message::Request => match self.asked() {
                Some(asked) => Some(Sending::Request(request_object(asked))),
                None => None,
            },
            Message::GetSourceCap => Some(Sending::GetSourceCap),
            Message::SinkCapabilities => match &self.sink {
                Some(sink) => Some(Sending::SinkCapabilities(sink_capabilities(sink))),
                None => None,
            },
            Message::Accept => Some(Sending::Accept),
            Message::SoftReset => Some(Sending::SoftReset),
        }
    }

    /// Whether both engines are in the same record.
    pub fn same(&self, other: &Sink) -> bool
        ensures { IsTrue result ↔ (self.now ≡ other.now) }
    {
        all_of! {
            self.state == other.state;
            self.deadlines.same(&other.deadlines);
            self.sent == other.sent;
            self.hard_reset_counter == other.hard_reset_counter;
            self.again == other.again;
            self.fresh == other.fresh;
            self.has_contract == other.has_contract;
            same_sinks(&self.sink, &other.sink);
            self.kept_offer == other.kept_offer;
        }
    }

    /// A copy of the engine, in the same record.
    pub fn copy(&self) -> Sink
        ensures { result ≡ self.now }
    {
        *self
    }
}

/// The sink with another demand.
fn demanding(sink: &Option<SinkSettings>, demand: Demand) -> Option<SinkSettings>
    ensures { result ≡ demanding demand sink.now }
{
    match sink {
        Some(sink) => Some(sink.with_demand(demand)),
        None => None,
    }
}

fn same_sinks(sink: &Option<SinkSettings>, other: &Option<SinkSettings>) -> bool
    ensures { IsTrue result ↔ (sink.now ≡ other.now) }
{
    match (sink, other) {
        (Some(sink), Some(other)) => sink.same(other),
        (None, None) => true,
        _ => false,
    }
}

#[cfg(test)]
mod tests;
