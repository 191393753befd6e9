//! The engine: what it keeps, and its steps.

ghost use Rattle.std.specs.Prelude.{◌≡◌, ◌≤◌, ◌<◌, ◌+◌, ◌++◌, length, false, [], None, option_map, option_to_list};
ghost use Rattle.arrayvec.specs.ArrayVec.{array_vec_len};
ghost use Rattle.pd_timers.specs.Deadlines.{first_of, idle};
ghost use Rattle.pd_source.specs.Record.{new_source, with_record};
ghost use Rattle.pd_source.specs.Acts.{after, wants, all_after, all_wants, fault_count};
ghost use Rattle.pd_source.specs.Acts.{limit_from, keeping, draft_from, closed, committed, voided, sending_of};
ghost use Rattle.pd_source.specs.declared.kinds.Revision.TheVariants as spoken;
ghost use Rattle.pd_source.specs.Step.{before_row, stepped, acts_of, hears_in, is_ready, revision_bits};

use crate::kinds::{Deed, Message};
use crate::offer::capabilities;
use crate::request::{contract_of, revision_of};
use crate::{Act, Revision, Sending, State, Stimulus};
use arrayvec::ArrayVec;
use pd_identity::limit_ma;
use pd_objects::{Answer, Contract, Supply, SupplyList};
use pd_symbols::ShortList;
use pd_timers::{Deadlines, LAST_TIME, Timer};
use std::marker::Model;

mod asks;
mod copies;
mod polls;
mod power;
mod settings;

/// The current in mA that each cable carries (USB Type-C).
const CABLE_CURRENT_MA: u32 = 3_000;

/// The source's policy engine.
#[derive(Clone, Copy)]
pub struct Source {
    supplies: SupplyList,
    identity_tries: u8,
    unconstrained: bool,
    state: State,
    /// The CapsCounter, which nCapsCount bounds.
    caps_counter: u8,
    /// The DiscoverIdentityCounter, which the port's own number of tries bounds in place of nDiscoverIdentityCount.
    discover_identity_counter: u8,
    /// The HardResetCounter, which nHardResetCount bounds.
    hard_reset_counter: u8,
    /// Whether the message of this state was sent.
    sent: bool,
    /// The revision that is spoken with the sink.
    revision: Revision,
    deadlines: Deadlines,
    /// The current in mA that the cable carries, where it is known.
    limit: Option<u32>,
    /// The object of the request that came last.
    kept_request: Option<u32>,
    /// The object of the request that is accepted.
    accepted_request: Option<u32>,
    /// The currents in mA of the offer that is being made.
    draft_offer: ShortList,
    /// The currents in mA of the offer that was delivered.
    delivered_offer: ShortList,
    contract: Option<Contract>,
}

impl Model for Source {
    ghost use Rattle.pd_source.specs.Record.{SourceData};

    ghost Value = { SourceData };

    ghost view = { λ s. record {
      settings = record { supplies = s.supplies; identity_tries = s.identity_tries; unconstrained = s.unconstrained };
      «record» = record {
        state = s.state;
        deadlines = s.deadlines;
        caps_counter = s.caps_counter;
        discover_identity_counter = s.discover_identity_counter;
        hard_reset_counter = s.hard_reset_counter;
        limit = s.limit;
        sent = s.sent;
        revision = s.revision;
        kept_request = s.kept_request;
        accepted_request = s.accepted_request;
        draft_offer = s.draft_offer;
        delivered_offer = s.delivered_offer;
        contract = s.contract;
      };
    } };

    ghost inverse = { λ v. record {
      supplies = v.settings.supplies;
      identity_tries = v.settings.identity_tries;
      unconstrained = v.settings.unconstrained;
      state = v.record.state;
      deadlines = v.record.deadlines;
      caps_counter = v.record.caps_counter;
      discover_identity_counter = v.record.discover_identity_counter;
      hard_reset_counter = v.record.hard_reset_counter;
      limit = v.record.limit;
      sent = v.record.sent;
      revision = v.record.revision;
      kept_request = v.record.kept_request;
      accepted_request = v.record.accepted_request;
      draft_offer = v.record.draft_offer;
      delivered_offer = v.record.delivered_offer;
      contract = v.record.contract;
    } };
}

impl Source {
    /// An engine in Off, for a port of these supplies, at most 7; it asks its cable at most `identity_tries` times who it is,
    /// and not at all at 0. `unconstrained` is bit 27 of its Source_Capabilities.
    pub fn new(supplies: &[Supply], identity_tries: u8, unconstrained: bool) -> Source
        requires { length supplies.now ≤ 7 }
        ensures { result ≡ new_source (record { supplies = supplies.now; identity_tries = identity_tries; unconstrained = unconstrained }) }
    {
        Source {
            supplies: SupplyList::of(supplies),
            identity_tries,
            unconstrained,
            state: State::Off,
            deadlines: Deadlines::new(),
            caps_counter: 0,
            discover_identity_counter: 0,
            hard_reset_counter: 0,
            limit: if identity_tries == 0 {
                Some(CABLE_CURRENT_MA)
            } else {
                None
            },
            sent: false,
            revision: Revision::Revision3,
            kept_request: None,
            accepted_request: None,
            draft_offer: ShortList::new(),
            delivered_offer: ShortList::new(),
            contract: None,
        }
    }

    /// The first deadline.
    pub fn first(&self) -> Option<(u64, Timer)>
        ensures { result ≡ first_of self.now.record.deadlines }
    {
        self.deadlines.first()
    }

    /// The state that the engine is in.
    pub fn state(&self) -> State
        ensures { result ≡ self.now.record.state }
    {
        self.state
    }

    /// Whether messages reach the engine.
    pub fn hears(&self) -> bool
        ensures { result ≡ hears_in self.now.record }
    {
        !matches!(self.state, State::Off | State::Disabled)
    }

    /// Whether the engine is in Ready.
    pub fn ready(&self) -> bool
        ensures { result ≡ is_ready self.now.record }
    {
        matches!(self.state, State::Ready)
    }

    /// The revision bits of what the source sends on SOP.
    pub fn revision(&self) -> u8
        ensures value { result ≡ revision_bits self.now.record }
        ensures fits { result < 4 }
    {
        match self.revision {
            Revision::Revision2 => 1,
            Revision::Revision3 => 2,
        }
    }

    /// One step at a time in microseconds: the first row that fits, and its acts. The answer is that to `ask`.
    pub fn step(
        &mut self,
        now: u64,
        stimulus: &Stimulus,
        answer: Option<Answer>,
    ) -> ArrayVec<Act, 8>
        requires { now ≤ LAST_TIME }
        ensures after { self.new ≡ with_record self.old (stepped self.old.settings now stimulus.now answer self.old.record) }
        ensures acts { result.items ≡ acts_of self.old.settings now stimulus.now answer self.old.record }
        ensures few { length result.items ≤ 6 }
        ensures few_faults { fault_count result.items ≤ 2 }
    {
        let mut acts = ArrayVec::new();
        self.step_into(now, stimulus, &answer, &mut acts);
        acts
    }

    /// The same, with its acts put in an empty place.
    #[tactic(auto, unfolding(crate::specs::Step::stepped, crate::specs::Step::acts_of))]
    pub fn step_into(
        &mut self,
        now: u64,
        stimulus: &Stimulus,
        answer: &Option<Answer>,
        acts: &mut ArrayVec<Act, 8>,
    )
        requires time { now ≤ LAST_TIME }
        requires none { acts.old.items ≡ [] }
        ensures after { self.new ≡ with_record self.old (stepped self.old.settings now stimulus.now answer.now self.old.record) }
        ensures acts { acts.new.items ≡ acts_of self.old.settings now stimulus.now answer.now self.old.record }
        ensures few { length acts.new.items ≤ 6 }
        ensures few_faults { fault_count acts.new.items ≤ 2 }
    {
        self.arrive(stimulus);
        let deeds = self.deeds(self.sent, stimulus, answer);
        self.run(deeds, now, stimulus, answer, acts);
    }

    /// A timer that falls due has ended, and Sent sets the mark.
    fn arrive(&mut self, stimulus: &Stimulus)
        ensures { self.new ≡ with_record self.old (before_row stimulus.now self.old.record) }
    {
        match stimulus {
            Stimulus::Sent(_) => self.sent = true,
            Stimulus::Ended(timer) => self.deadlines.stop(*timer),
            _ => {}
        }
    }

    /// Takes the acts of a row, in order; what it wants is put in an empty place.
    fn run(
        &mut self,
        deeds: &[Deed],
        now: u64,
        stimulus: &Stimulus,
        answer: &Option<Answer>,
        acts: &mut ArrayVec<Act, 8>,
    )
        requires time { now ≤ LAST_TIME }
        requires few { length deeds.now ≤ 6 }
        requires none { acts.old.items ≡ [] }
        ensures after { self.new ≡ with_record self.old
            (all_after self.old.settings deeds.now now stimulus.now answer.now self.old.record) }
        ensures acts { acts.new.items ≡ all_wants self.old.settings deeds.now now stimulus.now answer.now self.old.record }
        ensures few { length acts.new.items ≤ 6 }
    {
        for deed in deeds {
            self.take(*deed, now, stimulus, answer, acts);
        }
    }

    /// Takes one act of a row.
    fn take(
        &mut self,
        deed: Deed,
        now: u64,
        stimulus: &Stimulus,
        answer: &Option<Answer>,
        acts: &mut ArrayVec<Act, 8>,
    )
        requires time { now ≤ LAST_TIME }
        requires room { array_vec_len acts.old < 8 }
        ensures after { self.new ≡ with_record self.old (after self.old.settings deed now stimulus.now answer.now self.old.record) }
        ensures few { array_vec_len acts.new ≤ array_vec_len acts.old + 1 }
        ensures acts { acts.new.items ≡ acts.old.items ++ wants self.old.settings deed self.old.record }
    {
        if let Some(act) = self.wanted(deed) {
            acts.push(act);
        }
        self.change(deed, now, stimulus, answer);
    }

    /// What an act of a row wants of the port.
    fn wanted(&self, deed: Deed) -> Option<Act>
        ensures { option_to_list result ≡ wants self.now.settings deed self.now.record }
    {
        match deed {
            Deed::Enter(_) | Deed::EnterAgain => Some(Act::DropWaiting),
            Deed::Send(message) => Some(Act::Send(self.sending(message))),
            Deed::SendHardReset => Some(Act::SendHardReset),
            Deed::Note(note) => Some(Act::Note(note)),
            Deed::On => Some(Act::On),
            Deed::Off => Some(Act::Off),
            Deed::ResetLayer => Some(Act::ResetLayer),
            _ => None,
        }
    }

    /// What an act of a row does to the engine.
    fn change(&mut self, deed: Deed, now: u64, stimulus: &Stimulus, answer: &Option<Answer>)
        requires { now ≤ LAST_TIME }
        ensures { self.new ≡ with_record self.old (after self.old.settings deed now stimulus.now answer.now self.old.record) }
    {
        match deed {
            Deed::Enter(state) => {
                self.state = state;
                self.enter();
            }
            Deed::EnterAgain => self.enter(),
            Deed::Start(timer) => self.deadlines.start(now, timer),
            Deed::CapsCounterUp => self.caps_counter = self.caps_counter.saturating_add(1),
            Deed::CapsCounterZero => self.caps_counter = 0,
            Deed::DiscoverIdentityCounterUp => {
                self.discover_identity_counter = self.discover_identity_counter.saturating_add(1);
            }
            Deed::HardResetCounterUp => self.hard_reset_counter = self
                .hard_reset_counter
                .saturating_add(1),
            Deed::HardResetCounterZero => self.hard_reset_counter = 0,
            Deed::LimitFromAnswer => self.limit = limit_from(stimulus, self.limit),
            Deed::CableLimit => self.limit = Some(CABLE_CURRENT_MA),
            Deed::KeepRequest => self.keep_request(stimulus),
            Deed::Draft => self.draft(answer),
            Deed::Settle => self.delivered_offer = self.draft_offer,
            Deed::Close => self.close(),
            Deed::Take => self.accepted_request = self.kept_request,
            Deed::Commit => self.commit(),
            Deed::Void => self.void(),
            _ => {}
        }
    }

    /// A state is entered: no timer runs, and nothing was sent.
    fn enter(&mut self)
        ensures { self.new ≡ with_record self.old (record self.old.record { deadlines = idle; sent = false }) }
    {
        self.deadlines.stop_all();
        self.sent = false;
    }

    /// The request that came is kept, and its revision is spoken.
    fn keep_request(&mut self, stimulus: &Stimulus)
        ensures { self.new ≡ with_record self.old (keeping stimulus.now self.old.record) }
    {
        if let Stimulus::Request { object, revision } = stimulus {
            self.kept_request = Some(*object);
            self.revision = revision_of(*revision);
        }
    }

    /// The answer is the offer that is being made.
    fn draft(&mut self, answer: &Option<Answer>)
        ensures { self.new ≡ with_record self.old
            (record self.old.record { draft_offer = draft_from answer.now self.old.record.draft_offer }) }
    {
        if let Some(Answer::Offer(currents)) = answer {
            self.draft_offer = ShortList::of(currents.as_slice());
        }
    }

    /// No offer is being made, and no request is accepted.
    fn close(&mut self)
        ensures { self.new ≡ with_record self.old (closed self.old.record) }
    {
        self.draft_offer = ShortList::new();
        self.accepted_request = None;
    }

    /// The accepted request becomes the contract.
    fn commit(&mut self)
        ensures { self.new ≡ with_record self.old (committed self.old.settings self.old.record) }
    {
        self.contract = match self.accepted_request {
            None => None,
            Some(object) => Some(contract_of(
                self.supplies.as_slice(),
                self.delivered_offer.as_slice(),
                object,
            )),
        };
        self.accepted_request = None;
    }

    /// Contract, accepted request and both offers are dropped, and Revision 3.0 is spoken.
    fn void(&mut self)
        ensures { self.new ≡ with_record self.old (voided self.old.record) }
    {
        self.close();
        self.contract = None;
        self.delivered_offer = ShortList::new();
        self.revision = Revision::Revision3;
    }

    /// A message with its objects.
    fn sending(&self, message: Message) -> Sending
        ensures { result ≡ sending_of self.now.settings message self.now.record }
    {
        match message {
            Message::DiscoverIdentity => Sending::DiscoverIdentity,
            Message::SourceCapabilities => Sending::SourceCapabilities(capabilities(
                self.unconstrained,
                self.supplies.as_slice(),
                self.draft_offer.as_slice(),
            )),
            Message::Accept => Sending::Accept,
            Message::Reject => Sending::Reject,
            Message::Wait => Sending::Wait,
            Message::PsRdy => Sending::PsRdy,
            Message::GetSinkCap => Sending::GetSinkCap,
            Message::SoftReset => Sending::SoftReset,
        }
    }
}

/// The cable's limit in mA after a plug's answer.
fn limit_from(stimulus: &Stimulus, limit: Option<u32>) -> Option<u32>
    ensures { result ≡ limit_from stimulus.now limit }
{
    match stimulus {
        Stimulus::Identity(objects) => Some(limit_ma(objects.as_slice())),
        _ => limit,
    }
}

#[cfg(test)]
mod tests;
