//! What the engine asks of the shared budget, and what the guards of the rows ask of the engine.

ghost use Rattle.std.specs.Prelude.{◌≡◌, ◌≤◌, is_some, length};
ghost use Rattle.pd_source.specs.Facts.{facts_of};
ghost use Rattle.pd_source.specs.Table.{is_request_valid, differs_from};
ghost use Rattle.pd_source.specs.Acts as acts;
ghost use Rattle.pd_source.specs.Step as step;

use super::{CABLE_CURRENT_MA, Source, limit_from};
use crate::kinds::{Deed, Facts, Heard};
use crate::request::is_valid;
use crate::rows::{choose, heard_of};
use crate::{State, Stimulus};
use pd_objects::{Answer, Query};
use pd_symbols::copied;
use pd_timers::Timer;

/// nCapsCount: how often Source_Capabilities is sent again.
const N_CAPS_COUNT: u8 = 50;

/// nHardResetCount: how often Hard Reset is sent again.
const N_HARD_RESET_COUNT: u8 = 2;

impl Source {
    /// What the engine asks of the shared budget before a step.
    #[tactic(auto, unfolding(crate::specs::Step::query_of))]
    pub fn ask(&self, stimulus: &Stimulus) -> Option<Query>
        ensures { result ≡ step.query_of self.now.settings stimulus.now self.now.record }
    {
        let heard = heard_of(stimulus);
        if polls(self.state, heard) {
            return Some(self.offer_query(self.limit));
        }
        if decides(self.state, heard) {
            return self.fit_query();
        }
        self.row_query(stimulus)
    }

    /// Whether the engine asks anything of the shared budget before a step. No query is made for it.
    #[tactic(auto, unfolding(crate::specs::Step::query_of))]
    pub fn asks(&self, stimulus: &Stimulus) -> bool
        ensures { result ≡ is_some (step.query_of self.now.settings stimulus.now self.now.record) }
    {
        let heard = heard_of(stimulus);
        if polls(self.state, heard) {
            return true;
        }
        if decides(self.state, heard) {
            return self.fit_query().is_some();
        }
        self.row_asks(stimulus)
    }

    /// Whether a row is taken that makes an offer.
    fn row_asks(&self, stimulus: &Stimulus) -> bool
        ensures { result ≡ is_some
            (step.row_query self.now.settings stimulus.now (step.before_row stimulus.now self.now.record)) }
    {
        let deeds = self.deeds(self.sent_before(stimulus), stimulus, &None);
        makes_offer(deeds)
    }

    /// The query which currents may be offered through a cable of this limit.
    fn offer_query(&self, limit: Option<u32>) -> Query
        ensures { result ≡ step.offer_query self.now.settings limit }
    {
        Query::Offer {
            supplies: copied(self.supplies.as_slice()),
            limit_ma: limit.unwrap_or(CABLE_CURRENT_MA),
        }
    }

    /// The query whether the power of the kept request fits, where it is valid.
    fn fit_query(&self) -> Option<Query>
        ensures { result ≡ step.fit_query self.now.settings self.now.record }
    {
        if !self.is_request_valid() {
            return None;
        }
        Some(Query::Fits {
            power: self.requested(self.kept_request),
        })
    }

    /// The query of a row that makes an offer.
    fn row_query(&self, stimulus: &Stimulus) -> Option<Query>
        ensures { result ≡ step.row_query self.now.settings stimulus.now (step.before_row stimulus.now self.now.record) }
    {
        let deeds = self.deeds(self.sent_before(stimulus), stimulus, &None);
        if makes_offer(deeds) {
            Some(self.offer_query(limit_after(deeds, stimulus, self.limit)))
        } else {
            None
        }
    }

    /// The mark whether the message of this state was sent, before the row is taken.
    fn sent_before(&self, stimulus: &Stimulus) -> bool
        ensures { result ≡ (step.before_row stimulus.now self.now.record).sent }
    {
        match stimulus {
            Stimulus::Sent(_) => true,
            _ => self.sent,
        }
    }

    /// What the first row that fits does, where the mark is as told.
    pub(super) fn deeds(
        &self,
        sent: bool,
        stimulus: &Stimulus,
        answer: &Option<Answer>,
    ) -> &'static [Deed]
        ensures value { result.now ≡ step.deeds_at self.now.settings stimulus.now answer.now (record self.now.record { sent = sent }) }
        ensures few { length result.now ≤ 6 }
    {
        choose(self.state, heard_of(stimulus), self.facts(sent, answer))
    }

    /// What the guards of the rows ask, where the mark is as told.
    fn facts(&self, sent: bool, answer: &Option<Answer>) -> Facts
        ensures { result ≡ facts_of self.now.settings answer.now (record self.now.record { sent = sent }) }
    {
        Facts {
            limit_known: self.limit.is_some(),
            tries_left: self.discover_identity_counter < self.identity_tries,
            was_sent: sent,
            has_contract: self.contract.is_some(),
            caps_left: self.caps_counter <= N_CAPS_COUNT,
            request_invalid: !self.is_request_valid(),
            fits: matches!(answer, Some(Answer::Fits(true))),
            offer_differs: differs_from(self.delivered_offer.as_slice(), answer),
            hard_resets_left: self.hard_reset_counter <= N_HARD_RESET_COUNT,
        }
    }

    /// Whether the kept request is valid in the delivered offer.
    fn is_request_valid(&self) -> bool
        ensures { result ≡ is_request_valid self.now.record }
    {
        match self.kept_request {
            None => false,
            Some(object) => is_valid(self.delivered_offer.as_slice(), object),
        }
    }
}

/// Whether OfferPoll falls due in Ready or Wait_New_Capabilities.
pub(super) fn polls(state: State, heard: Heard) -> bool
    ensures { result ≡ step.polls state heard }
{
    matches!(state, State::Ready | State::WaitNewCapabilities)
        && matches!(heard, Heard::Ended(Timer::OfferPoll))
}

/// Whether Delay falls due in Negotiate_Capability.
fn decides(state: State, heard: Heard) -> bool
    ensures { result ≡ step.decides state heard }
{
    matches!(state, State::NegotiateCapability) && matches!(heard, Heard::Ended(Timer::Delay))
}

/// Whether the answer is another offer than this one.
pub(super) fn differs_from(offer: &[u32], answer: &Option<Answer>) -> bool
    ensures { result ≡ differs_from offer.now answer.now }
{
    match answer {
        Some(Answer::Offer(currents)) => currents.as_slice() != offer,
        _ => false,
    }
}

/// Whether an offer is among a row's acts.
fn makes_offer(deeds: &[Deed]) -> bool
    ensures { result ≡ step.makes_offer deeds.now }
{
    for deed in deeds {
        if let Deed::Draft = deed {
            return true;
        }
    }
    false
}

/// The limit in mA after a row's acts.
fn limit_after(deeds: &[Deed], stimulus: &Stimulus, limit: Option<u32>) -> Option<u32>
    ensures { result ≡ step.limit_after deeds.now stimulus.now limit }
{
    let mut limit_then = limit;
    for deed in deeds {
        match deed {
            Deed::LimitFromAnswer => limit_then = limit_from(stimulus, limit_then),
            Deed::CableLimit => limit_then = Some(CABLE_CURRENT_MA),
            _ => {}
        }
    }
    limit_then
}
