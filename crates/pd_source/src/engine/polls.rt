//! The step of which a run mostly consists: OfferPoll has ended, and the offer is as it was delivered.

ghost use Rattle.std.specs.Prelude.{◌≡◌, ◌≤◌, ◌∷◌, [], false, IsTrue, IsFalse};
ghost use Rattle.pd_timers.specs.declared.Timer.TheVariants.{OfferPoll};
ghost use Rattle.pd_timers.specs.Deadlines.{idle, started};
ghost use Rattle.pd_source.specs.declared.kinds.Act.TheVariants.{DropWaiting};
ghost use Rattle.pd_source.specs.Record.{with_record};
ghost use Rattle.pd_source.specs.Step.{stepped, acts_of, finds_alike};

use super::Source;
use super::asks::{differs_from, polls};
use crate::Stimulus;
use crate::rows::heard_of;
use pd_objects::Answer;
use pd_timers::{Deadlines, LAST_TIME, Timer};

impl Source {
    /// Takes a step at a time in microseconds, where it finds the offer as it was delivered. All that such a step wants of the port is that
    /// what waits is dropped. Any other step isn't taken.
    #[tactic(auto, using(crate::proofs::Polls::poll_stepped, crate::proofs::Polls::poll_acts))]
    pub fn polls_again(&mut self, now: u64, stimulus: &Stimulus, answer: &Option<Answer>) -> bool
        requires { now ≤ LAST_TIME }
        ensures value { result ≡ finds_alike stimulus.now answer.now self.old.record }
        ensures after { IsTrue result
            → self.new ≡ with_record self.old (stepped self.old.settings now stimulus.now answer.now self.old.record) }
        ensures acts { IsTrue result → acts_of self.old.settings now stimulus.now answer.now self.old.record ≡ DropWaiting ∷ [] }
        ensures other { IsFalse result → self.new ≡ self.old }
    {
        if !self.finds_alike(stimulus, answer) {
            return false;
        }
        self.poll(now);
        true
    }

    /// Whether a step finds the offer as it was delivered.
    fn finds_alike(&self, stimulus: &Stimulus, answer: &Option<Answer>) -> bool
        ensures { result ≡ finds_alike stimulus.now answer.now self.now.record }
    {
        polls(self.state, heard_of(stimulus))
            && !differs_from(self.delivered_offer.as_slice(), answer)
    }

    /// OfferPoll alone is running, and nothing was sent.
    fn poll(&mut self, now: u64)
        requires { now ≤ LAST_TIME }
        ensures { self.new ≡ with_record self.old
            (record self.old.record { deadlines = started idle now OfferPoll; sent = false }) }
    {
        let mut deadlines = Deadlines::new();
        deadlines.start(now, Timer::OfferPoll);
        self.deadlines = deadlines;
        self.sent = false;
    }
}
