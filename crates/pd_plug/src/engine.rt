//! The engine: what it keeps, and its steps.

ghost use Rattle.std.specs.Prelude.{◌≡◌, ◌≤◌, ◌<◌, ◌+◌, ◌++◌, ◌↔◌, [], IsTrue, length};
ghost use Rattle.arrayvec.specs.ArrayVec.{array_vec_len};
ghost use Rattle.pd_timers.specs.Deadlines.{first_of};
ghost use Rattle.pd_plug.specs.Record.{off};
ghost use Rattle.pd_plug.specs.Facts.{facts_of};
ghost use Rattle.pd_plug.specs.Acts.{after, wants, all_after, all_wants, identity_of};
ghost use Rattle.pd_plug.specs.Step.{before_row, stepped, acts_of, hears_in};

use crate::kinds::{Deed, Facts};
use crate::rows::choose;
use crate::{Act, State, Stimulus};
use arrayvec::ArrayVec;
use pd_identity::{Cable, CablePlug, answer};
use pd_timers::{DelayAlone, LAST_TIME, Timer};
use std::marker::Model;

/// The plug's policy engine.
#[derive(Clone, Copy)]
pub struct Plug {
    state: State,
    /// When the one timer that the rows start falls due.
    deadlines: DelayAlone,
    /// Whether the message of this state was sent.
    sent: bool,
    /// The cable that is attached.
    cable: Option<Cable>,
}

impl Model for Plug {
    ghost use Rattle.pd_plug.specs.Record.{PlugRecord};

    ghost Value = { PlugRecord };

    ghost view = { λ s. record { state = s.state; deadlines = s.deadlines; sent = s.sent; cable = s.cable } };

    ghost inverse = { λ v. record { state = v.state; deadlines = v.deadlines; sent = v.sent; cable = v.cable } };
}

impl Plug {
    /// An engine in Off.
    pub fn new() -> Plug
        ensures { result ≡ off }
    {
        Plug {
            state: State::Off,
            deadlines: DelayAlone::new(),
            sent: false,
            cable: None,
        }
    }

    /// The first deadline.
    pub fn first(&self) -> Option<(u64, Timer)>
        ensures { result ≡ first_of self.now.deadlines }
    {
        self.deadlines.first()
    }

    /// Whether messages reach the engine.
    pub fn hears(&self) -> bool
        ensures { result ≡ hears_in self.now }
    {
        !matches!(self.state, State::Off)
    }

    /// One step at a time in microseconds: the first row that fits, and its acts.
    pub fn step(&mut self, now: u64, stimulus: &Stimulus) -> ArrayVec<Act, 8>
        requires { now ≤ LAST_TIME }
        ensures after { self.new ≡ stepped now stimulus.now self.old }
        ensures acts { result.items ≡ acts_of now stimulus.now self.old }
        ensures few { length result.items ≤ 6 }
    {
        let mut acts = ArrayVec::new();
        self.step_into(now, stimulus, &mut acts);
        acts
    }

    /// The same, with its acts put in an empty place.
    #[tactic(auto, unfolding(crate::specs::Step::stepped, crate::specs::Step::acts_of))]
    pub fn step_into(&mut self, now: u64, stimulus: &Stimulus, acts: &mut ArrayVec<Act, 8>)
        requires time { now ≤ LAST_TIME }
        requires none { acts.old.items ≡ [] }
        ensures after { self.new ≡ stepped now stimulus.now self.old }
        ensures acts { acts.new.items ≡ acts_of now stimulus.now self.old }
        ensures few { length acts.new.items ≤ 6 }
    {
        self.arrive(stimulus);
        let deeds = choose(self.state, *stimulus, self.facts());
        self.run(deeds, now, acts);
    }

    /// A timer that falls due has ended, Sent sets the mark, and a cable that is attached is known.
    fn arrive(&mut self, stimulus: &Stimulus)
        ensures { self.new ≡ before_row stimulus.now self.old }
    {
        match stimulus {
            Stimulus::Attach(cable) => self.cable = Some(*cable),
            Stimulus::Sent => self.sent = true,
            Stimulus::Ended(timer) => self.deadlines.stop(*timer),
            _ => {}
        }
    }

    /// What the guards of the rows ask.
    fn facts(&self) -> Facts
        ensures { result ≡ facts_of self.now }
    {
        let without_plug = match &self.cable {
            Some(cable) => matches!(cable.plug, CablePlug::Absent),
            None => false,
        };
        let silent = match &self.cable {
            Some(cable) => matches!(cable.plug, CablePlug::Silent),
            None => false,
        };
        Facts {
            without_plug,
            silent,
        }
    }

    /// The objects that the attached cable answers.
    fn identity(&self) -> ArrayVec<u32, 7>
        ensures { result.items ≡ identity_of self.now.cable }
    {
        match &self.cable {
            Some(cable) => answer(cable),
            None => ArrayVec::new(),
        }
    }

    /// Takes the acts of a row, in order; what it wants is put in an empty place.
    fn run(&mut self, deeds: &[Deed], now: u64, acts: &mut ArrayVec<Act, 8>)
        requires time { now ≤ LAST_TIME }
        requires few { length deeds.now ≤ 6 }
        requires none { acts.old.items ≡ [] }
        ensures after { self.new ≡ all_after deeds.now now self.old }
        ensures acts { acts.new.items ≡ all_wants deeds.now now self.old }
        ensures few { length acts.new.items ≤ 6 }
    {
        for deed in deeds {
            self.take(*deed, now, acts);
        }
    }

    /// Takes one act of a row.
    fn take(&mut self, deed: Deed, now: u64, acts: &mut ArrayVec<Act, 8>)
        requires time { now ≤ LAST_TIME }
        requires room { array_vec_len acts.old < 8 }
        ensures after { self.new ≡ after deed now self.old }
        ensures few { array_vec_len acts.new ≤ array_vec_len acts.old + 1 }
        ensures acts { acts.new.items ≡ acts.old.items ++ wants deed self.old }
    {
        match deed {
            Deed::Enter(state) => {
                self.state = state;
                self.deadlines.stop_all();
                self.sent = false;
                acts.push(Act::DropWaiting);
            }
            Deed::StartDelay => self.deadlines.start(now),
            Deed::SendIdentity => acts.push(Act::SendIdentity(self.identity())),
        }
    }

    /// Whether both engines are in the same record.
    pub fn same(&self, other: &Plug) -> bool
        ensures { IsTrue result ↔ (self.now ≡ other.now) }
    {
        self.state == other.state
            && self.deadlines.same(&other.deadlines)
            && self.sent == other.sent
            && self.cable == other.cable
    }

    /// A copy of the engine, in the same record.
    pub fn copy(&self) -> Plug
        ensures { result ≡ self.now }
    {
        *self
    }
}

#[cfg(test)]
mod tests;
