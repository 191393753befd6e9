//! The running deadline of an engine that has one timer alone.

ghost use Rattle.std.specs.Prelude.{◌≡◌, ◌≤◌, ◌↔◌, IsTrue};
ghost use Rattle.pd_timers.specs.declared.Timer.TheVariants.{Delay};
ghost use Rattle.pd_timers.specs.Deadlines.{idle, started, stopped, first_of, IsFirst};

use crate::deadlines::IDLE;
use crate::{LAST_TIME, Timer, value};
use std::marker::Model;

/// The running deadline of an engine that has one timer alone, Delay, as an absolute time in microseconds.
///
/// A contract sees it as `Deadlines`, of which no timer but Delay is running.
#[derive(Clone, Copy)]
pub struct DelayAlone {
    /// When Delay falls due, or `IDLE`.
    at: u32,
}

impl Model for DelayAlone {
    ghost use Rattle.std.specs.Prelude.{List, Option, ℕ};
    ghost use Rattle.pd_timers.specs.DelayAlone.{with_delay, delay_slot, delay_slot_with_delay};

    ghost Value = { List (Option ℕ) };

    ghost view = { λ d. with_delay d.at };

    ghost inverse = { λ v. record { at = delay_slot v } };

    ghost inverse_ok = { λ d h i. record { at = delay_slot_with_delay d.at i } };
}

impl DelayAlone {
    /// Delay isn't running.
    pub fn new() -> Self
        ensures { result ≡ idle }
    {
        DelayAlone { at: IDLE }
    }

    /// Starts Delay at a time in microseconds, up to `LAST_TIME`; anew where it is running.
    #[tactic(auto, unfolding(crate::specs::Deadlines::started))]
    pub fn start(&mut self, now: u64)
        requires { now ≤ LAST_TIME }
        ensures { self.new ≡ started self.old now Delay }
    {
        self.at = now as u32 + value(Timer::Delay);
    }

    /// Stops a timer: no other than Delay is running.
    pub fn stop(&mut self, timer: Timer)
        ensures { self.new ≡ stopped self.old timer }
    {
        self.at = match timer {
            Timer::Delay => IDLE,
            _ => self.at,
        };
    }

    /// Stops Delay, so that no timer is running.
    pub fn stop_all(&mut self)
        ensures { self.new ≡ idle }
    {
        self.at = IDLE;
    }

    /// The first deadline: that of Delay, where it is running.
    #[tactic(auto, using(crate::proofs::DelayLemmas::first_is_told))]
    pub fn first(&self) -> Option<(u64, Timer)>
        ensures value { result ≡ first_of self.now }
        ensures least { IsFirst self.now result }
    {
        if self.at == IDLE {
            None
        } else {
            Some((u64::from(self.at), Timer::Delay))
        }
    }

    /// Whether Delay runs to the same time, or neither runs.
    pub fn same(&self, other: &DelayAlone) -> bool
        ensures { IsTrue result ↔ (self.now ≡ other.now) }
    {
        self.at == other.at
    }
}
