//! The running deadlines of the sink's engine, which has five timers.

ghost use Rattle.std.specs.Prelude.{◌≡◌, ◌≤◌, ◌↔◌, IsTrue};
ghost use Rattle.pd_timers.specs.Deadlines.{idle, started, stopped, first_of, IsFirst};
ghost use Rattle.pd_timers.specs.SinkDeadlines.{timer_of};

use crate::deadlines::{IDLE, NONE, sooner};
use crate::{LAST_TIME, Timer, value};
use std::marker::Model;

/// The timers that the sink's engine starts, in the order of ties. `Timer` says what each is.
#[derive(Clone, Copy, Debug)]
pub enum SinkTimer {
    Delay,
    SenderResponse,
    SinkWaitCap,
    PsTransition,
    SinkRequest,
}

impl SinkTimer {
    /// The timer among those of all engines.
    pub fn timer(self) -> Timer
        ensures { result ≡ timer_of self }
    {
        match self {
            SinkTimer::Delay => Timer::Delay,
            SinkTimer::SenderResponse => Timer::SenderResponse,
            SinkTimer::SinkWaitCap => Timer::SinkWaitCap,
            SinkTimer::PsTransition => Timer::PsTransition,
            SinkTimer::SinkRequest => Timer::SinkRequest,
        }
    }
}

/// The running deadlines of the sink's engine, which has five timers, as absolute times in microseconds.
///
/// A contract sees them as `Deadlines`, of which none but those five are running. Each slot holds when its timer falls
/// due, or `IDLE`.
#[derive(Clone, Copy)]
pub struct SinkDeadlines {
    delay: u32,
    sender_response: u32,
    sink_wait_cap: u32,
    ps_transition: u32,
    sink_request: u32,
}

impl Model for SinkDeadlines {
    ghost use Rattle.std.specs.Prelude.{List, Option, ℕ};
    ghost use Rattle.pd_timers.specs.declared.Timer.TheVariants.{Delay, SenderResponse, SinkWaitCap, PsTransition, SinkRequest};
    ghost use Rattle.pd_timers.specs.Slots.{slot_of_time_of};
    ghost use Rattle.pd_timers.specs.SinkDeadlines.{with_five, slot};

    ghost Value = { List (Option ℕ) };

    ghost view = { λ d. with_five d.delay d.sender_response d.sink_wait_cap d.ps_transition d.sink_request };

    ghost inverse = { λ v. record {
      delay = slot v Delay;
      sender_response = slot v SenderResponse;
      sink_wait_cap = slot v SinkWaitCap;
      ps_transition = slot v PsTransition;
      sink_request = slot v SinkRequest;
    } };

    ghost inverse_ok = { λ d h i. record {
      delay = slot_of_time_of d.delay i;
      sender_response = slot_of_time_of d.sender_response i;
      sink_wait_cap = slot_of_time_of d.sink_wait_cap i;
      ps_transition = slot_of_time_of d.ps_transition i;
      sink_request = slot_of_time_of d.sink_request i;
    } };
}

impl SinkDeadlines {
    /// No timer is running.
    pub fn new() -> Self
        ensures { result ≡ idle }
    {
        SinkDeadlines {
            delay: IDLE,
            sender_response: IDLE,
            sink_wait_cap: IDLE,
            ps_transition: IDLE,
            sink_request: IDLE,
        }
    }

    /// Starts a timer at a time in microseconds, up to `LAST_TIME`; anew where it is running.
    pub fn start(&mut self, now: u64, timer: SinkTimer)
        requires { now ≤ LAST_TIME }
        ensures { self.new ≡ started self.old now (timer_of timer) }
    {
        let at = now as u32 + value(timer.timer());
        match timer {
            SinkTimer::Delay => self.delay = at,
            SinkTimer::SenderResponse => self.sender_response = at,
            SinkTimer::SinkWaitCap => self.sink_wait_cap = at,
            SinkTimer::PsTransition => self.ps_transition = at,
            SinkTimer::SinkRequest => self.sink_request = at,
        }
    }

    /// Stops a timer: no other than the five is running.
    pub fn stop(&mut self, timer: Timer)
        ensures { self.new ≡ stopped self.old timer }
    {
        match timer {
            Timer::Delay => self.delay = IDLE,
            Timer::SenderResponse => self.sender_response = IDLE,
            Timer::SinkWaitCap => self.sink_wait_cap = IDLE,
            Timer::PsTransition => self.ps_transition = IDLE,
            Timer::SinkRequest => self.sink_request = IDLE,
            _ => {}
        }
    }

    /// Stops all timers.
    pub fn stop_all(&mut self)
        ensures { self.new ≡ idle }
    {
        *self = SinkDeadlines::new();
    }

    /// The first deadline, and at equal times the first in the order of ties.
    pub fn first(&self) -> Option<(u64, Timer)>
        ensures value { result ≡ first_of self.now }
        ensures least { IsFirst self.now result }
    {
        let first = sooner(NONE, self.delay, Timer::Delay);
        let first = sooner(first, self.sender_response, Timer::SenderResponse);
        let first = sooner(first, self.sink_wait_cap, Timer::SinkWaitCap);
        let first = sooner(first, self.ps_transition, Timer::PsTransition);
        let first = sooner(first, self.sink_request, Timer::SinkRequest);
        first.told()
    }

    /// Whether the same timers run to the same times.
    pub fn same(&self, other: &SinkDeadlines) -> bool
        ensures { IsTrue result ↔ (self.now ≡ other.now) }
    {
        self.delay == other.delay
            && self.sender_response == other.sender_response
            && self.sink_wait_cap == other.sink_wait_cap
            && self.ps_transition == other.ps_transition
            && self.sink_request == other.sink_request
    }
}
