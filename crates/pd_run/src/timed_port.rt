//! A port with what is worked out of it.

ghost use Rattle.std.specs.Prelude.{◌≡◌, ◌≤◌, None, IsTrue, true};
ghost use Rattle.std.specs.Option.{option_copied};
ghost use Rattle.pd_port.specs.Meter.{raised};
ghost use Rattle.pd_port.specs.Port.{due as the_due, ask, record_after, entry_of, hold};
ghost use Rattle.pd_port.specs.OwnDue.{told_due};
ghost use Rattle.pd_run.specs.Timed.{asks_at, own_due};

use pd_objects::{Answer, Query};
use pd_port::{Due, Entry, Event, Meter, OwnDue, Port, What};
use pd_timers::LAST_TIME;
use std::marker::Model;

/// A port, and what is worked out once after each of its steps: what falls due on it but for events, whether it asks anything then,
/// and what it holds.
#[derive(Clone, Copy)]
pub(crate) struct TimedPort {
    hold: u64,
    asks: bool,
    own: OwnDue,
    port: Port,
}

impl Model for TimedPort {
    ghost use Rattle.std.specs.Prelude.{◌≡◌};
    ghost use Rattle.std.proofs.Common.{sym};
    ghost use Rattle.pd_port.specs.Port.{PortData, hold as held};
    ghost use Rattle.pd_port.specs.OwnDue.{told_due};
    ghost use Rattle.pd_run.specs.Timed.{own_due, own_of, own_is, asks_at};

    ghost Value = { PortData };

    ghost view = { λ p. p.port };

    ghost invariant = { λ p. (p.hold ≡ held p.port.settings p.port.port_record) × (told_due p.own ≡ own_due p.port)
        × (p.asks ≡ asks_at p.port (own_due p.port)) };

    ghost inverse = { λ v. record {
      hold = held v.settings v.port_record;
      asks = asks_at v (own_due v);
      own = own_of (own_due v);
      port = v;
    } };

    ghost inverse_ok = { λ p h i. record {
      hold = sym h.0 i;
      asks = sym h.2 i;
      own = own_is p.own (own_due p.port) h.1 i;
      port = p.port;
    } };
}

impl TimedPort {
    /// A port that stands so.
    pub(crate) fn new(port: Port) -> TimedPort
        ensures { result ≡ port }
    {
        let own = port.own_due();
        TimedPort {
            hold: port.hold(),
            asks: asks_at(&port, &own),
            own,
            port,
        }
    }

    /// The port as it stands.
    pub(crate) fn port(&self) -> &Port
        ensures { result.now ≡ self.now }
    {
        &self.port
    }

    /// What the port holds of the shared budget, in microwatts.
    pub(crate) fn hold(&self) -> u64
        ensures { result ≡ hold self.now.settings self.now.port_record }
    {
        self.hold
    }

    /// What the port asks before the step for this due. Most dues ask nothing, and then the port itself isn't read.
    #[inline(always)]
    pub(crate) fn ask(&self, due: &Due) -> Option<Query>
        ensures { result ≡ ask self.now.settings self.now.port_record due.now }
    {
        if self.is_quiet_at(due) {
            return None;
        }
        self.port.ask(due)
    }

    // Whether it is known that the port asks nothing then.
    fn is_quiet_at(&self, due: &Due) -> bool
        ensures { IsTrue result → ask self.now.settings self.now.port_record due.now ≡ None }
    {
        match self.own_due() {
            Some(own) => !self.asks && own.same(due),
            None => false,
        }
    }

    // What falls due but for events.
    fn own_due(&self) -> Option<Due>
        ensures { result ≡ own_due self.now }
    {
        self.own.due()
    }

    /// What falls due next, where this is the next event.
    #[tactic(auto, unfolding(pd_port::specs::Port::due, pd_port::specs::Port::is_before))]
    pub(crate) fn due(&self, next: Option<&Event>) -> Option<Due>
        ensures { result ≡ the_due self.now.port_record (option_copied next.entry) }
    {
        let Some(event) = next else {
            return self.own_due();
        };
        let time = event.at();
        if let Some(own) = self.own_due() {
            if own.time < time {
                return Some(own);
            }
        }
        Some(Due {
            time,
            what: What::Event(*event),
        })
    }

    /// The port becomes what the step of another one for this due leaves, with what that one asked and the answer to it, and the step's
    /// entry is put in its place. It is said whether the port stands as the other one already. The meter rises by one.
    pub(crate) fn step_from(
        &mut self,
        before: &TimedPort,
        stands: bool,
        due: &Due,
        query: Option<Query>,
        answer: &Option<Answer>,
        meter: &mut Meter,
        entry: &mut Entry,
    )
        requires time { due.now.time ≤ LAST_TIME }
        requires stands { stands ≡ true → self.old ≡ before.now }
        requires asks { query ≡ ask before.now.settings before.now.port_record due.now }
        ensures after { self.new ≡ record before.now {
          port_record = record_after before.now.settings before.now.port_record due.now answer.now;
        } }
        ensures entry { entry.new ≡ entry_of before.now.settings before.now.port_record due.now answer.now }
        ensures meter { meter.new ≡ raised meter.old 1 }
    {
        self.port
            .step_into(&before.port, stands, due, query, answer, meter, entry);
        let own = self.port.own_due();
        self.own = own;
        self.asks = asks_at(&self.port, &own);
        self.hold = self.port.hold();
    }
}

// Whether a port asks anything of the shared budget at what falls due on it but for events, where anything does.
#[inline(always)]
fn asks_at(port: &Port, own: &OwnDue) -> bool
    ensures { result ≡ asks_at port.now (told_due own.now) }
{
    match own.due() {
        Some(due) => port.asks(&due),
        None => false,
    }
}
