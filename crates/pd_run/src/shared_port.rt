//! A port that runs share.

ghost use Rattle.std.specs.Prelude.{◌≡◌, ◌↔◌, ◌≤◌, IfOk, OnOk, OnErr, IsTrue};
ghost use Rattle.std.specs.Option.{option_copied};
ghost use Rattle.pd_port.specs.Meter.{raised};
ghost use Rattle.pd_port.specs.Port.{due as the_due, ask, record_after, hold};
ghost use Rattle.pd_run.specs.Stepped.{step_of};

use crate::stepped::Stepped;
use crate::timed_port::TimedPort;
use crate::{SharedStep, SpareSteps};
use pd_objects::{Answer, Query};
use pd_port::{Due, Event, Meter, Port};
use pd_timers::LAST_TIME;
use std::alloc::{AllocError, Global};
use std::marker::Model;
use std::rc::Rc;

/// A port as it stands, which runs and what is kept of them may share. Its step leaves it in a block of its own.
#[derive(Drop)]
pub struct SharedPort {
    pub(crate) stepped: Rc<Stepped>,
}

impl Model for SharedPort {
    ghost use Rattle.pd_port.specs.Port.{PortData};

    ghost Value = { PortData };

    ghost view = { λ p. p.stepped.value.port };
}

impl SharedPort {
    /// A port that nobody else has yet, which has made no step.
    ///
    /// # Errors
    /// There is no memory.
    pub fn new(alloc: Global, port: Port) -> Result<SharedPort, AllocError>
        ensures { IfOk result (λ shared. shared ≡ port) }
    {
        Ok(SharedPort {
            stepped: Rc::new(alloc, Stepped::none(TimedPort::new(port)))?,
        })
    }

    /// The same port for one more owner.
    ///
    /// # Errors
    /// It has more owners than can be counted.
    pub fn share(&self) -> Result<SharedPort, AllocError>
        ensures { IfOk result (λ shared. shared ≡ self.now) }
    {
        Ok(SharedPort {
            stepped: self.stepped.clone()?,
        })
    }

    /// The port as it stands.
    pub fn port(&self) -> &Port
        ensures { result.now ≡ self.now }
    {
        self.stepped.port.port()
    }

    /// Whether the port is set to the same as another, and has the same record.
    #[inline(always)]
    pub fn stands_as(&self, other: &Port) -> bool
        ensures { IsTrue result ↔ (self.now ≡ other.now) }
    {
        let port = self.port();
        port.same(other) && port.same_settings(other)
    }

    /// What the port asks of the shared budget before the step for this due.
    pub fn ask(&self, due: &Due) -> Option<Query>
        ensures { result ≡ ask self.now.settings self.now.port_record due.now }
    {
        self.stepped.port.ask(due)
    }

    /// What the port holds of the shared budget, in microwatts.
    pub fn hold(&self) -> u64
        ensures { result ≡ hold self.now.settings self.now.port_record }
    {
        self.stepped.port.hold()
    }

    /// What falls due next on the port, whose next event is given.
    pub fn due(&self, next: Option<&Event>) -> Option<Due>
        ensures { result ≡ the_due self.now.port_record (option_copied next.entry) }
    {
        self.stepped.port.due(next)
    }

    /// The step for this due, with what the port asks and the answer to it. The meter rises by one. Other owners keep the port as it was.
    ///
    /// # Errors
    /// There is no memory. The port stands as it stood.
    pub fn step(
        &mut self,
        alloc: Global,
        spare: &mut SpareSteps,
        due: &Due,
        query: Option<Query>,
        answer: Option<Answer>,
        meter: &mut Meter,
    ) -> Result<SharedStep, AllocError>
        requires time { due.now.time ≤ LAST_TIME }
        requires asks { query ≡ ask self.old.settings self.old.port_record due.now }
        ensures after { OnOk result (self.new ≡ record self.old {
          port_record = record_after self.old.settings self.old.port_record due.now answer;
        }) }
        ensures step { IfOk result (λ step. step ≡ step_of self.old due.now answer) }
        ensures meter { OnOk result (meter.new ≡ raised meter.old 1) }
        ensures rises { meter.old ≤ meter.new }
        ensures same { OnErr result (self.new ≡ self.old) }
    {
        let _count = meter.count();
        let (mut stepped, stands) = spare.room(alloc, &self.stepped.port)?;
        let Some(room) = Rc::get_mut(&mut stepped) else {
            return Err(AllocError);
        };
        // It is stepped from where it stood: what has just been written isn't read again.
        room.port.step_from(
            &self.stepped.port,
            stands,
            due,
            query,
            &answer,
            meter,
            &mut room.entry,
        );
        room.answer = answer;
        let step = SharedStep { stepped };
        self.stepped = step.stepped.clone()?;
        Ok(step)
    }
}
