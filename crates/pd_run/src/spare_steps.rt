//! Steps that are spare.

ghost use Rattle.std.specs.Prelude.{◌≡◌, ◌⊎◌, ◌+◌, IfOk, true};

use crate::stepped::Stepped;
use crate::timed_port::TimedPort;
use crate::{SharedPort, SharedStep};
use std::alloc::{AllocError, Global};
use std::marker::Model;
use std::mem;
use std::rc::Rc;

/// So many steps are spare at most: some 20 megabytes, and more than an edit of a port's supplies lets go of in the greatest scenario.
const MOST: usize = 16_384;

/// Steps that no run has any more, in whose room later ones are put: that is sooner done than asking for memory again.
#[derive(Drop)]
pub struct SpareSteps {
    steps: Vec<Rc<Stepped>>,
    // For so many blocks the list has a place from when they were made, so that to take them back asks for no memory.
    placed: usize,
}

impl Model for SpareSteps {
    ghost use Rattle.std.specs.Prelude.{ℕ, length};

    ghost Value = { ℕ };

    ghost view = { λ s. length s.steps.items };
}

impl SpareSteps {
    /// None yet.
    pub fn new(alloc: Global) -> SpareSteps
        ensures { result ≡ 0 }
    {
        SpareSteps {
            steps: Vec::new(alloc),
            placed: 0,
        }
    }

    /// Takes back what a step has left of a port, unless there are other owners or enough is spare. It asks for no memory, and no other
    /// is lost.
    pub fn take_port(&mut self, port: SharedPort)
        ensures { (self.new ≡ self.old) ⊎ (self.new ≡ self.old + 1) }
    {
        self.take(port.stepped);
    }

    /// Takes back a step, unless there are other owners or enough is spare. It asks for no memory, and no other is lost.
    pub fn take_step(&mut self, step: SharedStep)
        ensures { (self.new ≡ self.old) ⊎ (self.new ≡ self.old + 1) }
    {
        self.take(step.stepped);
    }

    /// All that are spare, which are none here from now on.
    pub fn take_all(&mut self, alloc: Global) -> SpareSteps
        ensures all { result ≡ self.old }
        ensures none { self.new ≡ 0 }
    {
        mem::replace(self, SpareSteps::new(alloc))
    }

    fn take(&mut self, stepped: Rc<Stepped>)
        ensures { (self.new ≡ self.old) ⊎ (self.new ≡ self.old + 1) }
    {
        if self.steps.len() < self.placed && Rc::strong_count(&stepped) == 1 {
            let _placed = self.steps.push(stepped);
        }
    }

    /// A block for a step, and whether it is known to hold this port: that of a spare step, where there is any, whatever that holds yet,
    /// else one of its own, which holds it.
    pub(crate) fn room(
        &mut self,
        alloc: Global,
        port: &TimedPort,
    ) -> Result<(Rc<Stepped>, bool), AllocError>
        ensures holds { IfOk result (λ r. r.1 ≡ true → r.0.value.port ≡ port.now) }
        ensures own { IfOk result (λ r. self.old ≡ 0 → r.1 ≡ true) }
    {
        if let Some(mut spare) = self.steps.pop() {
            if Rc::get_mut(&mut spare).is_some() {
                return Ok((spare, false));
            }
        }
        if self.placed < MOST {
            self.steps.reserve(self.placed + 1)?;
            self.placed += 1;
        }
        Ok((Rc::new(alloc, Stepped::none(*port))?, true))
    }
}
