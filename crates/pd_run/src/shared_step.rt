//! A step that runs share.

ghost use Rattle.std.specs.Prelude.{◌≡◌, ◌↔◌, ◌<◌, IfOk, IsTrue};
ghost use Rattle.pd_port.specs.Port.{hold};

use crate::SharedPort;
use crate::stepped::Stepped;
use pd_objects::Answer;
use pd_port::Entry;
use std::alloc::AllocError;
use std::marker::Model;
use std::rc::Rc;

/// A step that a port has made, which runs may share: the port as it left it, the answer to what the port had asked, and what it left to
/// be read.
#[derive(Drop)]
pub struct SharedStep {
    pub(crate) stepped: Rc<Stepped>,
}

impl Model for SharedStep {
    ghost use Rattle.pd_run.specs.Stepped.{StepData};

    ghost Value = { StepData };

    ghost view = { λ s. record { after = s.stepped.value.port; answer = s.stepped.value.answer; entry = s.stepped.value.entry } };
}

impl SharedStep {
    /// The same step for one more owner.
    ///
    /// # Errors
    /// It has more owners than can be counted.
    pub fn share(&self) -> Result<SharedStep, AllocError>
        ensures { IfOk result (λ shared. shared ≡ self.now) }
    {
        Ok(SharedStep {
            stepped: self.stepped.clone()?,
        })
    }

    /// How many owners it has.
    pub fn owners(&self) -> usize
        ensures { 0 < result }
    {
        Rc::strong_count(&self.stepped)
    }

    /// The port as the step has left it, for one more owner.
    ///
    /// # Errors
    /// It has more owners than can be counted.
    pub fn after(&self) -> Result<SharedPort, AllocError>
        ensures { IfOk result (λ shared. shared ≡ self.now.after) }
    {
        Ok(SharedPort {
            stepped: self.stepped.clone()?,
        })
    }

    /// What the port holds of the shared budget after the step, in microwatts.
    pub fn hold(&self) -> u64
        ensures { result ≡ hold self.now.after.settings self.now.after.port_record }
    {
        self.stepped.port.hold()
    }

    /// The answer to what the port had asked.
    pub fn answer(&self) -> &Option<Answer>
        ensures { result.now ≡ self.now.answer }
    {
        &self.stepped.answer
    }

    /// Whether the port had asked and was answered so, or had not, where no answer is given.
    pub fn has_answer(&self, answer: &Option<Answer>) -> bool
        ensures { IsTrue result ↔ (self.now.answer ≡ answer.now) }
    {
        match (&self.stepped.answer, answer) {
            (None, None) => true,
            (Some(answer), Some(other)) => answer.same(other),
            _ => false,
        }
    }

    /// What the step left to be read.
    pub fn entry(&self) -> &Entry
        ensures { result.now ≡ self.now.entry }
    {
        &self.stepped.entry
    }
}
