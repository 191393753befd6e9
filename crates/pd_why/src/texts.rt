//! What bounds a port, for the scenarios of texts.

ghost use Rattle.std.specs.Prelude.{◌≡◌, [], IfOk, MatchResult, Some};
ghost use Rattle.pd_device.specs.declared.fault.BenchFault.TheVariants.{Memory as memory};
ghost use Rattle.pd_scenario.specs.Plans.{plan_of};
ghost use Rattle.pd_scene.specs.Scene.{EditedScene};
ghost use Rattle.pd_why.specs.Answers.{TellsWhy};

use crate::{Form, Question, why};
use pd_device::BenchFault;
use pd_port::Meter;
use pd_run::Plan;
use pd_scenario::Scenario;
use pd_scene::{Job, JobOn, Refused, SceneFault, on_scene};
use std::alloc::{AllocError, Global};

// What is asked, and in which form it is told.
#[derive(Drop)]
struct Asking<'a> {
    question: &'a Question,
    form: Form,
}

impl Job<Meter> for Asking<'_> {
    type Answer = Vec<u8>;

    ghost needs = { λ j. Some j.question.now.port };

    ghost does = { λ j n s r old new.
        MatchResult r (λ said. TellsWhy j.form (plan_of s) j.question.now [] said.items) (λ fault. fault ≡ memory) };

    fn port(&self) -> Option<usize> {
        Some(self.question.port)
    }
}

impl<const N: usize> JobOn<N, Meter> for Asking<'_> {
    fn on(
        &self,
        alloc: Global,
        scenario: Scenario<N>,
        to: &mut Meter,
    ) -> Result<Vec<u8>, BenchFault>
        ensures { MatchResult result (λ said. TellsWhy self.now.form (plan_of scenario.entry) self.now.question.now [] said.items)
            (λ fault. fault ≡ memory) }
    {
        match tell(alloc, &scenario, self.question, self.form, to) {
            Ok(said) => Ok(said),
            Err(_) => Err(BenchFault::Memory),
        }
    }
}

/// What bounds a port in the run of the scenario of a text, which has 1 to 8 ports, as an edit script leaves it: each fact in a form.
/// A line that is refused ends it, or changes nothing. The meter rises by one for each move of the run.
///
/// # Errors
/// `Scenario` where the text is refused, `NoSuchPort` where it hasn't the port and `Lines` where a line is refused that ends it; `Job`
/// where there is no memory.
pub fn why_text(
    alloc: Global,
    text: &[u8],
    script: &[u8],
    refused: Refused,
    question: &Question,
    form: Form,
    meter: &mut Meter,
) -> Result<Vec<u8>, SceneFault>
    ensures { EditedScene refused (Some question.now.port)
        (λ n s r old new. MatchResult r (λ said. TellsWhy form (plan_of s) question.now [] said.items)
        (λ fault. fault ≡ memory)) script.now result text.now meter.old meter.new }
{
    on_scene(
        alloc,
        text,
        script,
        refused,
        &Asking { question, form },
        meter,
    )
}

// What bounds a port of a scenario.
fn tell<const N: usize>(
    alloc: Global,
    scenario: &Scenario<N>,
    question: &Question,
    form: Form,
    meter: &mut Meter,
) -> Result<Vec<u8>, AllocError>
    ensures { IfOk result (λ said. TellsWhy form (plan_of scenario.now) question.now [] said.items) }
{
    let plan = Plan::of_scenario(alloc, scenario)?;
    let mut said = Vec::new(alloc);
    why(alloc, &plan, question, form, meter, &mut said)?;
    Ok(said)
}
