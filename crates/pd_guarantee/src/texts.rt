//! What is sure for each port of a charger, for the scenarios of texts.

ghost use Rattle.std.specs.Prelude.{◌≡◌, IfOk, MatchResult, None};
ghost use Rattle.pd_device.specs.declared.fault.BenchFault.TheVariants.{Memory as memory};
ghost use Rattle.pd_scene.specs.Scene.{EditedScene};
ghost use Rattle.pd_guarantee.specs.Charger.{charger_of};
ghost use Rattle.pd_guarantee.specs.Tellings.{charger_text};

use crate::budgets::{greatest_mw, least_mw};
use crate::{Form, push_charger};
use pd_device::BenchFault;
use pd_scenario::Scenario;
use pd_scene::{Job, JobOn, Refused, SceneFault, on_scene};
use std::alloc::{AllocError, Global};

// In which form a charger is told of.
#[derive(Drop)]
struct Telling {
    form: Form,
}

impl Job<()> for Telling {
    type Answer = Vec<u8>;

    ghost needs = { λ j. None };

    ghost does = { λ j n s r old new.
        MatchResult r (λ said. said.items ≡ charger_text j.form (charger_of s)) (λ fault. fault ≡ memory) };

    fn port(&self) -> Option<usize> {
        None
    }
}

impl<const N: usize> JobOn<N, ()> for Telling {
    fn on(&self, alloc: Global, scenario: Scenario<N>, to: &mut ()) -> Result<Vec<u8>, BenchFault>
        ensures { MatchResult result (λ said. said.items ≡ charger_text self.now.form (charger_of scenario.entry))
            (λ fault. fault ≡ memory) }
    {
        match guarantee(alloc, &scenario, self.form) {
            Ok(said) => Ok(said),
            Err(_) => Err(BenchFault::Memory),
        }
    }
}

/// What is sure for each port of the charger of a text's scenario, which has 1 to 8 ports, as an edit script leaves it: a line for the
/// port and one for each of its supplies, in a form. Its cables and sinks don't count, and of its events the changes of the budget up to
/// the end alone. A line that is refused ends it, or changes nothing.
///
/// # Errors
/// `Scenario` where the text is refused, and `Lines` where a line is refused that ends it; `Job` where there is no memory.
pub fn guarantee_text(
    alloc: Global,
    text: &[u8],
    script: &[u8],
    refused: Refused,
    form: Form,
) -> Result<Vec<u8>, SceneFault>
    ensures { EditedScene refused None
        (λ n s r old new. MatchResult r (λ said. said.items ≡ charger_text form (charger_of s)) (λ fault. fault ≡ memory))
        script.now result text.now (tt {0}) (tt {0}) }
{
    on_scene(alloc, text, script, refused, &Telling { form }, &mut ())
}

/// What is sure for each port of a scenario's charger, in a form: a line for the port and one for each of its supplies. Its cables and
/// sinks don't count, and of its events the changes of the budget up to the end alone.
///
/// # Errors
/// There is no memory for it.
#[tactic(auto, unfolding(crate::specs::Charger::charger_of))]
pub fn guarantee<const N: usize>(
    alloc: Global,
    scenario: &Scenario<N>,
    form: Form,
) -> Result<Vec<u8>, AllocError>
    ensures { IfOk result (λ said. said.items ≡ charger_text form (charger_of scenario.now)) }
{
    let (start, end) = (scenario.budget_mw(), scenario.end_us());
    let least = u64::from(least_mw(start, end, scenario.events())) * 1_000;
    let greatest = u64::from(greatest_mw(start, end, scenario.events())) * 1_000;
    let mut said = Vec::new(alloc);
    push_charger(&mut said, form, scenario.ports(), least, greatest)?;
    Ok(said)
}
