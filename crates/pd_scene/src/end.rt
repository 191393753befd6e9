//! When the run of a scene ends.

ghost use Rattle.std.specs.Prelude.{◌≡◌, None, Ok};
ghost use Rattle.pd_scenario.specs.Plans.{plan_of};
ghost use Rattle.pd_scene.specs.Scene.{EditedScene};

use crate::edits::Refused;
use crate::followed::on_scene;
use crate::job::{Job, JobOn};
use crate::scene::SceneFault;
use pd_device::BenchFault;
use pd_scenario::Scenario;
use std::alloc::Global;

// When the run ends is asked.
#[derive(Drop)]
struct AskingEnd;

impl Job<()> for AskingEnd {
    type Answer = u64;

    ghost needs = { λ j. None };

    ghost does = { λ j n s r old new. r ≡ Ok (plan_of s).end };

    fn port(&self) -> Option<usize> {
        None
    }
}

impl<const N: usize> JobOn<N, ()> for AskingEnd {
    fn on(&self, alloc: Global, scenario: Scenario<N>, to: &mut ()) -> Result<u64, BenchFault>
        ensures { result ≡ Ok (plan_of scenario.entry).end }
    {
        Ok(scenario.end_time())
    }
}

/// When the run ends of the scenario of a text, which has 1 to 8 ports, as an edit script leaves it, in microseconds. A line that is
/// refused ends it, or changes nothing.
///
/// # Errors
/// `Scenario` where the text is refused, `Lines` where a line is refused that ends it, and `Job` where there is no memory for the edits.
pub fn end_of_scene(
    alloc: Global,
    text: &[u8],
    script: &[u8],
    refused: Refused,
) -> Result<u64, SceneFault>
    ensures { EditedScene refused None (λ n s r old new. r ≡ Ok (plan_of s).end) script.now result text.now (tt {0}) (tt {0}) }
{
    on_scene(alloc, text, script, refused, &AskingEnd, &mut ())
}
