//! Jobs on scenarios as edit scripts leave them.

ghost use Rattle.std.specs.Prelude.{◌≡◌};
ghost use Rattle.pd_scene.specs.Scene.{EditedScene, follows, is_ended};

use crate::edits::{Refused, follow};
use crate::job::{Job, JobOn};
use crate::scene::{SceneFault, on_text};
use pd_device::BenchFault;
use pd_scenario::Scenario;
use std::alloc::Global;

// A job that is done on the scenario as an edit script leaves it. It answers nothing where a refused line ends it.
#[derive(Drop)]
struct Followed<'a, J> {
    script: &'a [u8],
    refused: Refused,
    job: &'a J,
}

/// Whether a script ends a job of which any line is refused, or none.
fn is_ended(refused: Refused, any: bool) -> bool
    ensures { result ≡ is_ended refused any }
{
    match refused {
        Refused::Ends => any,
        Refused::Skipped => false,
    }
}

impl<W, J: Job<W>> Job<W> for Followed<'_, J> {
    type Answer = Option<J::Answer>;

    ghost needs = { λ f. J.needs f.job.now };

    ghost does = { λ f. follows f.refused (J.does f.job.now) f.script.now };

    fn port(&self) -> Option<usize> {
        self.job.port()
    }
}

impl<const N: usize, W, J: JobOn<N, W>> JobOn<N, W> for Followed<'_, J> {
    fn on(
        &self,
        alloc: Global,
        scenario: Scenario<N>,
        to: &mut W,
    ) -> Result<Option<J::Answer>, BenchFault>
        ensures { follows self.now.refused (J.does self.now.job.now) self.now.script.now N scenario.entry result to.old to.new }
    {
        let mut scenario = scenario;
        let Ok(any) = follow(alloc, &mut scenario, self.script) else {
            return Err(BenchFault::Memory);
        };
        if is_ended(self.refused, any) {
            return Ok(None);
        }
        match self.job.on(alloc, scenario, to) {
            Ok(answer) => Ok(Some(answer)),
            Err(fault) => Err(fault),
        }
    }
}

/// Hands the scenario of a text, which has 1 to 8 ports, to a job, as an edit script leaves it. A line that is refused ends it, or
/// changes nothing.
///
/// # Errors
/// As `on_text`; `Lines` where a line is refused that ends it, and `Job` too where there is no memory for the edits, and `to` is as it
/// was.
pub fn on_scene<W, J>(
    alloc: Global,
    text: &[u8],
    script: &[u8],
    refused: Refused,
    job: &J,
    to: &mut W,
) -> Result<J::Answer, SceneFault>
where
    J: JobOn<1, W>
        + JobOn<2, W>
        + JobOn<3, W>
        + JobOn<4, W>
        + JobOn<5, W>
        + JobOn<6, W>
        + JobOn<7, W>
        + JobOn<8, W>,
    ensures { EditedScene refused (J.needs job.now) (J.does job.now) script.now result text.now to.old to.new }
{
    let followed = Followed {
        script,
        refused,
        job,
    };
    match on_text(alloc, text, &followed, to) {
        Ok(Some(answer)) => Ok(answer),
        Ok(None) => Err(SceneFault::Lines),
        Err(fault) => Err(fault),
    }
}
