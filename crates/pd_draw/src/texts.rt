//! Pictures of runs, for the scenarios of texts.

ghost use Rattle.std.specs.Prelude.{◌≡◌, MatchResult};
ghost use Rattle.pd_device.specs.declared.fault.BenchFault.TheVariants.{Memory as memory};
ghost use Rattle.pd_scenario.specs.Plans.{plan_of};
ghost use Rattle.pd_scene.specs.Scene.{EditedScene};
ghost use Rattle.pd_draw.specs.Picture.{DrewRun};

use crate::{Look, draw};
use pd_port::Meter;
use pd_run::Plan;
use pd_scenario::Scenario;
use pd_scene::{BenchFault, Job, JobOn, Refused, SceneFault, on_scene};
use std::alloc::Global;

// What a run is drawn as, and whose it is.
#[derive(Drop)]
struct Drawing<'a> {
    look: Look,
    name: &'a [u8],
}

impl Job<Meter> for Drawing<'_> {
    type Answer = Vec<u8>;

    ghost needs = { λ d. d.look.port };

    ghost does = { λ d n s r old new. MatchResult r (λ drawn. DrewRun (plan_of s) d.look d.name.now drawn.items)
        (λ fault. fault ≡ memory) };

    fn port(&self) -> Option<usize> {
        self.look.port
    }
}

impl<const N: usize> JobOn<N, Meter> for Drawing<'_> {
    fn on(
        &self,
        alloc: Global,
        scenario: Scenario<N>,
        to: &mut Meter,
    ) -> Result<Vec<u8>, BenchFault>
        ensures { MatchResult result (λ drawn. DrewRun (plan_of scenario.entry) self.now.look self.now.name.now drawn.items)
            (λ fault. fault ≡ memory) }
    {
        let Ok(plan) = Plan::of_scenario(alloc, &scenario) else {
            return Err(BenchFault::Memory);
        };
        match draw(alloc, &plan, self.look, self.name, to) {
            Ok(drawn) => Ok(drawn),
            Err(_) => Err(BenchFault::Memory),
        }
    }
}

/// Draws the run of the scenario of a text, which has 1 to 8 ports, as an edit script leaves it. A line that is refused ends
/// it, or changes nothing. The name says whose run it is, and stands beside the title; an empty one doesn't.
///
/// # Errors
/// `Scenario` where the text is refused, `NoSuchPort` where it hasn't the port that is chosen, `Lines` where a line is refused that
/// ends it, and `Job` where there is no memory.
pub fn draw_text(
    alloc: Global,
    text: &[u8],
    script: &[u8],
    refused: Refused,
    look: Look,
    name: &[u8],
    meter: &mut Meter,
) -> Result<Vec<u8>, SceneFault>
    ensures { EditedScene refused look.port
        (λ n s r old new. MatchResult r (λ drawn. DrewRun (plan_of s) look name.now drawn.items) (λ fault. fault ≡ memory))
        script.now result text.now meter.old meter.new }
{
    let drawing = Drawing { look, name };
    on_scene(alloc, text, script, refused, &drawing, meter)
}
