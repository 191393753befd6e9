//! Runs that are shown, for the scenarios of texts.

ghost use Rattle.pd_scene.specs.Outlet.{SameEnds};
ghost use Rattle.pd_scene.specs.Scene.{EditedScene};
ghost use Rattle.pd_show.specs.Texts.{ShowsScene};

use crate::{Choice, show};
use pd_device::{BenchFault, TextOut};
use pd_port::Meter;
use pd_run::Plan;
use pd_scenario::Scenario;
use pd_scene::{Job, JobOn, Outlet, Refused, SceneFault, on_scene};
use std::alloc::Global;

// What of a run is shown.
#[derive(Drop)]
struct Showing<'a> {
    choice: &'a Choice,
}

impl<'w, W: TextOut> Job<Outlet<'w, W, Meter>> for Showing<'_> {
    type Answer = ();

    ghost needs = { λ j. j.choice.now.port };

    ghost does = { λ j n s r old new. SameEnds old new
        × ShowsScene j.choice.now s r (W.taken old.writer.now) (W.taken new.writer.now)
        (W.failures old.writer.now) (W.failures new.writer.now) };

    fn port(&self) -> Option<usize> {
        self.choice.port
    }
}

impl<'w, const N: usize, W: TextOut> JobOn<N, Outlet<'w, W, Meter>> for Showing<'_> {
    fn on(
        &self,
        alloc: Global,
        scenario: Scenario<N>,
        to: &mut Outlet<'w, W, Meter>,
    ) -> Result<(), BenchFault>
        ensures { SameEnds to.old to.new
            × ShowsScene self.now.choice.now scenario.entry result (W.taken to.old.writer.now) (W.taken to.new.writer.now)
            (W.failures to.old.writer.now) (W.failures to.new.writer.now) }
    {
        let Ok(plan) = Plan::of_scenario(alloc, &scenario) else {
            return Err(BenchFault::Memory);
        };
        show(alloc, &plan, self.choice, to.writer, to.meter)
    }
}

/// Shows the run of the scenario of a text, which has 1 to 8 ports, as an edit script leaves it. A line that is refused ends
/// it, or changes nothing.
///
/// # Errors
/// `Scenario` where the text is refused, `NoSuchPort` where it hasn't the port that is chosen, `Lines` where a line is refused that
/// ends it, and nothing is written; `Job` where the run fails, and some first bytes of its text may be written.
pub fn show_text<W: TextOut>(
    alloc: Global,
    text: &[u8],
    script: &[u8],
    refused: Refused,
    choice: &Choice,
    writer: &mut W,
    meter: &mut Meter,
) -> Result<(), SceneFault>
    ensures { EditedScene refused choice.now.port
        (λ n s r old new. ShowsScene choice.now s r (W.taken old) (W.taken new) (W.failures old) (W.failures new))
        script.now result text.now writer.old writer.new }
{
    let mut outlet = Outlet { writer, meter };
    let answer = on_scene(
        alloc,
        text,
        script,
        refused,
        &Showing { choice },
        &mut outlet,
    );
    let Outlet {
        writer: _,
        meter: _,
    } = outlet;
    answer
}
