//! Values of edit lines varied, for the scenarios of texts.

ghost use Rattle.pd_scene.specs.Outlet.{SameEnds};
ghost use Rattle.pd_scene.specs.Scene.{EditedScene};
ghost use Rattle.pd_vary.specs.Conditions.{asked_port};
ghost use Rattle.pd_vary.specs.Varies.{VariesScene};

use crate::{Kept, Question, vary};
use pd_device::{BenchFault, TextOut};
use pd_port::Meter;
use pd_run::{Plain, Runner};
use pd_scenario::Scenario;
use pd_scene::{Job, JobOn, Outlet, Refused, SceneFault, on_scene};
use std::alloc::Global;

// What is varied and asked.
#[derive(Drop)]
struct Varying<'a> {
    question: &'a Question<'a>,
}

impl<'w, W: TextOut> Job<Outlet<'w, W, Meter>> for Varying<'_> {
    type Answer = Option<Kept>;

    ghost needs = { λ j. asked_port j.question.now.asks.now j.question.now.wheres.now };

    ghost does = { λ j n s r old new. SameEnds old new
        × VariesScene j.question.now n s r (W.taken old.writer.now) (W.taken new.writer.now)
        (W.failures old.writer.now) (W.failures new.writer.now) };

    fn port(&self) -> Option<usize> {
        self.question.port()
    }
}

impl<'w, const N: usize, W: TextOut> JobOn<N, Outlet<'w, W, Meter>> for Varying<'_> {
    fn on(
        &self,
        alloc: Global,
        scenario: Scenario<N>,
        to: &mut Outlet<'w, W, Meter>,
    ) -> Result<Option<Kept>, BenchFault>
        ensures { SameEnds to.old to.new
            × VariesScene self.now.question.now N scenario.entry result
            (W.taken to.old.writer.now) (W.taken to.new.writer.now) (W.failures to.old.writer.now) (W.failures to.new.writer.now) }
    {
        let mut run: Plain<N> = Plain::empty(alloc);
        vary(
            alloc,
            &mut run,
            &scenario,
            self.question,
            to.writer,
            to.meter,
        )
    }
}

/// Makes each combination of values of edit lines on the scenario of a text, which has 1 to 8 ports, as an edit script leaves it, and
/// tells what is asked and expected of its run, as of `vary`. A line of the script that is refused ends it, or changes nothing.
///
/// # Errors
/// `Scenario` where the text is refused, `NoSuchPort` where it hasn't a port of which something is asked or expected, `Lines` where a line
/// is refused that ends it, and nothing is written; `Job` where a run or a write fails, and some first bytes of the text may be written.
pub fn vary_text<W: TextOut>(
    alloc: Global,
    text: &[u8],
    script: &[u8],
    refused: Refused,
    question: &Question<'_>,
    writer: &mut W,
    meter: &mut Meter,
) -> Result<Option<Kept>, SceneFault>
    ensures { EditedScene refused (asked_port question.now.asks.now question.now.wheres.now) (λ n s r old new.
        VariesScene question.now n s r (W.taken old) (W.taken new) (W.failures old) (W.failures new))
        script.now result text.now writer.old writer.new }
{
    let varying = Varying { question };
    let mut outlet = Outlet { writer, meter };
    let answer = on_scene(alloc, text, script, refused, &varying, &mut outlet);
    let Outlet {
        writer: _,
        meter: _,
    } = outlet;
    answer
}
