//! Edit scripts that are explained, for the scenarios of texts.

ghost use Rattle.std.specs.Prelude.{None};
ghost use Rattle.pd_scene.specs.Outlet.{SameEnds};
ghost use Rattle.pd_scene.specs.Scene.{Scene};
ghost use Rattle.pd_explain_text.specs.Texts.{ExplainsScene};

use crate::form::Telling;
use crate::script::explain;
use pd_device::{BenchFault, TextOut};
use pd_port::Meter;
use pd_scenario::Scenario;
use pd_scene::{Job, JobOn, Outlet, SceneFault, on_text};
use std::alloc::Global;

// A script, and how it is explained.
#[derive(Drop)]
struct Explaining<'a, 'b> {
    telling: &'a Telling<'b>,
    script: &'a [u8],
}

impl<'w, W: TextOut> Job<Outlet<'w, W, Meter>> for Explaining<'_, '_> {
    type Answer = bool;

    ghost needs = { λ j. None };

    ghost does = { λ j n s r old new. SameEnds old new
        × ExplainsScene j.telling.now.warns j.telling.now.form j.telling.now.file.now j.telling.now.edits.now j.script.now n s r
        (W.taken old.writer.now) (W.taken new.writer.now) (W.failures old.writer.now) (W.failures new.writer.now) };

    fn port(&self) -> Option<usize> {
        None
    }
}

impl<'w, const N: usize, W: TextOut> JobOn<N, Outlet<'w, W, Meter>> for Explaining<'_, '_> {
    fn on(
        &self,
        alloc: Global,
        scenario: Scenario<N>,
        to: &mut Outlet<'w, W, Meter>,
    ) -> Result<bool, BenchFault>
        ensures { SameEnds to.old to.new
            × ExplainsScene self.now.telling.now.warns self.now.telling.now.form self.now.telling.now.file.now
            self.now.telling.now.edits.now self.now.script.now N scenario.entry result
            (W.taken to.old.writer.now) (W.taken to.new.writer.now) (W.failures to.old.writer.now) (W.failures to.new.writer.now) }
    {
        explain(
            alloc,
            self.telling,
            scenario,
            self.script,
            to.meter,
            to.writer,
        )
    }
}

/// Writes why lines of an edit script are refused, for the scenario of a text, which has 1 to 8 ports: a line for each place at
/// which the rule of a refusal is broken, behind the script's name and the number of its line, before the next line of the script
/// is looked at. Where that is wanted, it tells then what the scenario is warned of, as the script leaves it. The answer is
/// whether a line is refused. The text is read once, so what is written without a fault is all of it.
///
/// # Errors
/// `Scenario` where the text is refused, and nothing is written; `Job` where there was no memory or the writer failed, and some
/// first bytes may be written. No port has to be there, so `NoSuchPort` is none of them.
pub fn explain_text<W: TextOut>(
    alloc: Global,
    text: &[u8],
    telling: &Telling<'_>,
    script: &[u8],
    meter: &mut Meter,
    writer: &mut W,
) -> Result<bool, SceneFault>
    ensures { Scene None (λ n s r old new. ExplainsScene telling.now.warns telling.now.form telling.now.file.now telling.now.edits.now
        script.now n s r (W.taken old) (W.taken new) (W.failures old) (W.failures new)) result text.now writer.old writer.new }
{
    let mut outlet = Outlet { writer, meter };
    let answer = on_text(alloc, text, &Explaining { telling, script }, &mut outlet);
    let Outlet {
        writer: _,
        meter: _,
    } = outlet;
    answer
}
