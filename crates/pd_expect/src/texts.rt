//! Test scripts for the scenarios of texts.

ghost use Rattle.std.specs.Prelude.{◌≡◌, MatchResult, None};
ghost use Rattle.pd_device.specs.declared.fault.BenchFault.TheVariants.{Memory as no_memory};
ghost use Rattle.pd_scene.specs.Scene.{Scene};
ghost use Rattle.pd_expect.specs.Texts.{TestsScene};

use crate::case::Case;
use crate::script::test_script;
use pd_device::BenchFault;
use pd_keep::Kept;
use pd_port::Meter;
use pd_run::Runner;
use pd_scenario::Scenario;
use pd_scene::{Job, JobOn, SceneFault, on_text};
use std::alloc::Global;

// A test script and its name.
#[derive(Drop)]
struct Testing<'a> {
    name: &'a [u8],
    script: &'a [u8],
}

impl Job<Meter> for Testing<'_> {
    type Answer = Vec<Case>;

    ghost needs = { λ j. None };

    ghost does = { λ j n s r old new.
        MatchResult r (λ cases. TestsScene j.name.now j.script.now n s cases.items) (λ fault. fault ≡ no_memory) };

    fn port(&self) -> Option<usize> {
        None
    }
}

impl<const N: usize> JobOn<N, Meter> for Testing<'_> {
    fn on(
        &self,
        alloc: Global,
        scenario: Scenario<N>,
        to: &mut Meter,
    ) -> Result<Vec<Case>, BenchFault>
        ensures { MatchResult result (λ cases. TestsScene self.now.name.now self.now.script.now N scenario.entry cases.items)
            (λ fault. fault ≡ no_memory) }
    {
        let mut run = Kept::<N>::empty(alloc);
        match test_script(alloc, &mut run, scenario, self.name, self.script, to) {
            Ok(cases) => Ok(cases),
            Err(_) => Err(BenchFault::Memory),
        }
    }
}

/// What comes of the lines of a test script of a name, for the scenario of a text, which has 1 to 8 ports. A byte order mark may stand
/// before the first line.
///
/// # Errors
/// `Scenario` where the text is refused; `Job` where there is no memory.
pub fn test_text(
    alloc: Global,
    text: &[u8],
    name: &[u8],
    script: &[u8],
    meter: &mut Meter,
) -> Result<Vec<Case>, SceneFault>
    ensures { Scene None (λ n s r old new. MatchResult r (λ cases. TestsScene name.now script.now n s cases.items)
        (λ fault. fault ≡ no_memory)) result text.now meter.old meter.new }
{
    let testing = Testing { name, script };
    on_text(alloc, text, &testing, meter)
}
