//! Packets lost by lot in runs of the scenarios of texts.

ghost use Rattle.std.specs.Prelude.{◌≡◌, IfErr, IfOk, MatchResult, None};
ghost use Rattle.pd_device.specs.declared.fault.BenchFault.TheVariants.{Memory as memory};
ghost use Rattle.pd_scene.specs.Scene.{EditedScene};
ghost use Rattle.pd_sweep.specs.Trials.{IsBaseOf};
ghost use Rattle.pd_noise.specs.Texts.{IsScriptOf, TellsNoise};
ghost use Rattle.pd_noise.specs.Worsts.{worst_from};

use crate::edits::script;
use crate::losses::lose;
use crate::noisy::noisies_of;
use crate::report::report;
use crate::worst::worst_of;
use crate::{Noise, Runs, Telling, Worst};
use pd_device::BenchFault;
use pd_keep::Kept;
use pd_port::Meter;
use pd_run::Runner;
use pd_scenario::Scenario;
use pd_scene::{Job, JobOn, Refused, SceneFault, on_scene};
use pd_sweep::Base;
use std::alloc::{AllocError, Global};

// What is lost in which runs, and what is told of them.
#[derive(Drop)]
struct Losing<'a> {
    noise: &'a Noise,
    runs: Runs,
    telling: Telling,
}

impl Job<Meter> for Losing<'_> {
    type Answer = Vec<u8>;

    ghost needs = { λ j. j.noise.now.choice.port };

    ghost does = { λ j n s r old new.
        MatchResult r (λ said. TellsNoise n s j.noise.now j.runs j.telling said.items) (λ fault. fault ≡ memory) };

    fn port(&self) -> Option<usize> {
        self.noise.choice.port
    }
}

impl<const N: usize> JobOn<N, Meter> for Losing<'_> {
    fn on(
        &self,
        alloc: Global,
        scenario: Scenario<N>,
        to: &mut Meter,
    ) -> Result<Vec<u8>, BenchFault>
        ensures { MatchResult result (λ said. TellsNoise N scenario.entry self.now.noise.now self.now.runs self.now.telling said.items)
            (λ fault. fault ≡ memory) }
    {
        match told(alloc, scenario, self.noise, self.runs, self.telling, to) {
            Ok(said) => Ok(said),
            Err(_) => Err(BenchFault::Memory),
        }
    }
}

/// The run of a scenario without a loss, and what is kept of it.
fn base_of<const N: usize, T: Runner<N>>(
    alloc: Global,
    run: &mut T,
    scenario: &Scenario<N>,
    meter: &mut Meter,
) -> Result<Base, AllocError>
    ensures { IfOk result (λ base. IsBaseOf scenario.now base) }
{
    run.replace(alloc, scenario, meter)?;
    match Base::of(alloc, run, scenario) {
        Ok(base) => Ok(base),
        Err(_) => Err(AllocError),
    }
}

/// The losses of a run as an edit script; nothing where there is no run.
fn script_of<const N: usize, T: Runner<N>>(
    alloc: Global,
    run: &mut T,
    scenario: Scenario<N>,
    noise: &Noise,
    worst: &Option<Worst>,
    meter: &mut Meter,
) -> Result<Vec<u8>, AllocError>
    ensures { IfOk result (λ said. IsScriptOf N scenario.entry noise.now worst.now said.items) }
{
    let Some(worst) = worst else {
        return Ok(Vec::new(alloc));
    };
    let losses = lose(alloc, run, &scenario, noise, worst.run, meter)?;
    script(alloc, scenario, noise, worst.run, losses.as_slice())
}

/// What is told of runs of a scenario in which packets are lost by lot.
fn told<const N: usize>(
    alloc: Global,
    scenario: Scenario<N>,
    noise: &Noise,
    runs: Runs,
    telling: Telling,
    meter: &mut Meter,
) -> Result<Vec<u8>, AllocError>
    ensures { IfOk result (λ said. TellsNoise N scenario.entry noise.now runs telling said.items) }
{
    let mut run: Kept<N> = Kept::empty(alloc);
    let base = base_of(alloc, &mut run, &scenario, meter)?;
    let noisies = noisies_of(alloc, &mut run, &scenario, &base, noise, runs, meter)?;
    let noisies = noisies.as_slice();
    match telling {
        Telling::Report => report(alloc, noise, runs.first, &base.findings, noisies),
        Telling::Edits => {
            let worst = worst_of(runs.first, noisies);
            script_of(alloc, &mut run, scenario, noise, &worst, meter)
        }
    }
}

/// Loses packets by lot in runs of the scenario of a text, which has 1 to 8 ports, as an edit script leaves it, and tells what they come
/// to, or the losses of the worst. A line of the script that is refused ends it, or changes nothing.
///
/// # Errors
/// `Scenario` where the text is refused, `NoSuchPort` where it hasn't the port that is chosen, `Lines` where a line is refused that
/// ends it; `Job` where there is no memory, or no room for a millionth event of a port.
pub fn noise_text(
    alloc: Global,
    text: &[u8],
    script: &[u8],
    refused: Refused,
    noise: &Noise,
    runs: Runs,
    telling: Telling,
    meter: &mut Meter,
) -> Result<Vec<u8>, SceneFault>
    ensures { EditedScene refused noise.now.choice.port
        (λ n s r old new. MatchResult r (λ said. TellsNoise n s noise.now runs telling said.items) (λ fault. fault ≡ memory))
        script.now result text.now meter.old meter.new }
{
    let losing = Losing {
        noise,
        runs,
        telling,
    };
    on_scene(alloc, text, script, refused, &losing, meter)
}
