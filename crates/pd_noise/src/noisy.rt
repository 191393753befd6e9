//! What runs with losses by lot come to.

ghost use Rattle.std.specs.Prelude.{◌≡◌, ◌+◌, IfOk, length};
ghost use Rattle.pd_sweep.specs.Trials.{IsBaseOf};
ghost use Rattle.pd_noise.specs.Noisies.{AreNoisy, IsNoisy};

use crate::losses::lose;
use crate::{Noise, Runs};
use pd_port::Meter;
use pd_run::Runner;
use pd_scenario::Scenario;
use pd_sweep::{Base, Effect};
use std::alloc::{AllocError, Global};

/// What a run with losses by lot comes to: how many packets are lost in it, and what that leads to.
#[derive(Clone, Copy, Debug)]
pub struct Noisy {
    pub lost: usize,
    pub effect: Effect,
}

/// Loses packets of the run of a scenario by lot, in the run of a number, beside the run without a loss, of which the base is kept.
///
/// # Errors
/// There is no memory, or no room for a millionth event of a port.
pub fn noisy_of<const N: usize, T: Runner<N>>(
    alloc: Global,
    run: &mut T,
    scenario: &Scenario<N>,
    base: &Base,
    noise: &Noise,
    number: u64,
    meter: &mut Meter,
) -> Result<Noisy, AllocError>
    requires { IsBaseOf scenario.now base.now }
    ensures { IfOk result (λ noisy. IsNoisy scenario.now noise.now number noisy) }
{
    let losses = lose(alloc, run, scenario, noise, number, meter)?;
    let effect = Effect::of(alloc, run, scenario, base, scenario.end_time())?;
    Ok(Noisy {
        lost: losses.as_slice().len(),
        effect,
    })
}

/// So does each of some runs.
pub(crate) fn noisies_of<const N: usize, T: Runner<N>>(
    alloc: Global,
    run: &mut T,
    scenario: &Scenario<N>,
    base: &Base,
    noise: &Noise,
    runs: Runs,
    meter: &mut Meter,
) -> Result<Vec<Noisy>, AllocError>
    requires { IsBaseOf scenario.now base.now }
    ensures count { IfOk result (λ noisies. length noisies.items ≡ runs.count) }
    ensures each { IfOk result (λ noisies. AreNoisy scenario.now noise.now runs.first noisies.items) }
{
    let mut noisies = Vec::new(alloc);
    for index in 0..runs.count {
        let number = u64::from(runs.first) + u64::from(index);
        noisies.push(noisy_of(alloc, run, scenario, base, noise, number, meter)?)?;
    }
    Ok(noisies)
}
