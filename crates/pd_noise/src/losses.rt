//! The packets of a run that are lost by lot.

ghost use Rattle.std.specs.Prelude.{◌≡◌, ◌&&◌, Contains, IfOk, IfSome, true, if◌then◌else◌};
ghost use Rattle.std.specs.List.{filter};
ghost use Rattle.pd_run.specs.Shown.{Shows};
ghost use Rattle.pd_scenario.specs.Plan.{Plan as PlanData};
ghost use Rattle.pd_sweep.specs.Lost.{IsOfRun, lost};
ghost use Rattle.pd_sweep.specs.declared.choice.Loss.TheVariants.{Lost as lost_whole};
ghost use Rattle.pd_noise.specs.Draws.{behind_next, says_lost};
ghost use Rattle.pd_noise.specs.Losses.{IsNoisyRun, draws, is_behind, is_drawn, undrawn};

use crate::draw::{generator_of, says_lost};
use crate::{Noise, Place};
use pd_port::Meter;
use pd_run::{Plan, Runner};
use pd_scenario::Scenario;
use pd_sweep::{Loss, Target, chosen, lost};
use rand_xoshiro::Xoshiro256PlusPlus;
use std::alloc::{AllocError, Global};

/// Draws a number for a packet, where one is drawn, and tells whether it is lost.
fn is_lost(target: &Target, share: u32, place: Place, generator: &mut Xoshiro256PlusPlus) -> bool
    ensures lost { result ≡ (is_drawn place target.now && says_lost share generator.old) }
    ensures behind { generator.new ≡ (if is_drawn place target.now then behind_next generator.old else generator.old) }
{
    if place.is_drawn(target) {
        says_lost(share, generator)
    } else {
        false
    }
}

/// Draws a number for each of some packets that are behind a place, up to the first of which it says that it is lost.
fn first_lost(
    targets: &[Target],
    share: u32,
    place: Place,
    generator: &mut Xoshiro256PlusPlus,
) -> Option<Target>
    ensures drawn { draws share generator.old (filter (is_drawn place) targets.now) ≡ (result, generator.new) }
    ensures there { IfSome result (λ t. Contains targets.now t) }
    ensures behind { IfSome result (λ t. is_behind place t ≡ true) }
{
    for target in targets {
        if is_lost(target, share, place, generator) {
            return Some(*target);
        }
    }
    None
}

/// Draws for the packets of a run that are behind a place, up to the first that is lost.
fn next_lost<const N: usize, T: Runner<N>>(
    alloc: Global,
    run: &T,
    noise: &Noise,
    place: Place,
    generator: &mut Xoshiro256PlusPlus,
) -> Result<Option<Target>, AllocError>
    ensures drawn { IfOk result (λ next.
        draws noise.now.share generator.old (undrawn noise.now.choice place (T.entries run.now)) ≡ (next, generator.new)) }
    ensures known { IfOk result (λ next. IfSome next (λ t. IsOfRun N t)) }
    ensures behind { IfOk result (λ next. IfSome next (λ t. is_behind place t ≡ true)) }
{
    let targets = chosen(alloc, run, &noise.choice)?;
    Ok(first_lost(targets.as_slice(), noise.share, place, generator))
}

/// Stands for the plan in which one more packet is lost, and answers it.
///
/// # Errors
/// There is no memory, or no room for a millionth event of a port.
fn lose_packet<const N: usize, T: Runner<N>>(
    alloc: Global,
    run: &mut T,
    plan: &Plan<N>,
    target: &Target,
    meter: &mut Meter,
) -> Result<Plan<N>, AllocError>
    requires { IsOfRun N target.now }
    ensures plan { IfOk result (λ next. next ≡ lost plan.now lost_whole 0 target.now) }
    ensures run { IfOk result (λ next. Shows next (T.entries run.new)) }
{
    if plan.script(target.port).len() >= 999_999 {
        return Err(AllocError);
    }
    let next = lost(alloc, plan, Loss::Lost, 0, target)?;
    let same = lost(alloc, plan, Loss::Lost, 0, target)?;
    run.run_plan(alloc, same, meter)?;
    Ok(next)
}

/// Loses packets of the run of a scenario by lot, in the run of a number, and answers these. The runner, which may stand for any run,
/// stands for the one in which they are lost from then on.
///
/// # Errors
/// There is no memory, or no room for a millionth event of a port.
pub fn lose<const N: usize, T: Runner<N>>(
    alloc: Global,
    run: &mut T,
    scenario: &Scenario<N>,
    noise: &Noise,
    number: u64,
    meter: &mut Meter,
) -> Result<Vec<Target>, AllocError>
    ensures { IfOk result (λ losses. (plan : PlanData) × IsNoisyRun scenario.now noise.now number losses.items plan (T.entries run.new)) }
{
    // Read for the prover alone: that a plan has few ports.
    let _end = scenario.end_time();
    run.replace(alloc, scenario, meter)?;
    let mut plan = Plan::of_scenario(alloc, scenario)?;
    let mut place = Place::first();
    let mut generator = generator_of(noise.seed, number);
    let mut losses = Vec::new(alloc);
    'losses: while let Some(target) = next_lost(alloc, run, noise, place, &mut generator)? {
        plan = lose_packet(alloc, run, &plan, &target, meter)?;
        place = Place::of(&target);
        losses.push(target)?;
    }
    Ok(losses)
}
