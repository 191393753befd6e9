//! What is asked of a run, measured.

ghost use Rattle.std.specs.Prelude.{◌≡◌, IfErr, IfOk, Ok, OnOk, map};
ghost use Rattle.pd_device.specs.declared.fault.BenchFault.TheVariants.{Memory as no_memory};
ghost use Rattle.pd_sweep.specs.Trials.{IsBaseOf};
ghost use Rattle.pd_vary.specs.Asks.{capped, contract_at_end, measure_of, measured, number_of, power_of};
ghost use Rattle.pd_vary.specs.Rows.{IsOutcome};

use crate::condition::verdicts_of;
use crate::extremes::extremes_of;
use crate::{Ask, Outcome, Question, What};
use pd_device::BenchFault;
use pd_objects::Contract;
use pd_port::Meter;
use pd_run::Runner;
use pd_scenario::Scenario;
use pd_sweep::{Base, Effect, Measure};
use std::alloc::{AllocError, Global};

/// The contract of a port at the end.
fn contract_at_end(effect: &Effect, port: usize) -> Option<Contract>
    ensures { result ≡ contract_at_end effect.now port }
{
    let index = port.saturating_sub(1);
    match effect.findings.summary.standing.contracts.get(index) {
        Some(contract) => *contract,
        None => None,
    }
}

/// How the contract of a port differs from that in the run without the edits.
fn measure_of(effect: &Effect, port: usize) -> Option<Measure>
    ensures { result ≡ measure_of effect.now port }
{
    let index = port.saturating_sub(1);
    match effect.measures.get(index) {
        Some(measure) => Some(*measure),
        None => None,
    }
}

/// The power of a contract in microwatts: millivolts times milliamperes.
fn power_of(contract: Contract) -> u64
    ensures { result ≡ power_of contract }
{
    u64::from(contract.mv) * u64::from(contract.ma)
}

/// A count, up to the greatest number of 64 bits.
fn capped(count: u128) -> u64
    ensures { result ≡ capped count }
{
    count.min(u128::from(u64::MAX)) as u64
}

/// What is measured of a run by its effect.
fn measured<const N: usize, T: Runner<N>>(
    run: &T,
    effect: &Effect,
    port: usize,
    what: What,
) -> Option<u64>
    ensures { result ≡ measured (T.entries run.now) effect.now port what }
{
    match what {
        What::Voltage => Some(u64::from(contract_at_end(effect, port)?.mv)),
        What::Current => Some(u64::from(contract_at_end(effect, port)?.ma)),
        What::Power => Some(power_of(contract_at_end(effect, port)?)),
        What::LeastPower => Some(extremes_of(run, port)?.least),
        What::GreatestPower => Some(extremes_of(run, port)?.greatest),
        What::LessPower => Some(measure_of(effect, port)?.less),
        What::MorePower => Some(measure_of(effect, port)?.more),
        What::DiffersUntil => measure_of(effect, port)?.until,
        What::Margin => Some(effect.findings.margin.left),
        What::LowestAt => Some(effect.findings.margin.at),
        What::Faults => Some(capped(effect.findings.summary.mishaps.faults)),
        What::HardResets => Some(capped(effect.findings.summary.mishaps.hard_resets)),
    }
}

/// All that is asked of a run, by its effect.
fn numbers_of<const N: usize, T: Runner<N>>(
    alloc: Global,
    run: &T,
    effect: &Effect,
    asks: &[Ask],
) -> Result<Vec<Option<u64>>, AllocError>
    ensures { IfOk result (λ numbers. numbers.items ≡ map (number_of (T.entries run.now) effect.now) asks.now) }
{
    let mut numbers = Vec::new(alloc);
    for ask in asks {
        numbers.push(measured(run, effect, ask.port, ask.what))?;
    }
    Ok(numbers)
}

/// Runs an edited scenario, measures all that is asked of its run beside that of the scenario without the edits, of which the base is
/// kept, and holds it against the conditions.
///
/// # Errors
/// `Memory`: there is none.
pub(crate) fn measure_run<const N: usize, T: Runner<N>>(
    alloc: Global,
    run: &mut T,
    scenario: &Scenario<N>,
    base: &Base,
    edited: &Scenario<N>,
    question: &Question<'_>,
    meter: &mut Meter,
) -> Result<Outcome, BenchFault>
    requires { IsBaseOf scenario.now base.now }
    ensures value { IfOk result (λ outcome. IsOutcome scenario.now question.now.asks.now question.now.wheres.now (Ok edited.now) outcome) }
    ensures memory { IfErr result (λ fault. fault ≡ no_memory) }
{
    let Ok(()) = run.replace(alloc, edited, meter) else {
        return Err(BenchFault::Memory);
    };
    let Ok(effect) = Effect::of(alloc, run, edited, base, scenario.end_time()) else {
        return Err(BenchFault::Memory);
    };
    let Ok(numbers) = numbers_of(alloc, run, &effect, question.asks) else {
        return Err(BenchFault::Memory);
    };
    match verdicts_of(alloc, run, edited, question.wheres) {
        Ok(verdicts) => Ok(Outcome::Ran { numbers, verdicts }),
        Err(_) => Err(BenchFault::Memory),
    }
}
