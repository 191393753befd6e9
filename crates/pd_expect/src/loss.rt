//! A packet that is lost by its name.

ghost use Rattle.std.specs.Prelude.{◌≡◌, IfErr, IfOk, OnOk, option_map, List};
ghost use Rattle.pd_device.specs.declared.fault.BenchFault.TheVariants.{Memory as no_memory};
ghost use Rattle.pd_sweep.specs.declared.packets.Target.{Target as TargetData};
ghost use Rattle.pd_sweep.specs.Variants.{variant};
ghost use Rattle.pd_sweep.specs.declared.choice.Loss.TheVariants.{Lost as harm_lost};
ghost use Rattle.pd_expect.specs.Losses.{IsLoss, LosesIn, choice_of, lost_packet, nth_of};

use crate::Lost;
use pd_device::BenchFault;
use pd_port::Meter;
use pd_run::Runner;
use pd_scenario::Scenario;
use pd_sweep::{Choice, Loss, Obstacle, Target, chosen, is_hit, variant_of};
use std::alloc::Global;

/// Why a packet isn't lost.
#[derive(Clone, Copy, Debug, PartialEq, Eq)]
pub enum LoseFault {
    /// There is no such packet in the run, but so many of the kind on the port.
    NoPacket { count: u64 },
    /// The scenario disturbs the packet already.
    Disturbed,
    /// The event doesn't hit the packet.
    Missed,
    /// The event can't be put in.
    Barred(Obstacle),
}

/// The packets of the kind on the port.
fn choice_of(lost: &Lost) -> Choice
    ensures { result ≡ choice_of lost.now }
{
    Choice {
        port: Some(lost.port as usize),
        from: 0,
        to: u64::MAX,
        kind: Some(lost.kind),
    }
}

/// One of some packets, numbered from 1.
fn nth_of(nth: u64, targets: &[Target]) -> Option<Target>
    ensures { result ≡ nth_of nth targets.now }
{
    if nth == 0 {
        return None;
    }
    targets.get((nth - 1) as usize).copied()
}

/// The scenario in which a packet is lost, where the event hits it.
fn lose_packet<const N: usize, T: Runner<N>>(
    alloc: Global,
    run: &mut T,
    scenario: &Scenario<N>,
    target: &Target,
    meter: &mut Meter,
) -> Result<Result<Scenario<N>, LoseFault>, BenchFault>
    ensures value { IfOk result (λ outcome. LosesIn scenario.now.events (variant N scenario.now harm_lost target.now) target.now outcome) }
    ensures memory { IfErr result (λ fault. fault ≡ no_memory) }
{
    let after = match variant_of(alloc, scenario, Loss::Lost, target) {
        Ok(Ok(after)) => after,
        Ok(Err(obstacle)) => return Ok(Err(LoseFault::Barred(obstacle))),
        Err(fault) => return Err(fault),
    };
    let Ok(()) = run.replace(alloc, &after, meter) else {
        return Err(BenchFault::Memory);
    };
    match is_hit(alloc, scenario, target, run, &after) {
        Ok(true) => Ok(Ok(after)),
        Ok(false) => Ok(Err(LoseFault::Missed)),
        Err(_) => Err(BenchFault::Memory),
    }
}

/// Loses the packet that is named in the run of a scenario: the scenario with the event that does so, or why there is none. The
/// runner, which may stand for any scenario, stands for one of these from then on.
///
/// # Errors
/// `Memory`: there is none.
pub fn lose<const N: usize, T: Runner<N>>(
    alloc: Global,
    run: &mut T,
    scenario: &Scenario<N>,
    lost: &Lost,
    meter: &mut Meter,
) -> Result<Result<Scenario<N>, LoseFault>, BenchFault>
    ensures value { IfOk result (λ outcome. IsLoss N scenario.now lost.now outcome) }
    ensures memory { IfErr result (λ fault. fault ≡ no_memory) }
{
    let Ok(()) = run.replace(alloc, scenario, meter) else {
        return Err(BenchFault::Memory);
    };
    let Ok(targets) = chosen(alloc, run, &choice_of(lost)) else {
        return Err(BenchFault::Memory);
    };
    let Some(target) = nth_of(lost.nth, targets.as_slice()) else {
        let count = targets.len() as u64;
        return Ok(Err(LoseFault::NoPacket { count }));
    };
    if target.disturbed {
        return Ok(Err(LoseFault::Disturbed));
    }
    lose_packet(alloc, run, scenario, &target, meter)
}
