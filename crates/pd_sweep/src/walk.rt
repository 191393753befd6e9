//! Each packet of a run lost in turn.

ghost use Rattle.std.specs.Prelude.{◌≡◌, IfErr, IfOk, map, reverse};
ghost use Rattle.pd_device.specs.Device.{CountsFailure, Writes};
ghost use Rattle.pd_device.specs.declared.fault.BenchFault.TheVariants.{Memory as no_memory};
ghost use Rattle.pd_scenario.specs.Plans.{plan_of};
ghost use Rattle.pd_sweep.specs.Forms.{closing, head, line_of};
ghost use Rattle.pd_sweep.specs.Sweeps.{CountsSweep, Sweeps};
ghost use Rattle.pd_sweep.specs.declared.sets.Packets.TheVariants.{One};

use crate::form::{head, push_closing};
use crate::part::part_of;
use crate::sets::{alone, wait};
use crate::sums::Sums;
use crate::trial::{are_any, go_on, next_of, try_packets};
use crate::{Base, Campaign, Findings, Look, Packets, Part, Tally, Target, Trial, chosen};
use pd_device::{BenchFault, TextOut, write_all};
use pd_port::Meter;
use pd_run::{Plan, Runner};
use pd_scenario::Scenario;
use std::alloc::{AllocError, Global};

/// The line of a trial; empty where it has none.
fn line_of(alloc: Global, look: Look, old: &Findings, trial: &Trial) -> Result<Vec<u8>, BenchFault>
    ensures value { IfOk result (λ text. text.items ≡ line_of look old.now trial.now) }
    ensures memory { IfErr result (λ fault. fault ≡ no_memory) }
{
    let mut text = Vec::new(alloc);
    match look.push_line(&mut text, old, trial) {
        Ok(()) => Ok(text),
        Err(_) => Err(BenchFault::Memory),
    }
}

/// What stands behind the packets of a sweep.
fn closing(
    alloc: Global,
    look: Look,
    reserve: Option<u64>,
    sums: &Sums,
    are_left: bool,
) -> Result<Vec<u8>, BenchFault>
    ensures value { IfOk result (λ text. text.items ≡ closing look reserve sums.now are_left) }
    ensures memory { IfErr result (λ fault. fault ≡ no_memory) }
{
    let mut text = Vec::new(alloc);
    match push_closing(alloc, &mut text, look, reserve, sums, are_left) {
        Ok(()) => Ok(text),
        Err(_) => Err(BenchFault::Memory),
    }
}

/// The plan of a scenario.
fn plan_of<const N: usize>(alloc: Global, scenario: &Scenario<N>) -> Result<Plan<N>, BenchFault>
    ensures value { IfOk result (λ plan. plan ≡ plan_of scenario.now) }
    ensures memory { IfErr result (λ fault. fault ≡ no_memory) }
{
    match Plan::of_scenario(alloc, scenario) {
        Ok(plan) => Ok(plan),
        Err(_) => Err(BenchFault::Memory),
    }
}

/// The packets that are to be tried first, the first of them last.
fn waiting_of(alloc: Global, targets: &[Target]) -> Result<Vec<Packets>, BenchFault>
    ensures value { IfOk result (λ v. reverse v.items ≡ map One targets.now) }
    ensures memory { IfErr result (λ fault. fault ≡ no_memory) }
{
    let mut waiting = Vec::new(alloc);
    let Ok(sets) = alone(alloc, targets) else {
        return Err(BenchFault::Memory);
    };
    match wait(&mut waiting, sets) {
        Ok(()) => Ok(waiting),
        Err(_) => Err(BenchFault::Memory),
    }
}

/// Writes what stands before the first line.
fn write_head<W: TextOut>(writer: &mut W, look: Look) -> Result<(), BenchFault>
    ensures text { Writes (W.taken writer.old) (W.taken writer.new) result (head look) }
    ensures counts { CountsFailure (W.failures writer.old) (W.failures writer.new) result }
{
    write_all(writer, head(look))
}

/// Writes the line of a trial. Where that is empty the writer is handed no byte, so that it hears of each trial all the same.
fn write_line<W: TextOut>(writer: &mut W, line: &[u8]) -> Result<(), BenchFault>
    ensures text { Writes (W.taken writer.old) (W.taken writer.new) result line.now }
    ensures counts { CountsFailure (W.failures writer.old) (W.failures writer.new) result }
{
    if !line.is_empty() {
        return write_all(writer, line);
    }
    match writer.write(line) {
        Ok(_) => Ok(()),
        Err(_) => Err(BenchFault::WriteFailed),
    }
}

/// Runs a scenario, and once more for each packet that is chosen of that run, or each of a part of these, with the packet lost; and where
/// more than one may be lost in one run, for each set that begins with one of these. Writes a line for each of these runs that is shown,
/// or for each kind of message, and the summary of all. A runner that keeps its run makes each at the cost of what it changes. After each
/// run the writer is handed its line, or no byte where it has none.
///
/// # Errors
/// `Memory` where there is none, `WriteFailed` where the writer failed or took no byte; the first few bytes of the text have
/// gone out.
pub fn sweep<const N: usize, T: Runner<N>, W: TextOut>(
    alloc: Global,
    run: &mut T,
    scenario: &Scenario<N>,
    campaign: &Campaign,
    part: Option<Part>,
    look: Look,
    writer: &mut W,
    meter: &mut Meter,
) -> Result<Tally, BenchFault>
    ensures text { Sweeps N scenario.now campaign.now part look result (W.taken writer.old) (W.taken writer.new) }
    ensures counts { CountsSweep result (W.failures writer.old) (W.failures writer.new) }
{
    let Ok(()) = run.replace(alloc, scenario, meter) else {
        return Err(BenchFault::Memory);
    };
    let Ok(targets) = chosen(alloc, run, &campaign.choice) else {
        return Err(BenchFault::Memory);
    };
    let base = Base::of(alloc, run, scenario)?;
    let plan = plan_of(alloc, scenario)?;
    let mut waiting = waiting_of(alloc, part_of(part, targets.as_slice()))?;
    write_head(writer, look)?;
    let (mut sums, mut left) = (Sums::none(), campaign.most);
    while let Some(packets) = next_of(&mut waiting, left) {
        let trial = try_packets(alloc, run, scenario, &plan, &base, campaign, packets, meter)?;
        let line = line_of(alloc, look, &base.findings, &trial)?;
        write_line(writer, line.as_slice())?;
        go_on(alloc, &mut waiting, run, scenario, campaign, &trial)?;
        sums = sums.after(campaign.reserve, &base.findings, &trial);
        left -= 1;
    }
    let are_left = are_any(waiting.as_slice());
    let text = closing(alloc, look, campaign.reserve, &sums, are_left)?;
    write_all(writer, text.as_slice())?;
    Ok(sums.all)
}
