//! What is warned of along a run.

ghost use Rattle.std.specs.Prelude.{◌≡◌, ◌++◌, ◌≤◌, OnOk, length};
ghost use Rattle.pd_watch.specs.Watch.{after_step};
ghost use Rattle.pd_warn.specs.Warnings.{Warned, left_part, run_part, step_part};

use crate::Warning;
use crate::watch::{push_entry, push_unmet};
use pd_port::{Entry, Meter};
use pd_run::{Live, Plan};
use pd_watch::{Watch, at_rest};
use std::alloc::{AllocError, Global};

/// Warns of a step of a port, and takes it in.
#[tactic(auto, unfolding(pd_watch::specs::Watch::after_step, crate::specs::Warnings::step_part))]
fn push_step(
    out: &mut Vec<Warning>,
    watches: &mut Vec<Watch>,
    port: usize,
    entry: &Entry,
) -> Result<(), AllocError>
    requires first { 1 ≤ port }
    requires last { port ≤ length watches.old.items }
    ensures warnings { OnOk result (out.new.items ≡ out.old.items ++ step_part watches.old.items (port, entry.now)) }
    ensures watches { OnOk result (watches.new.items ≡ after_step watches.old.items (port, entry.now)) }
{
    let watch = &mut watches[port - 1];
    push_entry(out, port, watch, entry)?;
    let _by = watch.take_entry(entry)?;
    Ok(())
}

/// Warns of what waits at the end of a run.
fn push_left(out: &mut Vec<Warning>, watches: &[Watch]) -> Result<(), AllocError>
    ensures { OnOk result (out.new.items ≡ out.old.items ++ left_part 1 watches.now) }
{
    let mut port = 1;
    for watch in watches {
        push_unmet(out, port, watch, None)?;
        port += 1;
    }
    Ok(())
}

/// Warns of what comes of the run of a plan, whose steps the meter counts.
///
/// # Errors
/// There is no memory; some warnings may stand there.
pub(crate) fn push_run<const N: usize>(
    alloc: Global,
    out: &mut Vec<Warning>,
    plan: &Plan<N>,
    meter: &mut Meter,
) -> Result<(), AllocError>
    ensures { OnOk result (Warned N plan.now out.old.items out.new.items) }
{
    let mut live = Live::new(alloc, plan)?;
    let mut watches = at_rest(alloc, N)?;
    while let Some((port, due)) = live.next(plan) {
        let answer = live.reply(plan, port, &due);
        let entry = live.step(alloc, plan, port, &due, answer, meter)?;
        push_step(out, &mut watches, port, &entry)?;
    }
    push_left(out, watches.as_slice())
}
