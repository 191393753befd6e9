//! The changes of contracts of a run.

ghost use Rattle.std.specs.Prelude.{◌≡◌, ◌<◌, IfOk, MatchOption, OnOk, length, slice_get};
ghost use Rattle.pd_sweep.specs.Along.{gathered};
ghost use Rattle.pd_sweep.specs.Beside.{AreInOrder};
ghost use Rattle.pd_sweep.specs.Measures.{steps_of};

use crate::measure::Step;
use crate::summary::contract_left;
use pd_port::Entry;
use pd_run::{Note, Runner};
use std::alloc::{AllocError, Global};

/// Adds the change of an entry, where it has one before an end.
fn push_step(steps: &mut Vec<Step>, end: u64, port: usize, entry: &Entry) -> Result<(), AllocError>
    ensures { OnOk result (steps.new.items ≡ gathered end steps.old.items (port, entry.now)) }
{
    let Some(change) = entry.contract else {
        return Ok(());
    };
    if entry.at < end {
        steps.push(Step {
            at: entry.at,
            port: port.saturating_sub(1),
            left: contract_left(change),
        })?;
    }
    Ok(())
}

/// Adds that of the entry at an index.
fn push_step_at<const N: usize, T: Runner<N>>(
    steps: &mut Vec<Step>,
    end: u64,
    run: &T,
    index: usize,
) -> Result<(), AllocError>
    requires { index < length (T.entries run.now) }
    ensures { OnOk result (MatchOption (slice_get (T.entries run.now) index) ⊥
        (λ move. steps.new.items ≡ gathered end steps.old.items move)) }
{
    match run.entry(index) {
        Some((port, entry)) => push_step(steps, end, port, entry),
        None => Ok(()),
    }
}

/// The changes of contracts of a run before an end, in the order of time. It looks at the entries that change one, and at no other.
///
/// # Errors
/// There is no memory.
pub(crate) fn steps_of<const N: usize, T: Runner<N>>(
    alloc: Global,
    run: &T,
    end: u64,
) -> Result<Vec<Step>, AllocError>
    ensures steps { IfOk result (λ steps. steps.items ≡ steps_of end (T.entries run.now)) }
    ensures order { IfOk result (λ steps. AreInOrder end steps.items) }
{
    let mut steps = Vec::new(alloc);
    let mut index = run.next_with(Note::Contract, 0);
    while index < run.len() {
        push_step_at(&mut steps, end, run, index)?;
        index = run.next_with(Note::Contract, index + 1);
    }
    Ok(steps)
}
