//! Edits that are taken back, and made again.

ghost use Rattle.std.specs.Prelude.{◌≡◌, ◌+◌, ◌<◌, ◌≤◌, suc, codes, IfOk, OnOk, OnErr, MatchResult, vec_len, vec_capacity};
ghost use Rattle.pd_bench.specs.Stream.{IsRunning};
ghost use Rattle.pd_desk.specs.Desk.{Back, FailsRedo, FailsUndo, StepsBack, StepsForward, TellsLines};
ghost use Rattle.pd_desk.specs.Standings.{notes_of, standing_of};

use crate::desk::Desk;
use crate::notes::Step;
use crate::{OwnFault, push_diff};
use pd_port::Meter;
use pd_run::Runner;
use pd_save::list_scenario;
use pd_scenario::Scenario;
use std::alloc::{AllocError, Global};
use std::mem;

/// What changes where another scenario stands, which it does from now on in the runner.
pub(crate) fn turn<const N: usize, T: Runner<N>>(
    alloc: Global,
    head: &[u8],
    scenario: &Scenario<N>,
    to: &Scenario<N>,
    runner: &mut T,
    meter: &mut Meter,
) -> Result<Vec<u8>, AllocError>
    requires runs { IsRunning (T.plan runner.old) (T.entries runner.old) scenario.now }
    ensures text { IfOk result (λ text. TellsLines head.now scenario.now to.now text.items) }
    ensures turned { OnOk result (IsRunning (T.plan runner.new) (T.entries runner.new) to.now) }
    ensures same { OnErr result (IsRunning (T.plan runner.new) (T.entries runner.new) scenario.now) }
{
    let listed = list_scenario(alloc, scenario)?;
    let listed_then = list_scenario(alloc, to)?;
    let mut text = Vec::new(alloc);
    text.extend_from_slice(head)?;
    push_diff(alloc, &mut text, listed.as_slice(), listed_then.as_slice())?;
    runner.replace(alloc, to, meter)?;
    Ok(text)
}

/// Takes back the last edit, where there is room to note it.
fn step_back<const N: usize>(desk: &mut Desk<N>)
    requires some { 0 < vec_len desk.old.notes.earlier }
    requires room { vec_len desk.old.notes.later < vec_capacity desk.old.notes.later }
    ensures back { StepsBack (standing_of desk.old) (standing_of desk.new) }
    ensures fewer { vec_len desk.new.notes.earlier + 1 ≡ vec_len desk.old.notes.earlier }
    ensures more { vec_len desk.new.notes.later ≡ vec_len desk.old.notes.later + 1 }
    ensures capacity { vec_capacity desk.new.notes.later ≡ vec_capacity desk.old.notes.later }
{
    if let Some(step) = desk.notes.earlier.pop() {
        let scenario = mem::replace(&mut desk.state.scenario, step.scenario);
        let number = mem::replace(&mut desk.number, step.number);
        let line = step.line;
        desk.notes.later.push_reserved(Step {
            scenario,
            number,
            line,
        });
    }
}

/// Takes back so many edits, where there is room to note them.
fn steps_back<const N: usize>(count: usize, desk: &mut Desk<N>)
    requires some { count ≤ vec_len desk.old.notes.earlier }
    requires room { vec_len desk.old.notes.later + count ≤ vec_capacity desk.old.notes.later }
    ensures { Back count (standing_of desk.old) (standing_of desk.new) }
{
    for _ in 0..count {
        step_back(desk);
    }
}

/// Takes back the last accepted edit, and then so many before it.
pub(crate) fn undo<const N: usize, T: Runner<N>>(
    alloc: Global,
    before: u64,
    desk: &mut Desk<N>,
    runner: &mut T,
    meter: &mut Meter,
) -> Result<Vec<u8>, OwnFault>
    requires runs { IsRunning (T.plan runner.old) (T.entries runner.old) desk.old.state.scenario }
    ensures text { MatchResult result
        (λ text. Back (suc before) (standing_of desk.old) (standing_of desk.new)
        × TellsLines (codes "= undo\n") desk.old.state.scenario desk.new.state.scenario text.items)
        (λ fault. FailsUndo (notes_of desk.old.notes) (suc before) fault × (standing_of desk.new ≡ standing_of desk.old)) }
    ensures runs { IsRunning (T.plan runner.new) (T.entries runner.new) desk.new.state.scenario }
    ensures tally { desk.new.state.tally ≡ desk.old.state.tally }
{
    let left = desk.notes.earlier.len();
    if left == 0 {
        return Err(OwnFault::NoEdit);
    }
    if before >= left as u64 {
        return Err(OwnFault::FewEdits { left });
    }
    let count = before as usize + 1;
    desk.notes.later.reserve(count)?;
    let target = &desk.notes.earlier[left - count];
    let text = turn(
        alloc,
        b"= undo\n",
        &desk.state.scenario,
        &target.scenario,
        runner,
        meter,
    )?;
    steps_back(count, desk);
    Ok(text)
}

/// Makes the edit again that was taken back last, where there is room to note it.
fn step_forward<const N: usize>(desk: &mut Desk<N>)
    requires some { 0 < vec_len desk.old.notes.later }
    requires earlier { vec_len desk.old.notes.earlier < vec_capacity desk.old.notes.earlier }
    requires older { vec_len desk.old.notes.older < vec_capacity desk.old.notes.older }
    ensures { StepsForward (standing_of desk.old) (standing_of desk.new) }
{
    if let Some(step) = desk.notes.later.pop() {
        let scenario = mem::replace(&mut desk.state.scenario, step.scenario);
        let number = mem::replace(&mut desk.number, step.number);
        let line = step.line;
        desk.notes.note(Step {
            scenario,
            number,
            line,
        });
    }
}

/// Makes the edit again that was taken back last.
pub(crate) fn redo<const N: usize, T: Runner<N>>(
    alloc: Global,
    desk: &mut Desk<N>,
    runner: &mut T,
    meter: &mut Meter,
) -> Result<Vec<u8>, OwnFault>
    requires runs { IsRunning (T.plan runner.old) (T.entries runner.old) desk.old.state.scenario }
    ensures text { MatchResult result
        (λ text. StepsForward (standing_of desk.old) (standing_of desk.new)
        × TellsLines (codes "= redo\n") desk.old.state.scenario desk.new.state.scenario text.items)
        (λ fault. FailsRedo (notes_of desk.old.notes) fault × (standing_of desk.new ≡ standing_of desk.old)) }
    ensures runs { IsRunning (T.plan runner.new) (T.entries runner.new) desk.new.state.scenario }
    ensures tally { desk.new.state.tally ≡ desk.old.state.tally }
{
    desk.notes.reserve()?;
    let Some(next) = desk.notes.later.as_slice().last() else {
        return Err(OwnFault::NoRedo);
    };
    let text = turn(
        alloc,
        b"= redo\n",
        &desk.state.scenario,
        &next.scenario,
        runner,
        meter,
    )?;
    step_forward(desk);
    Ok(text)
}
