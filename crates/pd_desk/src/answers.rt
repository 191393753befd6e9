//! The desk's answer to a line, and what it tells beside it.

ghost use Rattle.std.specs.Prelude.{◌≡◌, ◌⊎◌, ◌+◌, ◌<◌, ◌≤◌, ◌^◌, List, ℕ};
ghost use Rattle.pd_device.specs.Device.{CountsFailure, Writes};
ghost use Rattle.pd_desk.specs.Commands.{colon_of};
ghost use Rattle.pd_desk.specs.LineReasons.{reasons_text};
ghost use Rattle.pd_edit_lines.specs.Numbers.{number_of};
ghost use Rattle.pd_bench.specs.Session.{answered, refused_text};
ghost use Rattle.pd_bench.specs.Stream.{IsRunning};
ghost use Rattle.pd_desk.specs.Desk.{DeskReply, OwnReply, TellsWhyNot, ToldReply, with_shelf};
ghost use Rattle.pd_desk.specs.Standings.{standing_of};
ghost use Rattle.pd_desk.specs.Ends.{GoesOut, ToldAfter, beside};

use crate::desk::{Desk, answer_session};
use crate::own::{NotDone, own_text};
use crate::{Outlets, Shelf, is_colon, push_reasons, tell_reason};
use pd_device::{BenchFault, TextOut, write_all, write_text};
use pd_edit_lines::EditFault;
use pd_port::Meter;
use pd_run::Runner;
use pd_scenario::Scenario;
use std::alloc::Global;

/// Tells why a line is refused by a fault, with the scenario as it stands: each place that breaks the rule, or the sentence
/// for the fault where there is none or no memory. Where that can't be written, the answers go on.
fn tell_refusal<const N: usize, E: TextOut>(
    alloc: Global,
    scenario: &Scenario<N>,
    line: &[u8],
    fault: EditFault,
    reasons: &mut E,
)
    ensures { (told : List ℕ) × TellsWhyNot (reasons_text N scenario.now line.now) (refused_text (number_of fault)) told
        × GoesOut told (beside (E.taken reasons.old) (E.failures reasons.old)) (beside (E.taken reasons.new) (E.failures reasons.new)) }
{
    let mut text = Vec::new(alloc);
    if push_reasons(alloc, &mut text, scenario, line).is_err() || text.is_empty() {
        let _ = tell_reason(reasons, fault.number());
        return;
    }
    let _ = write_all(reasons, text.as_slice());
}

/// Answers a line that isn't the desk's own, and tells why it is refused, where it is.
fn answer_told<const N: usize, T: Runner<N>, W: TextOut, E: TextOut, S: Shelf>(
    alloc: Global,
    line: &[u8],
    desk: &mut Desk<N>,
    runner: &mut T,
    outlets: &mut Outlets<W, E, S>,
    meter: &mut Meter,
) -> Result<(), BenchFault>
    requires runs { IsRunning (T.plan runner.old) (T.entries runner.old) desk.old.state.scenario }
    requires room { answered desk.old.state.tally + 1 < 2 ^ 32 }
    ensures reply { (reply : List ℕ) × (told : List ℕ)
        × ToldReply N (standing_of desk.old) line.now reply told
        (standing_of desk.new)
        × Writes (W.taken outlets.old.answers) (W.taken outlets.new.answers) result reply
        × ToldAfter result told (beside (E.taken outlets.old.reasons) (E.failures outlets.old.reasons))
        (beside (E.taken outlets.new.reasons) (E.failures outlets.new.reasons)) }
    ensures counts { CountsFailure (W.failures outlets.old.answers) (W.failures outlets.new.answers) result }
    ensures shelf { outlets.new.shelf ≡ outlets.old.shelf }
    ensures runs { IsRunning (T.plan runner.new) (T.entries runner.new) desk.new.state.scenario }
    ensures room { answered desk.new.state.tally ≤ answered desk.old.state.tally + 1 }
{
    let refusal = answer_session(alloc, line, desk, runner, &mut outlets.answers, meter)?;
    match refusal {
        None => Ok(()),
        Some(fault) => {
            let reasons = &mut outlets.reasons;
            tell_refusal(alloc, &desk.state.scenario, line, fault, reasons);
            Ok(())
        }
    }
}

/// Answers a line of the desk's own, or tells why it did nothing.
fn answer_own<const N: usize, T: Runner<N>, W: TextOut, E: TextOut, S: Shelf>(
    alloc: Global,
    line: &[u8],
    desk: &mut Desk<N>,
    runner: &mut T,
    outlets: &mut Outlets<W, E, S>,
    meter: &mut Meter,
) -> Result<(), BenchFault>
    requires runs { IsRunning (T.plan runner.old) (T.entries runner.old) desk.old.state.scenario }
    requires room { answered desk.old.state.tally + 1 < 2 ^ 32 }
    ensures reply { (reply : List ℕ) × (told : List ℕ)
        × OwnReply N
        (with_shelf (standing_of desk.old) (S.known outlets.old.shelf))
        (colon_of line.now) line.now reply told
        (with_shelf (standing_of desk.new) (S.known outlets.new.shelf))
        × Writes (W.taken outlets.old.answers) (W.taken outlets.new.answers) result reply
        × ToldAfter result told (beside (E.taken outlets.old.reasons) (E.failures outlets.old.reasons))
        (beside (E.taken outlets.new.reasons) (E.failures outlets.new.reasons)) }
    ensures counts { CountsFailure (W.failures outlets.old.answers) (W.failures outlets.new.answers) result }
    ensures runs { IsRunning (T.plan runner.new) (T.entries runner.new) desk.new.state.scenario }
    ensures room { (answered desk.new.state.tally ≤ answered desk.old.state.tally) ⊎ (answered desk.new.state.tally ≤ 4000000000) }
{
    match own_text(alloc, line, desk, runner, &mut outlets.shelf, meter) {
        Ok(text) => write_all(&mut outlets.answers, text.as_slice()),
        Err(NotDone::Fault(fault)) => {
            let _ = write_text(&mut outlets.reasons, &fault.sentence());
            Ok(())
        }
        Err(NotDone::Refused(told)) => {
            let _ = write_all(&mut outlets.reasons, told.as_slice());
            Ok(())
        }
    }
}

/// Answers a line: one of the desk's own, or as a session does.
pub(crate) fn answer_desk<const N: usize, T: Runner<N>, W: TextOut, E: TextOut, S: Shelf>(
    alloc: Global,
    line: &[u8],
    desk: &mut Desk<N>,
    runner: &mut T,
    outlets: &mut Outlets<W, E, S>,
    meter: &mut Meter,
) -> Result<(), BenchFault>
    requires runs { IsRunning (T.plan runner.old) (T.entries runner.old) desk.old.state.scenario }
    requires room { answered desk.old.state.tally + 1 < 2 ^ 32 }
    ensures reply { (reply : List ℕ) × (told : List ℕ)
        × DeskReply N
        (with_shelf (standing_of desk.old) (S.known outlets.old.shelf))
        line.now reply told
        (with_shelf (standing_of desk.new) (S.known outlets.new.shelf))
        × Writes (W.taken outlets.old.answers) (W.taken outlets.new.answers) result reply
        × ToldAfter result told (beside (E.taken outlets.old.reasons) (E.failures outlets.old.reasons))
        (beside (E.taken outlets.new.reasons) (E.failures outlets.new.reasons)) }
    ensures counts { CountsFailure (W.failures outlets.old.answers) (W.failures outlets.new.answers) result }
    ensures runs { IsRunning (T.plan runner.new) (T.entries runner.new) desk.new.state.scenario }
    ensures room { (answered desk.new.state.tally ≤ answered desk.old.state.tally + 1) ⊎ (answered desk.new.state.tally ≤ 4000000000) }
{
    if is_colon(line) {
        return answer_own(alloc, line, desk, runner, outlets, meter);
    }
    answer_told(alloc, line, desk, runner, outlets, meter)
}
