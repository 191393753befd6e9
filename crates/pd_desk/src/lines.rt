//! The desk over the lines of a reader.

ghost use Rattle.std.specs.Prelude.{◌≡◌, ◌+◌, ◌<◌, ◌≤◌, ◌^◌, [], Err, OnOk, MatchResult};
ghost use Rattle.pd_device.specs.Device.{CountsFailure};
ghost use Rattle.pd_device.specs.declared.fault.BenchFault.TheVariants.{WriteFailed as write_failed};
ghost use Rattle.pd_bench.specs.Session.{CountsFault, answered};
ghost use Rattle.pd_bench.specs.Stream.{IsRunning};
ghost use Rattle.pd_desk.specs.Desk.{at_first, with_shelf};
ghost use Rattle.pd_desk.specs.Ends.{DeskEnds, beside};
ghost use Rattle.pd_desk.specs.Standings.{standing_of};
ghost use Rattle.pd_desk.specs.Taking.{AnsweredEnded, FinishedAll, FinishedSome};

use crate::answers::answer_desk;
use crate::colon::is_quit;
use crate::desk::Desk;
use crate::line_in::take_line;
use crate::notes::Notes;
use crate::{Left, Outlets, Shelf};
use pd_bench::{Pending, State, Tally, write_done};
use pd_device::{BenchFault, TextIn, TextOut};
use pd_port::Meter;
use pd_run::Runner;
use pd_scenario::Scenario;
use std::alloc::Global;

/// Reads to the end, or to the line that ends the session, and answers each line before that which a line feed ends.
fn answer_ended<const N: usize, T: Runner<N>, R: TextIn, W: TextOut, E: TextOut, S: Shelf>(
    alloc: Global,
    line: &mut Pending,
    desk: &mut Desk<N>,
    runner: &mut T,
    reader: &mut R,
    outlets: &mut Outlets<W, E, S>,
    meter: &mut Meter,
) -> Result<(), BenchFault>
    requires runs { IsRunning (T.plan runner.old) (T.entries runner.old) desk.old.state.scenario }
    requires empty { line.old ≡ [] }
    requires first { with_shelf (standing_of desk.old) (S.known outlets.old.shelf)
        ≡ at_first desk.old.state.scenario (S.known outlets.old.shelf) }
    ensures text { MatchResult result
        (λ _. AnsweredEnded N (R.left reader.old) (R.left reader.new) (W.taken outlets.old.answers) (W.taken outlets.new.answers)
        (beside (E.taken outlets.old.reasons) (E.failures outlets.old.reasons))
        (beside (E.taken outlets.new.reasons) (E.failures outlets.new.reasons)) (S.known outlets.old.shelf)
        desk.old.state.scenario
        (with_shelf (standing_of desk.new) (S.known outlets.new.shelf)) line.new)
        (λ fault. DeskEnds N (Err fault) (R.left reader.old) (R.left reader.new) (W.taken outlets.old.answers)
        (W.taken outlets.new.answers) (beside (E.taken outlets.old.reasons) (E.failures outlets.old.reasons))
        (beside (E.taken outlets.new.reasons) (E.failures outlets.new.reasons)) (S.known outlets.old.shelf)
        (S.known outlets.new.shelf) desk.old.state.scenario) }
    ensures counts { CountsFault result (R.failures reader.old) (R.failures reader.new)
        (W.failures outlets.old.answers) (W.failures outlets.new.answers) }
    ensures runs { IsRunning (T.plan runner.new) (T.entries runner.new) desk.new.state.scenario }
    ensures room { OnOk result (answered desk.new.state.tally ≤ 4016777217) }
{
    let mut total = 0usize;
    while take_line(reader, line, &mut total)? {
        if is_quit(line.as_slice()) {
            return Ok(());
        }
        answer_desk(alloc, line.as_slice(), desk, runner, outlets, meter)?;
        line.clear();
    }
    Ok(())
}

/// Answers the last line, where there is one, and writes the counts.
fn finish<const N: usize, T: Runner<N>, W: TextOut, E: TextOut, S: Shelf>(
    alloc: Global,
    line: &[u8],
    desk: &mut Desk<N>,
    runner: &mut T,
    outlets: &mut Outlets<W, E, S>,
    meter: &mut Meter,
) -> Result<(), BenchFault>
    requires runs { IsRunning (T.plan runner.old) (T.entries runner.old) desk.old.state.scenario }
    requires room { answered desk.old.state.tally + 1 < 2 ^ 32 }
    ensures text { MatchResult result
        (λ _. FinishedAll N (W.taken outlets.old.answers) (W.taken outlets.new.answers)
        (beside (E.taken outlets.old.reasons) (E.failures outlets.old.reasons))
        (beside (E.taken outlets.new.reasons) (E.failures outlets.new.reasons))
        (with_shelf (standing_of desk.old) (S.known outlets.old.shelf))
        line.now
        (with_shelf (standing_of desk.new) (S.known outlets.new.shelf)))
        (λ fault. (fault ≡ write_failed)
        × FinishedSome N (W.taken outlets.old.answers) (W.taken outlets.new.answers)
        (beside (E.taken outlets.old.reasons) (E.failures outlets.old.reasons))
        (beside (E.taken outlets.new.reasons) (E.failures outlets.new.reasons))
        (with_shelf (standing_of desk.old) (S.known outlets.old.shelf))
        line.now (S.known outlets.new.shelf)) }
    ensures counts { CountsFailure (W.failures outlets.old.answers) (W.failures outlets.new.answers) result }
{
    if line.is_empty() {
        return write_done(desk.state.tally, &mut outlets.answers);
    }
    answer_desk(alloc, line, desk, runner, outlets, meter)?;
    write_done(desk.state.tally, &mut outlets.answers)
}

/// Answers the lines of the reader, the desk's own too, and counts the others. The first scenario is handed in twice.
///
/// # Errors
/// As `session` of pd_bench.
pub fn desk_session<const N: usize, T: Runner<N>, R: TextIn, W: TextOut, E: TextOut, S: Shelf>(
    alloc: Global,
    first: Scenario<N>,
    scenario: Scenario<N>,
    runner: &mut T,
    reader: &mut R,
    outlets: &mut Outlets<W, E, S>,
    meter: &mut Meter,
) -> Result<Left, BenchFault>
    requires { first ≡ scenario }
    ensures text { DeskEnds N result (R.left reader.old) (R.left reader.new) (W.taken outlets.old.answers)
        (W.taken outlets.new.answers) (beside (E.taken outlets.old.reasons) (E.failures outlets.old.reasons))
        (beside (E.taken outlets.new.reasons) (E.failures outlets.new.reasons)) (S.known outlets.old.shelf)
        (S.known outlets.new.shelf) scenario.entry }
    ensures counts { CountsFault result (R.failures reader.old) (R.failures reader.new)
        (W.failures outlets.old.answers) (W.failures outlets.new.answers) }
{
    if runner.replace(alloc, &scenario, meter).is_err() {
        return Err(BenchFault::Memory);
    }
    let mut desk = Desk {
        state: State {
            scenario,
            tally: Tally::new(),
        },
        first,
        number: 0,
        saved: 0,
        notes: Notes::new(alloc),
    };
    let mut line = Pending::new();
    answer_ended(alloc, &mut line, &mut desk, runner, reader, outlets, meter)?;
    finish(alloc, line.as_slice(), &mut desk, runner, outlets, meter)?;
    Ok(Left {
        tally: desk.state.tally,
        is_saved: desk.number == desk.saved,
    })
}
