//! Answers to the lines of an edit script.

ghost use Rattle.std.specs.Prelude.{true, ◌≡◌, ◌+◌, ◌<◌, ◌≤◌, ◌^◌, List, ℕ};
ghost use Rattle.pd_scenario.specs.Limits.{is_port};
ghost use Rattle.pd_scenario.specs.Plans.{plan_of};
ghost use Rattle.pd_edit.specs.Refusals.{edited};
ghost use Rattle.pd_edit_lines.specs.Grammar.{line_of};
ghost use Rattle.pd_edit_lines.specs.Numbers.{number_of};
ghost use Rattle.pd_edit_lines.specs.declared.fault.EditFault.TheVariants as edit_faults;
ghost use Rattle.pd_device.specs.Device.{CountsFailure, Writes};
ghost use Rattle.pd_bench.specs.declared.tally.Outcome.{Outcome as OutcomeData};
ghost use Rattle.pd_bench.specs.declared.tally.Outcome.TheVariants as outcomes;
ghost use Rattle.pd_bench.specs.Session.{EditReply, ShowReply, show_text, can_show, answered, counted, done_text, refused_text};
ghost use Rattle.pd_bench.specs.Cost.{LineCosts};
ghost use Rattle.pd_bench.specs.Stream.{IsRunning, Replied, so_far};

use crate::{Outcome, Tally};
use pd_device::{BenchFault, Text, TextOut, write_all, write_text};
use pd_edit::apply;
use pd_edit_lines::{Edit, EditFault, Line, Show};
use pd_port::Meter;
use pd_report::{contracts, faults, margins, transcript};
use pd_run::Runner;
use pd_scenario::Scenario;
use std::alloc::Global;

/// What a session has come to: the scenario as edited, and what became of the lines.
#[derive(Drop)]
pub struct State<const N: usize> {
    /// As the edits so far left it.
    pub scenario: Scenario<N>,
    pub tally: Tally,
}

/// Answers a line, without the line feed that ends it. All is as after the answer, also where the writer fails.
///
/// # Errors
/// `WriteFailed` where the writer failed or took no byte; the first bytes of the answer have gone out.
pub fn answer<const N: usize, T: Runner<N>, W: TextOut>(
    alloc: Global,
    line: &[u8],
    state: &mut State<N>,
    runner: &mut T,
    writer: &mut W,
    meter: &mut Meter,
) -> Result<(), BenchFault>
    requires runs { IsRunning (T.plan runner.old) (T.entries runner.old) state.old.scenario }
    requires room { answered state.old.tally + 1 < 2 ^ 32 }
    ensures reply { (reply : List ℕ)
        × Replied T.costs N state.old.scenario (so_far state.old.tally meter.old) (line_of line.now) reply state.new.scenario
        (so_far state.new.tally meter.new)
        × Writes (W.taken writer.old) (W.taken writer.new) result reply }
    ensures counts { CountsFailure (W.failures writer.old) (W.failures writer.new) result }
    ensures runs { IsRunning (T.plan runner.new) (T.entries runner.new) state.new.scenario }
    ensures room { answered state.new.tally ≤ answered state.old.tally + 1 }
    ensures rises { meter.old ≤ meter.new }
{
    match Line::read(line) {
        Ok(Line::Skip) => Ok(()),
        Ok(Line::Edit(edit)) => change(alloc, &edit, state, runner, writer, meter),
        Ok(Line::Show(shown)) => show(shown, state, runner, writer),
        Err(fault) => refuse(fault, state, writer),
    }
}

/// Answers an edit.
fn change<const N: usize, T: Runner<N>, W: TextOut>(
    alloc: Global,
    edit: &Edit,
    state: &mut State<N>,
    runner: &mut T,
    writer: &mut W,
    meter: &mut Meter,
) -> Result<(), BenchFault>
    requires runs { IsRunning (T.plan runner.old) (T.entries runner.old) state.old.scenario }
    requires room { answered state.old.tally + 1 < 2 ^ 32 }
    ensures reply { (reply : List ℕ) × (outcome : OutcomeData)
        × EditReply state.old.scenario (edited N state.old.scenario edit.now) reply state.new.scenario outcome
        × (state.new.tally ≡ counted state.old.tally outcome)
        × LineCosts T.costs state.old.scenario reply state.new.scenario outcome meter.old meter.new
        × Writes (W.taken writer.old) (W.taken writer.new) result reply }
    ensures counts { CountsFailure (W.failures writer.old) (W.failures writer.new) result }
    ensures runs { IsRunning (T.plan runner.new) (T.entries runner.new) state.new.scenario }
    ensures room { answered state.new.tally ≤ answered state.old.tally + 1 }
    ensures rises { meter.old ≤ meter.new }
{
    let edited = match apply(alloc, &state.scenario, edit) {
        Ok(edited) => edited,
        Err(fault) => return refuse(fault, state, writer),
    };
    if runner.replace(alloc, &edited, meter).is_err() {
        return refuse(EditFault::Memory, state, writer);
    }
    state.scenario = edited;
    state.tally.count(Outcome::Accepted);
    write_all(writer, b"ok\n")
}

/// Answers a show.
fn show<const N: usize, T: Runner<N>, W: TextOut>(
    shown: Show,
    state: &mut State<N>,
    runner: &T,
    writer: &mut W,
) -> Result<(), BenchFault>
    requires runs { IsRunning (T.plan runner.now) (T.entries runner.now) state.old.scenario }
    requires room { answered state.old.tally + 1 < 2 ^ 32 }
    ensures reply { (reply : List ℕ) × (outcome : OutcomeData)
        × ShowReply (can_show N shown) shown state.old.scenario reply state.new.scenario outcome
        × (state.new.tally ≡ counted state.old.tally outcome) × Writes (W.taken writer.old) (W.taken writer.new) result reply }
    ensures counts { CountsFailure (W.failures writer.old) (W.failures writer.new) result }
    ensures same { state.new.scenario ≡ state.old.scenario }
    ensures room { answered state.new.tally ≤ answered state.old.tally + 1 }
{
    if !can_show(N, shown) {
        return refuse(EditFault::NoSuchPort, state, writer);
    }
    state.tally.count(Outcome::Shown);
    write_show(shown, &state.scenario, runner, writer)
}

/// Whether a show of N ports is of a port that is there, the ports being numbered from 1.
fn can_show(ports: usize, shown: Show) -> bool
    ensures { result ≡ can_show ports shown }
{
    match shown {
        Show::Transcript { port } => 1 <= port && port <= ports as u64,
        Show::Contracts | Show::Faults | Show::Margins => true,
    }
}

/// Writes a show.
fn write_show<const N: usize, T: Runner<N>, W: TextOut>(
    shown: Show,
    scenario: &Scenario<N>,
    runner: &T,
    writer: &mut W,
) -> Result<(), BenchFault>
    requires runs { IsRunning (T.plan runner.now) (T.entries runner.now) scenario.now }
    requires can { can_show N shown ≡ true }
    ensures text { Writes (W.taken writer.old) (W.taken writer.new) result (show_text shown (plan_of scenario.now) (T.entries runner.now)) }
    ensures counts { CountsFailure (W.failures writer.old) (W.failures writer.new) result }
{
    match shown {
        Show::Transcript { port } => transcript(runner, port as usize, writer),
        Show::Contracts => contracts(runner, writer),
        Show::Faults => faults(runner, writer),
        Show::Margins => margins(runner, scenario, writer),
    }
}

/// Refuses a line: answers it by the fault's number, and counts it.
///
/// # Errors
/// `WriteFailed` where the writer failed or took no byte; the first bytes of the answer have gone out.
pub fn refuse<const N: usize, W: TextOut>(
    fault: EditFault,
    state: &mut State<N>,
    writer: &mut W,
) -> Result<(), BenchFault>
    requires { answered state.old.tally + 1 < 2 ^ 32 }
    ensures text { Writes (W.taken writer.old) (W.taken writer.new) result (refused_text (number_of fault)) }
    ensures counts { CountsFailure (W.failures writer.old) (W.failures writer.new) result }
    ensures same { state.new.scenario ≡ state.old.scenario }
    ensures counted { state.new.tally ≡ counted state.old.tally outcomes.Refused }
    ensures room { answered state.new.tally ≤ answered state.old.tally + 1 }
{
    state.tally.count(Outcome::Refused);
    write_text(writer, &refused(fault.number()))
}

fn refused(number: u8) -> Text<32>
    ensures { result ≡ refused_text number }
{
    let mut text = Text::new();
    text.push_all(b"refused ");
    text.push_number(u64::from(number));
    text.push_all(b"\n");
    text
}

/// Writes the last line.
///
/// # Errors
/// `WriteFailed` where the writer failed or took no byte; the first bytes of the line have gone out.
pub fn write_done<W: TextOut>(tally: Tally, writer: &mut W) -> Result<(), BenchFault>
    ensures text { Writes (W.taken writer.old) (W.taken writer.new) result (done_text tally) }
    ensures counts { CountsFailure (W.failures writer.old) (W.failures writer.new) result }
{
    write_text(writer, &done(tally))
}

fn done(tally: Tally) -> Text<100>
    ensures { result ≡ done_text tally }
{
    let mut text = Text::new();
    text.push_all(b"done ");
    text.push_number(u64::from(tally.edits));
    text.push_all(b" edits ");
    text.push_number(u64::from(tally.refused));
    text.push_all(b" refused ");
    text.push_number(u64::from(tally.shows));
    text.push_all(b" shows\n");
    text
}
