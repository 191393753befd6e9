//! What a desk has come to, and its answers to the lines of sessions.

ghost use Rattle.std.specs.Prelude.{◌≡◌, ◌+◌, ◌<◌, ◌≤◌, ◌^◌, List, ℕ, Ok, Some, IfOk, OnOk, OnErr, vec_len, vec_capacity};
ghost use Rattle.pd_edit_lines.specs.Grammar.{line_of};
ghost use Rattle.pd_edit_lines.specs.declared.line.Line.TheVariants as lines_read;
ghost use Rattle.pd_edit.specs.Refusals.{edited};
ghost use Rattle.pd_device.specs.Device.{CountsFailure, Writes};
ghost use Rattle.pd_edit_lines.specs.Numbers.{number_of};
ghost use Rattle.pd_edit_lines.specs.declared.line.Show.{Show};
ghost use Rattle.pd_bench.specs.declared.tally.Outcome.{Outcome as OutcomeData};
ghost use Rattle.pd_bench.specs.declared.tally.Outcome.TheVariants as outcomes;
ghost use Rattle.pd_bench.specs.Session.{answered, counted, refused_text};
ghost use Rattle.pd_bench.specs.Stream.{IsRunning};
ghost use Rattle.pd_desk.specs.Desk.{Becomes, IsFaultOf, KeepsNotes, TakesNote};
ghost use Rattle.pd_desk.specs.Standings.{standing_of};

use crate::copy::copied;
use crate::notes::{NotedLine, Notes, Step};
use pd_bench::{Outcome, State, answer_line, refuse};
use pd_device::{BenchFault, TextOut, write_all};
use pd_edit::apply;
use pd_edit_lines::{Edit, EditFault, Line};
use pd_port::Meter;
use pd_run::Runner;
use pd_scenario::Scenario;
use std::alloc::{AllocError, Global};
use std::mem;

/// What a desk has come to.
#[derive(Drop)]
pub(crate) struct Desk<const N: usize> {
    /// The scenario that stands, and the counts.
    pub state: State<N>,
    /// The scenario that stood first.
    pub first: Scenario<N>,
    /// How many edits were accepted up to the one that led to the scenario that stands.
    pub number: u32,
    /// The same of the scenario that was saved last.
    pub saved: u32,
    pub notes: Notes<N>,
}

impl<const N: usize> Desk<N> {
    /// The same desk once more, to try lines on.
    ///
    /// # Errors
    /// There is no memory for it.
    pub fn copied(&self, alloc: Global) -> Result<Desk<N>, AllocError>
        ensures { IfOk result (λ copy. standing_of copy ≡ standing_of self.now) }
    {
        Ok(Desk {
            state: State {
                scenario: copied(alloc, &self.state.scenario)?,
                tally: self.state.tally,
            },
            first: copied(alloc, &self.first)?,
            number: self.number,
            saved: self.saved,
            notes: self.notes.copied(alloc)?,
        })
    }
}

/// Stands for an edited scenario from now on, and has noted the line of the edit, for which there is room.
pub(crate) fn put_edited<const N: usize>(line: NotedLine, edited: Scenario<N>, desk: &mut Desk<N>)
    requires earlier { vec_len desk.old.notes.earlier < vec_capacity desk.old.notes.earlier }
    requires older { vec_len desk.old.notes.older < vec_capacity desk.old.notes.older }
    requires room { answered desk.old.state.tally + 1 < 2 ^ 32 }
    ensures made { desk.new.state.scenario ≡ edited.entry }
    ensures counted { desk.new.state.tally ≡ counted desk.old.state.tally outcomes.Accepted }
    ensures noted { TakesNote outcomes.Accepted (standing_of desk.old) line (standing_of desk.new) }
    ensures room { answered desk.new.state.tally ≤ answered desk.old.state.tally + 1 }
{
    let scenario = mem::replace(&mut desk.state.scenario, edited);
    let number = desk.number;
    desk.notes.note(Step {
        scenario,
        number,
        line,
    });
    desk.notes.later.clear();
    desk.state.tally.count(Outcome::Accepted);
    desk.number = desk.state.tally.edits;
}

/// Stands for an edited scenario from now on, and has noted the line of the edit.
///
/// # Errors
/// There is no memory for it; all is as it was.
fn make<const N: usize, T: Runner<N>>(
    alloc: Global,
    line: &[u8],
    edited: Scenario<N>,
    desk: &mut Desk<N>,
    runner: &mut T,
    meter: &mut Meter,
) -> Result<(), AllocError>
    requires runs { IsRunning (T.plan runner.old) (T.entries runner.old) desk.old.state.scenario }
    requires room { answered desk.old.state.tally + 1 < 2 ^ 32 }
    ensures made { OnOk result (desk.new.state.scenario ≡ edited.entry) }
    ensures counted { OnOk result (desk.new.state.tally ≡ counted desk.old.state.tally outcomes.Accepted) }
    ensures noted { OnOk result (TakesNote outcomes.Accepted (standing_of desk.old) line.now (standing_of desk.new)) }
    ensures same_scenario { OnErr result (desk.new.state.scenario ≡ desk.old.state.scenario) }
    ensures same_tally { OnErr result (desk.new.state.tally ≡ desk.old.state.tally) }
    ensures same_notes { OnErr result (KeepsNotes (standing_of desk.old) (standing_of desk.new)) }
    ensures runs { IsRunning (T.plan runner.new) (T.entries runner.new) desk.new.state.scenario }
    ensures room { answered desk.new.state.tally ≤ answered desk.old.state.tally + 1 }
{
    let line = NotedLine::of(alloc, line)?;
    desk.notes.reserve()?;
    runner.replace(alloc, &edited, meter)?;
    put_edited(line, edited, desk);
    Ok(())
}

/// Refuses a line.
fn refuse_line<const N: usize, W: TextOut>(
    fault: EditFault,
    desk: &mut Desk<N>,
    writer: &mut W,
) -> Result<Option<EditFault>, BenchFault>
    requires { answered desk.old.state.tally + 1 < 2 ^ 32 }
    ensures text { Writes (W.taken writer.old) (W.taken writer.new) result (refused_text (number_of fault)) }
    ensures counts { CountsFailure (W.failures writer.old) (W.failures writer.new) result }
    ensures fault { IfOk result (λ told. told ≡ Some fault) }
    ensures same { desk.new.state.scenario ≡ desk.old.state.scenario }
    ensures notes { KeepsNotes (standing_of desk.old) (standing_of desk.new) }
    ensures counted { desk.new.state.tally ≡ counted desk.old.state.tally outcomes.Refused }
    ensures room { answered desk.new.state.tally ≤ answered desk.old.state.tally + 1 }
{
    refuse(fault, &mut desk.state, writer)?;
    Ok(Some(fault))
}

/// Answers an edit, and notes it; without room for that it isn't made. Answers why it is refused, where it is.
fn change<const N: usize, T: Runner<N>, W: TextOut>(
    alloc: Global,
    line: &[u8],
    edit: &Edit,
    desk: &mut Desk<N>,
    runner: &mut T,
    writer: &mut W,
    meter: &mut Meter,
) -> Result<Option<EditFault>, BenchFault>
    requires runs { IsRunning (T.plan runner.old) (T.entries runner.old) desk.old.state.scenario }
    requires room { answered desk.old.state.tally + 1 < 2 ^ 32 }
    ensures reply { (reply : List ℕ) × (outcome : OutcomeData)
        × Becomes N (standing_of desk.old) line.now (Ok (lines_read.Edit edit.now)) outcome reply (standing_of desk.new)
        × Writes (W.taken writer.old) (W.taken writer.new) result reply × IfOk result (λ fault. IsFaultOf fault outcome reply) }
    ensures counts { CountsFailure (W.failures writer.old) (W.failures writer.new) result }
    ensures runs { IsRunning (T.plan runner.new) (T.entries runner.new) desk.new.state.scenario }
    ensures room { answered desk.new.state.tally ≤ answered desk.old.state.tally + 1 }
{
    let edited = match apply(alloc, &desk.state.scenario, edit) {
        Ok(edited) => edited,
        Err(fault) => return refuse_line(fault, desk, writer),
    };
    if make(alloc, line, edited, desk, runner, meter).is_err() {
        return refuse_line(EditFault::Memory, desk, writer);
    }
    match write_all(writer, b"ok\n") {
        Ok(()) => Ok(None),
        Err(fault) => Err(fault),
    }
}

/// Answers a show. Answers why it is refused, where it is.
fn show<const N: usize, T: Runner<N>, W: TextOut>(
    alloc: Global,
    line: &[u8],
    desk: &mut Desk<N>,
    runner: &mut T,
    writer: &mut W,
    meter: &mut Meter,
) -> Result<Option<EditFault>, BenchFault>
    requires runs { IsRunning (T.plan runner.old) (T.entries runner.old) desk.old.state.scenario }
    requires room { answered desk.old.state.tally + 1 < 2 ^ 32 }
    requires show { (show : Show) × (line_of line.now ≡ Ok (lines_read.Show show)) }
    ensures reply { (reply : List ℕ) × (outcome : OutcomeData)
        × Becomes N (standing_of desk.old) line.now (line_of line.now) outcome reply (standing_of desk.new)
        × Writes (W.taken writer.old) (W.taken writer.new) result reply × IfOk result (λ fault. IsFaultOf fault outcome reply) }
    ensures counts { CountsFailure (W.failures writer.old) (W.failures writer.new) result }
    ensures runs { IsRunning (T.plan runner.new) (T.entries runner.new) desk.new.state.scenario }
    ensures room { answered desk.new.state.tally ≤ answered desk.old.state.tally + 1 }
{
    let refused = desk.state.tally.refused;
    answer_line(alloc, line, &mut desk.state, runner, writer, meter)?;
    if desk.state.tally.refused != refused {
        return Ok(Some(EditFault::NoSuchPort));
    }
    Ok(None)
}

/// Answers a line that isn't the desk's own, as a session does. Answers why it is refused, where it is.
pub(crate) fn answer_session<const N: usize, T: Runner<N>, W: TextOut>(
    alloc: Global,
    line: &[u8],
    desk: &mut Desk<N>,
    runner: &mut T,
    writer: &mut W,
    meter: &mut Meter,
) -> Result<Option<EditFault>, BenchFault>
    requires runs { IsRunning (T.plan runner.old) (T.entries runner.old) desk.old.state.scenario }
    requires room { answered desk.old.state.tally + 1 < 2 ^ 32 }
    ensures reply { (reply : List ℕ) × (outcome : OutcomeData)
        × Becomes N (standing_of desk.old) line.now (line_of line.now) outcome reply (standing_of desk.new)
        × Writes (W.taken writer.old) (W.taken writer.new) result reply × IfOk result (λ fault. IsFaultOf fault outcome reply) }
    ensures counts { CountsFailure (W.failures writer.old) (W.failures writer.new) result }
    ensures runs { IsRunning (T.plan runner.new) (T.entries runner.new) desk.new.state.scenario }
    ensures room { answered desk.new.state.tally ≤ answered desk.old.state.tally + 1 }
{
    match Line::read(line) {
        Ok(Line::Skip) => Ok(None),
        Ok(Line::Edit(edit)) => change(alloc, line, &edit, desk, runner, writer, meter),
        Ok(Line::Show(_)) => show(alloc, line, desk, runner, writer, meter),
        Err(fault) => refuse_line(fault, desk, writer),
    }
}
