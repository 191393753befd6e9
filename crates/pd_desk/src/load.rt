//! Edit scripts that are loaded: all of their edits are made, or none.

ghost use Rattle.std.specs.Prelude.{◌≡◌, ◌⊎◌, ◌+◌, ◌<◌, ◌≤◌, ◌^◌, ◌++◌, true, false, nat_lt, IfOk, OnOk, MatchResult, codes};
ghost use Rattle.std.specs.Str.Lines.{lines};
ghost use Rattle.pd_edit.specs.Refusals.{edited};
ghost use Rattle.pd_edit_lines.specs.Grammar.{line_of};
ghost use Rattle.pd_edit_lines.specs.Words.{words};
ghost use Rattle.pd_edit_lines.specs.declared.line.Line.TheVariants as lines_read;
ghost use Rattle.pd_bench.specs.Session.{answered};
ghost use Rattle.pd_bench.specs.Stream.{IsRunning};
ghost use Rattle.pd_explain_text.specs.Told.{script_told};
ghost use Rattle.pd_scene.specs.Script.{after_line, is_any_refused, is_line_refused, is_read_refused, is_show_refused};
ghost use Rattle.pd_desk.specs.Commands.{second};
ghost use Rattle.pd_desk.specs.Desk.{Loads, TakesAll, TakesIn, with_shelf};
ghost use Rattle.pd_desk.specs.declared.colon.Colon.TheVariants as colons;
ghost use Rattle.pd_desk.specs.Loading.{has_head, is_head, refusals_text};
ghost use Rattle.pd_desk.specs.Standings.{IsNotDone, standing_of};

use crate::copy::copied;
use crate::desk::{Desk, put_edited};
use crate::notes::NotedLine;
use crate::own::NotDone;
use crate::steps::turn;
use crate::{OwnFault, Shelf, file_of};
use pd_bench::Tally;
use pd_edit::apply;
use pd_edit_lines::{Edit, EditFault, Line, Show};
use pd_explain::is_port;
use pd_port::Meter;
use pd_run::Runner;
use pd_scenario::Scenario;
use pd_scene::{at_line, explain_line, first_line};
use pd_text::{Form, Front};
use std::alloc::{AllocError, Global};

/// The most lines that are counted where an edit of a script is made: it leaves room for all that can be typed.
const MOST_COUNTED: u32 = 4_000_000_000;

/// Whether a line begins as the head of a table does.
fn is_head(line: &[u8]) -> bool
    ensures { result ≡ is_head line.now }
{
    match line {
        [] => false,
        [byte, ..] => *byte == b'[',
    }
}

/// Whether a line of a text does, as of each scenario.
fn has_head(text: &[u8]) -> bool
    ensures { result ≡ has_head (lines text.now) }
{
    let mut rest = text;
    while let Some((line, others)) = first_line(rest) {
        if is_head(line) {
            return true;
        }
        rest = others;
    }
    false
}

/// Whether a show is of a port that isn't there.
fn is_show_refused(ports: usize, show: Show) -> bool
    ensures { result ≡ is_show_refused ports show }
{
    match show {
        Show::Transcript { port } => !is_port(ports, port),
        _ => false,
    }
}

/// Whether one more edit of a script can be counted.
fn has_room(tally: Tally) -> bool
    requires { answered tally + 1 < 2 ^ 32 }
    ensures { result ≡ nat_lt (answered tally) 4000000000 }
{
    tally.edits + tally.refused + tally.shows < MOST_COUNTED
}

/// Makes an edit as one that is typed; says whether it is refused instead.
fn take_edit<const N: usize>(
    alloc: Global,
    line: &[u8],
    edit: &Edit,
    desk: &mut Desk<N>,
) -> Result<bool, AllocError>
    requires room { answered desk.old.state.tally + 1 < 2 ^ 32 }
    ensures refused { IfOk result (λ refused. refused ≡ is_read_refused N desk.old.state.scenario (Ok (lines_read.Edit edit.now))) }
    ensures takes { IfOk result (λ refused. refused ≡ false → TakesIn N (standing_of desk.old) line.now (Ok (lines_read.Edit edit.now))
        (standing_of desk.new)) }
    ensures room { (answered desk.new.state.tally ≤ answered desk.old.state.tally) ⊎ (answered desk.new.state.tally ≤ 4000000000) }
{
    let edited = match apply(alloc, &desk.state.scenario, edit) {
        Ok(edited) => edited,
        Err(EditFault::Memory) => return Err(AllocError),
        Err(_) => return Ok(true),
    };
    if !has_room(desk.state.tally) {
        return Err(AllocError);
    }
    let line = NotedLine::of(alloc, line)?;
    desk.notes.reserve()?;
    put_edited(line, edited, desk);
    Ok(false)
}

/// Takes in a line of a script: makes its edit, where it is one that isn't refused; says whether the line is refused.
#[tactic(auto, unfolding(pd_scene::specs::Script::is_line_refused))]
fn take_line<const N: usize>(
    alloc: Global,
    line: &[u8],
    desk: &mut Desk<N>,
) -> Result<bool, AllocError>
    requires room { answered desk.old.state.tally + 1 < 2 ^ 32 }
    ensures refused { IfOk result (λ refused. refused ≡ is_line_refused N desk.old.state.scenario line.now) }
    ensures takes { IfOk result (λ refused. refused ≡ false → TakesIn N (standing_of desk.old) line.now (line_of line.now)
        (standing_of desk.new)) }
    ensures room { (answered desk.new.state.tally ≤ answered desk.old.state.tally) ⊎ (answered desk.new.state.tally ≤ 4000000000) }
{
    match Line::read(line) {
        Ok(Line::Skip) => Ok(false),
        Ok(Line::Edit(edit)) => take_edit(alloc, line, &edit, desk),
        Ok(Line::Show(show)) => Ok(is_show_refused(N, show)),
        Err(_) => Ok(true),
    }
}

/// Makes the edits of a script, up to a line that is refused; says whether one is.
///
/// # Errors
/// There is no memory; some of the edits may be made.
fn take_lines<const N: usize>(
    alloc: Global,
    script: &[u8],
    desk: &mut Desk<N>,
) -> Result<bool, AllocError>
    requires room { answered desk.old.state.tally + 1 < 2 ^ 32 }
    ensures refused { IfOk result (λ any. any ≡ is_any_refused N desk.old.state.scenario (lines script.now)) }
    ensures takes { IfOk result (λ any. any ≡ false → TakesAll N (standing_of desk.old) (lines script.now) (standing_of desk.new)) }
    ensures room { (answered desk.new.state.tally ≤ answered desk.old.state.tally) ⊎ (answered desk.new.state.tally ≤ 4000000000) }
{
    let mut rest = script;
    while let Some((line, others)) = first_line(rest) {
        if take_line(alloc, line, desk)? {
            return Ok(true);
        }
        rest = others;
    }
    Ok(false)
}

/// Why lines of a script are refused, behind the name of its file.
fn told_lines<const N: usize>(
    alloc: Global,
    scenario: &Scenario<N>,
    file: &Front,
    script: &[u8],
) -> Result<Vec<u8>, AllocError>
    ensures { IfOk result (λ told. told.items ≡ script_told file.now N scenario.now 1 (lines script.now)) }
{
    let mut edited = copied(alloc, scenario)?;
    let mut told = Vec::new(alloc);
    let mut rest = script;
    let mut number = 1;
    while let Some((line, others)) = first_line(rest) {
        let at = at_line(alloc, file, number)?;
        explain_line(alloc, &mut told, &at, &mut edited, line)?;
        rest = others;
        number += 1;
    }
    Ok(told)
}

/// That, and that none of the script is loaded.
fn refusals<const N: usize>(
    alloc: Global,
    scenario: &Scenario<N>,
    file: &[u8],
    script: &[u8],
) -> Result<Vec<u8>, AllocError>
    ensures { IfOk result (λ told. told.items ≡ refusals_text N scenario.now file.now script.now) }
{
    let front = Front::of_file(alloc, Form::Words, file)?;
    let mut told = told_lines(alloc, scenario, &front, script)?;
    told.extend_from_slice(b"not loaded: the file has lines that are refused\n")?;
    Ok(told)
}

/// Makes the edits of the script that a line names, as if each was typed; or none, where a line of it is refused.
pub(crate) fn load<const N: usize, T: Runner<N>, S: Shelf>(
    alloc: Global,
    line: &[u8],
    desk: &mut Desk<N>,
    runner: &mut T,
    shelf: &S,
    meter: &mut Meter,
) -> Result<Vec<u8>, NotDone>
    requires runs { IsRunning (T.plan runner.old) (T.entries runner.old) desk.old.state.scenario }
    requires room { answered desk.old.state.tally + 1 < 2 ^ 32 }
    ensures text { MatchResult result
        (λ text. Loads N (with_shelf (standing_of desk.old) (S.known shelf.now)) (second (words line.now)) text.items
        (with_shelf (standing_of desk.new) (S.known shelf.now)))
        (λ why. IsNotDone N (with_shelf (standing_of desk.old) (S.known shelf.now)) (Some colons.Load) line.now why
        (with_shelf (standing_of desk.new) (S.known shelf.now))) }
    ensures runs { IsRunning (T.plan runner.new) (T.entries runner.new) desk.new.state.scenario }
    ensures room { (answered desk.new.state.tally ≤ answered desk.old.state.tally) ⊎ (answered desk.new.state.tally ≤ 4000000000) }
{
    let Some(file) = file_of(line) else {
        return Err(NotDone::Fault(OwnFault::Unknown));
    };
    let Ok(script) = shelf.get(alloc, file) else {
        return Err(NotDone::Fault(OwnFault::NotLoaded));
    };
    let script = script.as_slice();
    if has_head(script) {
        return Err(NotDone::Fault(OwnFault::NoScript));
    }
    let mut ahead = desk.copied(alloc)?;
    if take_lines(alloc, script, &mut ahead)? {
        let told = refusals(alloc, &desk.state.scenario, file, script)?;
        return Err(NotDone::Refused(told));
    }
    let (scenario, edited) = (&desk.state.scenario, &ahead.state.scenario);
    let text = turn(alloc, b"= load\n", scenario, edited, runner, meter)?;
    *desk = ahead;
    Ok(text)
}
