//! Why a line of a session is refused.

ghost use Rattle.std.specs.Prelude.{◌≡◌, ◌++◌, codes, option_map, IfOk, OnOk};
ghost use Rattle.std.specs.List.{flat_map};
ghost use Rattle.pd_edit.specs.Refusals.{edited};
ghost use Rattle.pd_explain.specs.Lines.{place_line};
ghost use Rattle.pd_explain.specs.Places.{reasons};
ghost use Rattle.pd_edit_lines.specs.Words.{words};
ghost use Rattle.pd_desk.specs.LineReasons.{bare, edit_reasons, meant_first, no_line_text, reasons_text, show_reasons};

use crate::colon::meant;
use pd_edit::apply;
use pd_edit_lines::{Edit, EditFault, Line, Show, next};
use pd_explain::{Place, Reason, is_port, push_place, push_syntax, reasons};
use pd_scenario::Scenario;
use pd_text::{Form, Front};
use std::alloc::{AllocError, Global};

/// The most bytes of a line.
const LONGEST_LINE: usize = 256;

/// What is told before a sentence: nothing.
#[tactic(auto, unfolding(crate::specs::LineReasons::bare))]
fn bare(alloc: Global) -> Result<Front, AllocError>
    ensures { IfOk result (λ front. front ≡ bare) }
{
    Front::of_file(alloc, Form::Words, b"")
}

/// Writes a line for the place of each reason.
fn push_places<const N: usize>(
    alloc: Global,
    text: &mut Vec<u8>,
    front: &Front,
    scenario: &Scenario<N>,
    reasons: &[Reason],
) -> Result<(), AllocError>
    ensures { OnOk result (text.new.items
        ≡ text.old.items ++ flat_map (λ r. place_line front.now N scenario.now r.place) reasons.now) }
{
    for reason in reasons {
        push_place(alloc, text, front, scenario, &reason.place)?;
    }
    Ok(())
}

/// Writes a line for the place of each reason for which an edit is refused.
fn push_refused<const N: usize>(
    alloc: Global,
    text: &mut Vec<u8>,
    scenario: &Scenario<N>,
    edit: &Edit,
) -> Result<(), AllocError>
    ensures { OnOk result (text.new.items
        ≡ text.old.items ++ flat_map (λ r. place_line bare N scenario.now r.place) (reasons N scenario.now edit.now)) }
{
    let front = bare(alloc)?;
    let reasons = reasons(alloc, scenario, edit)?;
    push_places(alloc, text, &front, scenario, reasons.as_slice())
}

/// Writes why an edit is refused, where it is.
fn push_edit<const N: usize>(
    alloc: Global,
    text: &mut Vec<u8>,
    scenario: &Scenario<N>,
    edit: &Edit,
) -> Result<(), AllocError>
    ensures { OnOk result (text.new.items
        ≡ text.old.items ++ edit_reasons N scenario.now edit.now (edited N scenario.now edit.now)) }
{
    match apply(alloc, scenario, edit) {
        Ok(_) => Ok(()),
        Err(EditFault::Memory) => Err(AllocError),
        Err(_) => push_refused(alloc, text, scenario, edit),
    }
}

/// Writes why a show is refused, where it is.
fn push_show<const N: usize>(
    alloc: Global,
    text: &mut Vec<u8>,
    scenario: &Scenario<N>,
    show: Show,
) -> Result<(), AllocError>
    ensures { OnOk result (text.new.items ≡ text.old.items ++ show_reasons N scenario.now show) }
{
    match show {
        Show::Transcript { port } if !is_port(N, port) => {
            let front = bare(alloc)?;
            push_place(alloc, text, &front, scenario, &Place::Port { port })
        }
        _ => Ok(()),
    }
}

/// The command that the first word of a line means, where it is one without its colon.
fn meant_first(line: &[u8]) -> Option<&'static [u8]>
    ensures { option_map (λ x. x.now) result ≡ meant_first (words line.now) }
{
    let (word, _) = next(line)?;
    meant(word)
}

/// Writes which command is meant.
fn push_meant(text: &mut Vec<u8>, command: &[u8]) -> Result<(), AllocError>
    ensures { OnOk result (text.new.items ≡ text.old.items ++ (codes "did you mean " ++ (command.now ++ codes "?\n"))) }
{
    text.extend_from_slice(b"did you mean ")?;
    text.extend_from_slice(command)?;
    text.extend_from_slice(b"?\n")?;
    Ok(())
}

/// Writes why a line is none of an edit script.
#[tactic(auto, unfolding(crate::specs::LineReasons::no_line_text))]
fn push_no_line(alloc: Global, text: &mut Vec<u8>, line: &[u8]) -> Result<(), AllocError>
    ensures { OnOk result (text.new.items ≡ text.old.items ++ no_line_text line.now) }
{
    if line.len() > LONGEST_LINE {
        return text.extend_from_slice(b"the line has more than 256 bytes\n");
    }
    match meant_first(line) {
        Some(command) => push_meant(text, command),
        None => {
            let front = bare(alloc)?;
            push_syntax(alloc, text, &front, line)
        }
    }
}

/// Writes why a line is refused, with the scenario as it stands: a line for each place at which a refusal applies, those of
/// the least first. A line that isn't refused for its own sake needs no words.
///
/// # Errors
/// There is no memory for it; some of it may stand in the text.
#[tactic(auto, unfolding(crate::specs::LineReasons::reasons_text))]
pub fn push_reasons<const N: usize>(
    alloc: Global,
    text: &mut Vec<u8>,
    scenario: &Scenario<N>,
    line: &[u8],
) -> Result<(), AllocError>
    ensures { OnOk result (text.new.items ≡ text.old.items ++ reasons_text N scenario.now line.now) }
{
    match Line::read(line) {
        Ok(Line::Skip) => Ok(()),
        Ok(Line::Edit(edit)) => push_edit(alloc, text, scenario, &edit),
        Ok(Line::Show(show)) => push_show(alloc, text, scenario, show),
        Err(_) => push_no_line(alloc, text, line),
    }
}
