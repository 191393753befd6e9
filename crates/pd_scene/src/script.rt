//! Why lines of an edit script are refused.

ghost use Rattle.std.specs.Prelude.{◌≡◌, ◌++◌, OnOk, IfOk, take};
ghost use Rattle.pd_text.specs.Texts.{text_of_all};
ghost use Rattle.pd_text.specs.declared.piece.Form.TheVariants.{Words};
ghost use Rattle.pd_edit.specs.Refusals.{edited};
ghost use Rattle.pd_explain.specs.Lines.{place_line, syntax_line};
ghost use Rattle.pd_explain.specs.Places.{reasons as reasons_of};
ghost use Rattle.pd_scene.specs.Script.{at_line, refused_at, reasons_text, edit_text, show_text, kept_or, line_text};
ghost use Rattle.pd_scene.specs.Script.{after_line, most_places, more_words, more_pieces, more_line, more_text};
ghost use Rattle.pd_scene.specs.Script.{first_reasons_text};

use pd_edit::apply;
use pd_edit_lines::{Edit, EditFault, Line, Show};
use pd_explain::{Place, Reason, is_port, push_place, push_syntax, reasons};
use pd_scenario::Scenario;
use pd_text::{Form, Front, Piece, Unit, push_pieces};
use std::alloc::{AllocError, Global};

/// So many places of a line are told at the most.
const MOST_PLACES: usize = 20;

/// What is told first of a refusal: where its line stands, and its number.
///
/// # Errors
/// There is no memory.
#[tactic(auto, unfolding(crate::specs::Script::refused_at))]
pub fn refused_at(alloc: Global, at: &Front, fault: EditFault) -> Result<Front, AllocError>
    ensures { IfOk result (λ front. front ≡ refused_at at.now fault) }
{
    at.refused(alloc, fault.number() as u64)
}

/// Writes a line for a refusal at a place.
///
/// # Errors
/// There is no memory for it; some of it may stand in the text.
pub fn push_reason<const N: usize>(
    alloc: Global,
    text: &mut Vec<u8>,
    at: &Front,
    fault: EditFault,
    scenario: &Scenario<N>,
    place: &Place,
) -> Result<(), AllocError>
    ensures { OnOk result (text.new.items ≡ text.old.items ++ place_line (refused_at at.now fault) N scenario.now place.now) }
{
    let front = refused_at(alloc, at, fault)?;
    push_place(alloc, text, &front, scenario, place)
}

/// Writes a line for each reason.
fn push_reasons<const N: usize>(
    alloc: Global,
    text: &mut Vec<u8>,
    at: &Front,
    scenario: &Scenario<N>,
    reasons: &[Reason],
) -> Result<(), AllocError>
    ensures { OnOk result (text.new.items ≡ text.old.items ++ reasons_text at.now N scenario.now reasons.now) }
{
    for reason in reasons {
        push_reason(alloc, text, at, reason.fault, scenario, &reason.place)?;
    }
    Ok(())
}

/// At most twenty of the reasons, from the first on.
fn first_reasons(reasons: &[Reason]) -> &[Reason]
    ensures { result.now ≡ take most_places reasons.now }
{
    if reasons.len() <= MOST_PLACES {
        reasons
    } else {
        &reasons[..MOST_PLACES]
    }
}

fn more_words(count: u64) -> &'static [u8]
    ensures { result.now ≡ more_words count }
{
    if count == 1 {
        b" more place"
    } else {
        b" more places"
    }
}

/// Writes how many more places there are, in words.
fn push_more_words(text: &mut Vec<u8>, count: u64) -> Result<(), AllocError>
    ensures { OnOk result (text.new.items ≡ text.old.items ++ text_of_all Words (more_pieces count)) }
{
    push_pieces(
        text,
        Form::Words,
        &[
            Piece::LineNumber(b"", Unit::Plain, count),
            Piece::LineWords(more_words(count)),
        ],
    )
}

#[tactic(auto, unfolding(crate::specs::Script::more_line))]
fn push_more_line(
    alloc: Global,
    text: &mut Vec<u8>,
    at: &Front,
    count: u64,
) -> Result<(), AllocError>
    ensures { OnOk result (text.new.items ≡ text.old.items ++ more_line at.now count) }
{
    let mut sentence = Vec::new(alloc);
    push_more_words(&mut sentence, count)?;
    at.push_line(
        text,
        &[Piece::Text(b": ", b"sentence", sentence.as_slice())],
    )
}

/// Writes how many more places there are, where there are any.
fn push_more(alloc: Global, text: &mut Vec<u8>, at: &Front, count: u64) -> Result<(), AllocError>
    ensures { OnOk result (text.new.items ≡ text.old.items ++ more_text at.now count) }
{
    if count == 0 {
        Ok(())
    } else {
        push_more_line(alloc, text, at, count)
    }
}

/// Writes a line for each of the first reasons, and how many more places there are.
#[tactic(auto, unfolding(crate::specs::Script::first_reasons_text))]
fn push_first_reasons<const N: usize>(
    alloc: Global,
    text: &mut Vec<u8>,
    at: &Front,
    scenario: &Scenario<N>,
    reasons: &[Reason],
) -> Result<(), AllocError>
    ensures { OnOk result (text.new.items ≡ text.old.items ++ first_reasons_text at.now N scenario.now reasons.now) }
{
    push_reasons(alloc, text, at, scenario, first_reasons(reasons))?;
    let more = reasons.len().saturating_sub(MOST_PLACES) as u64;
    push_more(alloc, text, at, more)
}

/// Writes why a line is none of an edit script.
pub(crate) fn push_no_line(
    alloc: Global,
    text: &mut Vec<u8>,
    at: &Front,
    fault: EditFault,
    line: &[u8],
) -> Result<(), AllocError>
    ensures { OnOk result (text.new.items ≡ text.old.items ++ syntax_line (refused_at at.now fault) line.now) }
{
    let front = refused_at(alloc, at, fault)?;
    push_syntax(alloc, text, &front, line)
}

/// Writes why a show is refused.
pub(crate) fn push_show<const N: usize>(
    alloc: Global,
    text: &mut Vec<u8>,
    at: &Front,
    scenario: &Scenario<N>,
    show: Show,
) -> Result<(), AllocError>
    ensures { OnOk result (text.new.items ≡ text.old.items ++ show_text at.now N scenario.now show) }
{
    match show {
        Show::Transcript { port } if !is_port(N, port) => {
            push_reason(
                alloc,
                text,
                at,
                EditFault::NoSuchPort,
                scenario,
                &Place::Port { port },
            )
        }
        _ => Ok(()),
    }
}

/// Writes why an edit is refused.
pub(crate) fn push_refused<const N: usize>(
    alloc: Global,
    text: &mut Vec<u8>,
    at: &Front,
    scenario: &Scenario<N>,
    edit: &Edit,
) -> Result<(), AllocError>
    ensures { OnOk result (text.new.items
        ≡ text.old.items ++ first_reasons_text at.now N scenario.now (reasons_of N scenario.now edit.now)) }
{
    let reasons = reasons(alloc, scenario, edit)?;
    push_first_reasons(alloc, text, at, scenario, reasons.as_slice())
}

/// Makes an edit, or writes why it is refused.
fn push_edit<const N: usize>(
    alloc: Global,
    text: &mut Vec<u8>,
    at: &Front,
    scenario: &mut Scenario<N>,
    edit: &Edit,
) -> Result<(), AllocError>
    ensures text { OnOk result (text.new.items
        ≡ text.old.items ++ edit_text at.now N scenario.old edit.now (edited N scenario.old edit.now)) }
    ensures after { OnOk result (scenario.new ≡ kept_or scenario.old (edited N scenario.old edit.now)) }
{
    match apply(alloc, scenario, edit) {
        Ok(after) => {
            *scenario = after;
            Ok(())
        }
        Err(EditFault::Memory) => Err(AllocError),
        Err(_) => push_refused(alloc, text, at, scenario, edit),
    }
}

/// Takes in a line, and writes why it is refused, where it is: a line for each of at most twenty places at which a refusal
/// applies, those of the least first, and how many more there are.
///
/// # Errors
/// There is no memory for it; some of it may stand in the text.
#[tactic(auto, unfolding(crate::specs::Script::line_text, crate::specs::Script::after_line))]
pub fn explain_line<const N: usize>(
    alloc: Global,
    text: &mut Vec<u8>,
    at: &Front,
    scenario: &mut Scenario<N>,
    line: &[u8],
) -> Result<(), AllocError>
    ensures text { OnOk result (text.new.items ≡ text.old.items ++ line_text at.now N scenario.old line.now) }
    ensures after { OnOk result (scenario.new ≡ after_line N scenario.old line.now) }
{
    match Line::read(line) {
        Ok(Line::Skip) => Ok(()),
        Ok(Line::Edit(edit)) => push_edit(alloc, text, at, scenario, &edit),
        Ok(Line::Show(show)) => push_show(alloc, text, at, scenario, show),
        Err(fault) => push_no_line(alloc, text, at, fault, line),
    }
}

/// What is told first of a line of a file: the file, and the line's number, from 1.
///
/// # Errors
/// There is no memory.
#[tactic(auto, unfolding(crate::specs::Script::at_line))]
pub fn at_line(alloc: Global, file: &Front, line: u64) -> Result<Front, AllocError>
    ensures { IfOk result (λ front. front ≡ at_line file.now line) }
{
    file.with(alloc, &[Piece::Number(b":", b"line", Unit::Plain, line)])
}
