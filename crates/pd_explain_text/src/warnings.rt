//! What a scenario is warned of, each warning behind where that was made.

ghost use Rattle.std.specs.Prelude.{◌≡◌, ◌++◌, IfOk, OnOk};
ghost use Rattle.pd_explain_text.specs.LastLine.{last_line};
ghost use Rattle.pd_explain_text.specs.Warnings.{TellsWarnings, place_front, warning_line, warning_told, warnings_text};

use crate::last_line::last_line;
use crate::sentences::push_sentence;
use pd_port::Meter;
use pd_scenario::Scenario;
use pd_scene::{MadeEdit, at_line};
use pd_text::Front;
use pd_text::Piece::{Flag, Text};
use pd_warn::{Warning, warnings};
use std::alloc::{AllocError, Global};

/// What is told of first where what is warned of was made: a line of the script, else the scenario's file.
fn place_front(
    alloc: Global,
    file: &Front,
    edits: &Front,
    line: Option<u64>,
) -> Result<Front, AllocError>
    ensures { IfOk result (λ front. front ≡ place_front file.now edits.now line) }
{
    match line {
        None => file.with(alloc, &[]),
        Some(line) => at_line(alloc, edits, line),
    }
}

/// Writes a line that warns of something in these words.
#[tactic(auto, unfolding(crate::specs::Warnings::warning_told))]
fn push_told(text: &mut Vec<u8>, front: &Front, words: &[u8]) -> Result<(), AllocError>
    ensures { OnOk result (text.new.items ≡ text.old.items ++ warning_told front.now words.now) }
{
    front.push_line(
        text,
        &[
            Flag(b": warning: ", b"", b"warning", true),
            Text(b"", b"sentence", words),
        ],
    )
}

/// Writes a warning on a line of its own, behind where what is warned of was made.
fn push_warning(
    alloc: Global,
    text: &mut Vec<u8>,
    front: &Front,
    warning: &Warning,
) -> Result<(), AllocError>
    ensures { OnOk result (text.new.items ≡ text.old.items ++ warning_line front.now warning.now) }
{
    let mut sentence = Vec::new(alloc);
    push_sentence(&mut sentence, warning)?;
    push_told(text, front, sentence.as_slice())
}

/// Writes a warning behind the line of these edits that made or changed last what is warned of.
fn push_made(
    alloc: Global,
    text: &mut Vec<u8>,
    file: &Front,
    edits: &Front,
    made: &[MadeEdit],
    warning: &Warning,
) -> Result<(), AllocError>
    ensures { OnOk result (text.new.items
        ≡ text.old.items ++ warning_line (place_front file.now edits.now (last_line warning.now made.now)) warning.now) }
{
    let front = place_front(alloc, file, edits, last_line(warning, made))?;
    push_warning(alloc, text, &front, warning)
}

/// Writes each of these warnings.
fn push_lines(
    alloc: Global,
    text: &mut Vec<u8>,
    file: &Front,
    edits: &Front,
    made: &[MadeEdit],
    warnings: &[Warning],
) -> Result<(), AllocError>
    ensures { OnOk result (text.new.items ≡ text.old.items ++ warnings_text file.now edits.now made.now warnings.now) }
{
    for warning in warnings {
        push_made(alloc, text, file, edits, made, warning)?;
    }
    Ok(())
}

/// Writes what a scenario is warned of to which these edits of a script led: a line for each warning, behind the script's name and
/// the number of the line that made what is warned of, or changed it last; where none did, behind the name of the scenario's file.
/// The meter counts the steps of the scenario's run.
///
/// # Errors
/// There is no memory; some of the lines may stand in the text.
pub(crate) fn push_warnings<const N: usize>(
    alloc: Global,
    text: &mut Vec<u8>,
    file: &Front,
    edits: &Front,
    made: &[MadeEdit],
    scenario: &Scenario<N>,
    meter: &mut Meter,
) -> Result<(), AllocError>
    ensures { OnOk result (TellsWarnings file.now edits.now made.now N scenario.now text.old.items text.new.items) }
{
    let found = warnings(alloc, scenario, meter)?;
    push_lines(alloc, text, file, edits, made, found.as_slice())
}
