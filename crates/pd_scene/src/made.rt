//! Lines taken in one by one: why each is refused, or which edit it makes.

ghost use Rattle.std.specs.Prelude.{◌≡◌, ◌++◌, OnOk};
ghost use Rattle.pd_edit.specs.Refusals.{edited};
ghost use Rattle.pd_scene.specs.Script.{after_line, edit_text, kept_or, line_text};
ghost use Rattle.pd_scene.specs.Made.{edit_made, line_made};

use crate::script::{push_no_line, push_refused, push_show};
use pd_edit::apply;
use pd_edit_lines::{Edit, EditFault, Line};
use pd_scenario::Scenario;
use pd_text::Front;
use std::alloc::{AllocError, Global};

/// An edit that was made, and the number of its line in the script, from 1.
#[derive(Drop)]
pub struct MadeEdit {
    pub line: u64,
    pub edit: Edit,
}

/// Makes the edit of a line and notes it, or writes why it is refused.
fn note_edit<const N: usize>(
    alloc: Global,
    text: &mut Vec<u8>,
    made: &mut Vec<MadeEdit>,
    at: &Front,
    number: u64,
    scenario: &mut Scenario<N>,
    edit: Edit,
) -> Result<(), AllocError>
    ensures text { OnOk result (text.new.items
        ≡ text.old.items ++ edit_text at.now N scenario.old edit (edited N scenario.old edit)) }
    ensures after { OnOk result (scenario.new ≡ kept_or scenario.old (edited N scenario.old edit)) }
    ensures made { OnOk result (made.new.items ≡ made.old.items ++ edit_made number edit (edited N scenario.old edit)) }
{
    match apply(alloc, scenario, &edit) {
        Ok(after) => {
            *scenario = after;
            made.push(MadeEdit { line: number, edit })?;
            Ok(())
        }
        Err(EditFault::Memory) => Err(AllocError),
        Err(_) => push_refused(alloc, text, at, scenario, &edit),
    }
}

/// Does what `explain_line` does, and notes the edit that the line makes, with its number.
///
/// # Errors
/// There is no memory; some of the words may stand in the text, and the edit may be made and not noted.
#[tactic(auto, unfolding(crate::specs::Script::line_text, crate::specs::Script::after_line, crate::specs::Made::line_made))]
pub fn note_line<const N: usize>(
    alloc: Global,
    text: &mut Vec<u8>,
    made: &mut Vec<MadeEdit>,
    at: &Front,
    number: u64,
    scenario: &mut Scenario<N>,
    line: &[u8],
) -> Result<(), AllocError>
    ensures text { OnOk result (text.new.items ≡ text.old.items ++ line_text at.now N scenario.old line.now) }
    ensures after { OnOk result (scenario.new ≡ after_line N scenario.old line.now) }
    ensures made { OnOk result (made.new.items ≡ made.old.items ++ line_made number N scenario.old line.now) }
{
    match Line::read(line) {
        Ok(Line::Skip) => Ok(()),
        Ok(Line::Edit(edit)) => note_edit(alloc, text, made, at, number, scenario, edit),
        Ok(Line::Show(show)) => push_show(alloc, text, at, scenario, show),
        Err(fault) => push_no_line(alloc, text, at, fault, line),
    }
}
