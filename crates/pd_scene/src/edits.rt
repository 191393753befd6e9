//! Which scenario an edit script leads to, and whether a line of it is refused.

ghost use Rattle.std.specs.Prelude.{◌≡◌, ◌||◌, IfOk, OnOk, is_err};
ghost use Rattle.std.specs.Str.Lines.{lines};
ghost use Rattle.pd_edit.specs.Refusals.{edited};
ghost use Rattle.pd_scene.specs.Script.{after_line, followed, is_any_refused, is_line_refused, is_show_refused, kept_or};

use crate::lines::first_line;
use pd_edit::apply;
use pd_edit_lines::{Edit, EditFault, Line, Show};
use pd_explain::is_port;
use pd_scenario::Scenario;
use std::alloc::{AllocError, Global};

/// What is done about a line that is refused.
#[derive(Clone, Copy, Debug, PartialEq, Eq)]
pub enum Refused {
    /// Nothing is done but that it is told.
    Ends,
    /// It changes nothing, and the other lines are followed.
    Skipped,
}

/// Whether a show is of a port that isn't there.
fn is_show_refused(ports: usize, show: Show) -> bool
    ensures { result ≡ is_show_refused ports show }
{
    match show {
        Show::Transcript { port } => !is_port(ports, port),
        _ => false,
    }
}

/// Makes an edit; says whether it is refused instead.
fn follow_edit<const N: usize>(
    alloc: Global,
    scenario: &mut Scenario<N>,
    edit: &Edit,
) -> Result<bool, AllocError>
    ensures after { OnOk result (scenario.new ≡ kept_or scenario.old (edited N scenario.old edit.now)) }
    ensures refused { IfOk result (λ any. any ≡ is_err (edited N scenario.old edit.now)) }
{
    match apply(alloc, scenario, edit) {
        Ok(after) => {
            *scenario = after;
            Ok(false)
        }
        Err(EditFault::Memory) => Err(AllocError),
        Err(_) => Ok(true),
    }
}

/// Takes in a line: makes its edit, where it is one that isn't refused; says whether the line is refused.
#[tactic(auto, unfolding(crate::specs::Script::after_line, crate::specs::Script::is_line_refused))]
fn follow_line<const N: usize>(
    alloc: Global,
    scenario: &mut Scenario<N>,
    line: &[u8],
) -> Result<bool, AllocError>
    ensures after { OnOk result (scenario.new ≡ after_line N scenario.old line.now) }
    ensures refused { IfOk result (λ any. any ≡ is_line_refused N scenario.old line.now) }
{
    match Line::read(line) {
        Ok(Line::Skip) => Ok(false),
        Ok(Line::Edit(edit)) => follow_edit(alloc, scenario, &edit),
        Ok(Line::Show(show)) => Ok(is_show_refused(N, show)),
        Err(_) => Ok(true),
    }
}

fn either(before: bool, here: bool) -> bool
    ensures { result ≡ (before || here) }
{
    before || here
}

/// Makes the edits of a script, one after the other, and says whether a line is refused. Such a line changes nothing, nor does a show.
///
/// # Errors
/// There is no memory; some of the edits may be made.
pub fn follow<const N: usize>(
    alloc: Global,
    scenario: &mut Scenario<N>,
    script: &[u8],
) -> Result<bool, AllocError>
    ensures after { OnOk result (scenario.new ≡ followed N scenario.old (lines script.now)) }
    ensures refused { IfOk result (λ any. any ≡ is_any_refused N scenario.old (lines script.now)) }
{
    let mut any = false;
    let mut rest = script;
    while let Some((line, others)) = first_line(rest) {
        let is_refused = follow_line(alloc, scenario, line)?;
        any = either(any, is_refused);
        rest = others;
    }
    Ok(any)
}
