//! Edit scripts that are explained line by line.

ghost use Rattle.std.specs.Prelude.{◌≡◌, ◌++◌, ◌||◌, nat_lt, length, IfOk, OnOk};
ghost use Rattle.std.specs.Str.Lines.{lines};
ghost use Rattle.pd_scene.specs.Made.{line_made, made};
ghost use Rattle.pd_scene.specs.Script.{after_line, at_line, followed, line_text};
ghost use Rattle.pd_text.specs.Fronts.{front_of_file};
ghost use Rattle.pd_explain_text.specs.Told.{CountsTold, Tells, TellsEnd, TellsLines};

use crate::form::Telling;
use crate::warnings::push_warnings;
use pd_device::{BenchFault, TextOut, write_all};
use pd_port::Meter;
use pd_scenario::Scenario;
use pd_scene::{MadeEdit, at_line, first_line, note_line};
use pd_text::Front;
use std::alloc::{AllocError, Global};

/// Takes in a line of a script: tells why it is refused, where it is, or makes its edit and notes that.
fn take_line<const N: usize>(
    alloc: Global,
    edits: &Front,
    scenario: &mut Scenario<N>,
    made: &mut Vec<MadeEdit>,
    number: u64,
    line: &[u8],
) -> Result<Vec<u8>, AllocError>
    ensures told { IfOk result (λ v. v.items ≡ line_text (at_line edits.now number) N scenario.old line.now) }
    ensures after { OnOk result (scenario.new ≡ after_line N scenario.old line.now) }
    ensures made { OnOk result (made.new.items ≡ made.old.items ++ line_made number N scenario.old line.now) }
{
    let at = at_line(alloc, edits, number)?;
    let mut text = Vec::new(alloc);
    note_line(alloc, &mut text, made, &at, number, scenario, line)?;
    Ok(text)
}

/// Whether anything is told: before, or here.
fn is_any(before: bool, told: &[u8]) -> bool
    ensures { result ≡ (before || nat_lt 0 (length told.now)) }
{
    before || !told.is_empty()
}

/// Takes in the lines of a script, and writes why they are refused, each before it takes in the next; says whether one is.
pub(crate) fn write_lines<const N: usize, W: TextOut>(
    alloc: Global,
    edits: &Front,
    scenario: &mut Scenario<N>,
    noted: &mut Vec<MadeEdit>,
    script: &[u8],
    writer: &mut W,
) -> Result<bool, BenchFault>
    ensures text { TellsLines edits.now N scenario.old (lines script.now) result (W.taken writer.old) (W.taken writer.new) }
    ensures after { OnOk result (scenario.new ≡ followed N scenario.old (lines script.now)) }
    ensures made { OnOk result (noted.new.items ≡ noted.old.items ++ made N scenario.old 1 (lines script.now)) }
    ensures counts { CountsTold result (W.failures writer.old) (W.failures writer.new) }
{
    let mut any = false;
    let mut rest = script;
    let mut number = 1;
    while let Some((line, others)) = first_line(rest) {
        let Ok(told) = take_line(alloc, edits, scenario, noted, number, line) else {
            return Err(BenchFault::Memory);
        };
        let told = told.as_slice();
        write_all(writer, told)?;
        any = is_any(any, told);
        rest = others;
        number += 1;
    }
    Ok(any)
}

/// What is told at the end: where it is wanted, what a scenario is warned of to which these edits led.
fn end_told<const N: usize>(
    alloc: Global,
    telling: &Telling<'_>,
    edits: &Front,
    scenario: &Scenario<N>,
    made: &[MadeEdit],
    meter: &mut Meter,
) -> Result<Vec<u8>, AllocError>
    ensures { IfOk result (λ v. TellsEnd telling.now.warns (front_of_file telling.now.form telling.now.file.now) edits.now
        N scenario.now made.now v.items) }
{
    let mut text = Vec::new(alloc);
    if !telling.warns {
        return Ok(text);
    }
    let file = Front::of_file(alloc, telling.form, telling.file)?;
    push_warnings(alloc, &mut text, &file, edits, made, scenario, meter)?;
    Ok(text)
}

/// Writes why lines of a script are refused, behind what is told first of it, and where it is wanted what the scenario is warned of, as
/// the script leaves it; says whether a line is refused.
fn explain_behind<const N: usize, W: TextOut>(
    alloc: Global,
    telling: &Telling<'_>,
    edits: &Front,
    scenario: Scenario<N>,
    script: &[u8],
    meter: &mut Meter,
    writer: &mut W,
) -> Result<bool, BenchFault>
    ensures text { Tells telling.now.warns (front_of_file telling.now.form telling.now.file.now) edits.now
        N scenario.entry (lines script.now) result (W.taken writer.old) (W.taken writer.new) }
    ensures counts { CountsTold result (W.failures writer.old) (W.failures writer.new) }
{
    let mut scenario = scenario;
    let mut made = Vec::new(alloc);
    let any = write_lines(alloc, edits, &mut scenario, &mut made, script, writer)?;
    let Ok(end) = end_told(alloc, telling, edits, &scenario, made.as_slice(), meter) else {
        return Err(BenchFault::Memory);
    };
    write_all(writer, end.as_slice())?;
    Ok(any)
}

/// Writes why lines of a script are refused, and where it is wanted what the scenario is warned of, as the script leaves it; says
/// whether a line is refused.
pub(crate) fn explain<const N: usize, W: TextOut>(
    alloc: Global,
    telling: &Telling<'_>,
    scenario: Scenario<N>,
    script: &[u8],
    meter: &mut Meter,
    writer: &mut W,
) -> Result<bool, BenchFault>
    ensures text { Tells telling.now.warns (front_of_file telling.now.form telling.now.file.now)
        (front_of_file telling.now.form telling.now.edits.now) N scenario.entry (lines script.now) result
        (W.taken writer.old) (W.taken writer.new) }
    ensures counts { CountsTold result (W.failures writer.old) (W.failures writer.new) }
{
    let Ok(edits) = Front::of_file(alloc, telling.form, telling.edits) else {
        return Err(BenchFault::Memory);
    };
    explain_behind(alloc, telling, &edits, scenario, script, meter, writer)
}
