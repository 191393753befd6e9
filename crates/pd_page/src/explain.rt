//! What is wrong with a scenario and a script.

ghost use Rattle.std.specs.Prelude.{IfSome};
ghost use Rattle.pd_scenario_text.specs.Texts.{IsRefused};
ghost use Rattle.pd_page.specs.Answers.{Answers};
ghost use Rattle.pd_page.specs.Explained.{Explains, IsRefusedAt, TellsFile};

use crate::Ending;
use crate::answer::{Answer, no_output};
use pd_explain_text::{Form, Telling, explain_text};
use pd_places::explain_places;
use pd_port::Meter;
use pd_scene::{ScenarioFault, SceneFault};
use std::alloc::Global;

/// The places at which a scenario's file of a name breaks rules, where there are any, and memory for them.
fn file_text(alloc: Global, file: &[u8], scenario: &[u8]) -> Option<Vec<u8>>
    ensures { IfSome result (λ text. TellsFile file.now scenario.now text.items) }
{
    let places = explain_places(alloc, Form::Json, file, scenario).ok()?;
    if places.is_empty() {
        return None;
    }
    Some(places)
}

/// What is told of a file that is refused. Where it breaks no rule, it was memory that was wanting.
fn refused(alloc: Global, file: &[u8], scenario: &[u8], fault: ScenarioFault) -> Answer
    requires { IsRefused scenario.now fault }
    ensures { IsRefusedAt file.now scenario.now result.ending result.text.items }
{
    if fault == ScenarioFault::Memory {
        return Answer::none(alloc, Ending::NoMemory);
    }
    match file_text(alloc, file, scenario) {
        Some(text) => Answer {
            ending: Ending::Refused,
            text,
        },
        None => Answer::none(alloc, Ending::NoMemory),
    }
}

/// What is told of a scenario's file and a script of these names.
fn explained(
    alloc: Global,
    file: &[u8],
    scenario: &[u8],
    edits: &[u8],
    script: &[u8],
    meter: &mut Meter,
) -> Answer
    ensures { Explains file.now edits.now script.now scenario.now result.ending result.text.items }
{
    let telling = Telling {
        file,
        edits,
        form: Form::Json,
        warns: true,
    };
    let mut output = no_output(alloc);
    match explain_text(alloc, scenario, &telling, script, meter, &mut output) {
        Ok(_) => Answer {
            ending: Ending::Done,
            text: output.writer,
        },
        Err(SceneFault::Scenario(fault)) => refused(alloc, file, scenario, fault),
        Err(_) => Answer::none(alloc, Ending::NoMemory),
    }
}

/// Tells as JSON objects, in which the scenario's file and the script have these names, where the file breaks rules; where it is a
/// scenario, why lines of the script are refused, and then what the scenario is warned of, as the script leaves it.
#[unsafe(no_mangle)]
pub extern "C" fn page_explain(
    alloc: Global,
    file: &[u8],
    scenario: &[u8],
    edits: &[u8],
    script: &[u8],
    meter: &mut Meter,
    room: &mut [u8],
    len: &mut u64,
) -> u32
    ensures { Answers (Explains file.now edits.now script.now scenario.now) result len.new room.old room.new }
{
    explained(alloc, file, scenario, edits, script, meter).hand_over(room, len)
}
