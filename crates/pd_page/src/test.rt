//! Test scripts.

ghost use Rattle.std.specs.Prelude.{◌≡◌, ◌++◌, IfOk, true};
ghost use Rattle.pd_text.specs.declared.piece.Form.TheVariants.{Json as form_json};
ghost use Rattle.pd_expect.specs.Cases.{cases_text, tally_of};
ghost use Rattle.pd_expect.specs.Words.{tally_object};
ghost use Rattle.pd_page.specs.Answers.{Answers};
ghost use Rattle.pd_page.specs.Calls.{TestsScript};

use crate::Ending;
use crate::answer::Answer;
use crate::ending::scene_ending;
use pd_expect::{Case, Form, TestTally, push_cases, test_text};
use pd_port::Meter;
use std::alloc::{AllocError, Global};

/// What is told of cases as JSON objects, and how many there are of each kind.
fn cases_text(alloc: Global, name: &[u8], cases: &[Case]) -> Result<Vec<u8>, AllocError>
    ensures { IfOk result (λ text. text.items ≡ cases_text form_json true name.now cases.now ++ tally_object (tally_of cases.now)) }
{
    let mut text = Vec::new(alloc);
    push_cases(alloc, &mut text, Form::Json, true, name, cases)?;
    TestTally::of(cases).push_object(&mut text)?;
    Ok(text)
}

/// What a test script comes to for the scenario of a text.
fn tested(alloc: Global, name: &[u8], scenario: &[u8], script: &[u8], meter: &mut Meter) -> Answer
    ensures { TestsScript name.now script.now scenario.now result.ending result.text.items }
{
    match test_text(alloc, scenario, name, script, meter) {
        Ok(cases) => match cases_text(alloc, name, cases.as_slice()) {
            Ok(text) => Answer {
                ending: Ending::Done,
                text,
            },
            Err(_) => Answer::none(alloc, Ending::NoMemory),
        },
        Err(fault) => Answer::none(alloc, scene_ending(fault)),
    }
}

/// Goes through the lines of a test script, which has a name, for the scenario of a text, and tells as JSON objects of each that
/// passes, fails or is refused, and how many there are of each.
#[unsafe(no_mangle)]
pub extern "C" fn page_test(
    alloc: Global,
    name: &[u8],
    scenario: &[u8],
    script: &[u8],
    meter: &mut Meter,
    room: &mut [u8],
    len: &mut u64,
) -> u32
    ensures { Answers (TestsScript name.now script.now scenario.now) result len.new room.old room.new }
{
    tested(alloc, name, scenario, script, meter).hand_over(room, len)
}
