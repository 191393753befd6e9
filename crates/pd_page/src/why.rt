//! What bounds a port.

ghost use Rattle.std.specs.Prelude.{◌≡◌};
ghost use Rattle.pd_page.specs.Answers.{Answers};
ghost use Rattle.pd_page.specs.Calls.{Asks};
ghost use Rattle.pd_page.specs.Choices.{question_of, until};

use crate::Ending;
use crate::answer::Answer;
use crate::ending::scene_ending;
use pd_port::Meter;
use pd_why::{Form, Question, Refused, why_text};
use std::alloc::Global;

/// What bounds a port in the run of the scenario of a text, as an edit script leaves it.
fn asked(
    alloc: Global,
    scenario: &[u8],
    script: &[u8],
    question: &Question,
    meter: &mut Meter,
) -> Answer
    ensures { Asks question.now script.now scenario.now result.ending result.text.items }
{
    match why_text(
        alloc,
        scenario,
        script,
        Refused::Skipped,
        question,
        Form::Json,
        meter,
    ) {
        Ok(said) => Answer {
            ending: Ending::Done,
            text: said,
        },
        Err(fault) => Answer::none(alloc, scene_ending(fault)),
    }
}

/// The time up to which each offer is asked for, where each is.
fn until(each: bool, to: u64) -> Option<u64>
    ensures { result ≡ until each to }
{
    if each { Some(to) } else { None }
}

/// Tells as JSON objects what bounds a port, numbered from 1, in the run of the scenario of a text, as an edit script leaves it: of its
/// last offer, or of each offer up to a time, in microseconds.
#[unsafe(no_mangle)]
pub extern "C" fn page_why(
    alloc: Global,
    scenario: &[u8],
    script: &[u8],
    port: u32,
    each: bool,
    to: u64,
    meter: &mut Meter,
    room: &mut [u8],
    len: &mut u64,
) -> u32
    ensures { Answers (Asks (question_of port each to) script.now scenario.now) result len.new room.old room.new }
{
    let question = Question {
        port: port as usize,
        to: until(each, to),
    };
    asked(alloc, scenario, script, &question, meter).hand_over(room, len)
}
