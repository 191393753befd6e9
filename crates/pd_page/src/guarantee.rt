//! What is sure for each port of a charger.

ghost use Rattle.std.specs.Prelude.{◌≡◌};
ghost use Rattle.pd_page.specs.Answers.{Answers};
ghost use Rattle.pd_page.specs.Calls.{Guarantees};

use crate::Ending;
use crate::answer::Answer;
use crate::ending::scene_ending;
use pd_guarantee::{Form, Refused, guarantee_text};
use std::alloc::Global;

/// What is sure for each port of the charger of a text's scenario, as an edit script leaves it.
fn guaranteed(alloc: Global, scenario: &[u8], script: &[u8]) -> Answer
    ensures { Guarantees script.now scenario.now result.ending result.text.items }
{
    match guarantee_text(alloc, scenario, script, Refused::Skipped, Form::Json) {
        Ok(said) => Answer {
            ending: Ending::Done,
            text: said,
        },
        Err(fault) => Answer::none(alloc, scene_ending(fault)),
    }
}

/// Tells as JSON objects what is sure for each port of the charger of a text's scenario, as an edit script leaves it, whatever is
/// attached to it and whatever happens: it runs nothing.
#[unsafe(no_mangle)]
pub extern "C" fn page_guarantee(
    alloc: Global,
    scenario: &[u8],
    script: &[u8],
    room: &mut [u8],
    len: &mut u64,
) -> u32
    ensures { Answers (Guarantees script.now scenario.now) result len.new room.old room.new }
{
    guaranteed(alloc, scenario, script).hand_over(room, len)
}
