//! Pictures of runs.

ghost use Rattle.pd_page.specs.Answers.{Answers};
ghost use Rattle.pd_page.specs.Calls.{Draws};
ghost use Rattle.pd_page.specs.Choices.{look_of};

use crate::Ending;
use crate::answer::Answer;
use crate::choices::port_of;
use crate::ending::scene_ending;
use pd_draw::{Look, Refused, draw_text};
use pd_port::Meter;
use std::alloc::Global;

/// The picture of the run of the scenario of a text, as an edit script leaves it.
fn drawn(alloc: Global, scenario: &[u8], script: &[u8], look: Look, meter: &mut Meter) -> Answer
    ensures { Draws look script.now scenario.now result.ending result.text.items }
{
    match draw_text(alloc, scenario, script, Refused::Skipped, look, b"", meter) {
        Ok(picture) => Answer {
            ending: Ending::Done,
            text: picture,
        },
        Err(fault) => Answer::none(alloc, scene_ending(fault)),
    }
}

/// Draws the run of the scenario of a text, as an edit script leaves it, as an SVG: the window from one time to another, in
/// microseconds, so many pixels wide, with the lane of a port, numbered from 1, or all lanes for 0.
#[unsafe(no_mangle)]
pub extern "C" fn page_draw(
    alloc: Global,
    scenario: &[u8],
    script: &[u8],
    from: u64,
    to: u64,
    width: u32,
    port: u32,
    meter: &mut Meter,
    room: &mut [u8],
    len: &mut u64,
) -> u32
    ensures { Answers (Draws (look_of from to width port) script.now scenario.now) result len.new room.old room.new }
{
    let port = port_of(port);
    let look = Look {
        from,
        to,
        width,
        port,
        holds: false,
    };
    drawn(alloc, scenario, script, look, meter).hand_over(room, len)
}
