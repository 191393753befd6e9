//! Runs that are shown.

ghost use Rattle.pd_page.specs.Answers.{Answers};
ghost use Rattle.pd_page.specs.Calls.{Shows};
ghost use Rattle.pd_page.specs.Choices.{choice_of};

use crate::Ending;
use crate::answer::{Answer, no_output};
use crate::choices::port_of;
use crate::ending::scene_ending;
use pd_port::Meter;
use pd_show::{Choice, Form, Refused, show_text};
use std::alloc::Global;

/// The run of the scenario of a text, as an edit script leaves it.
fn shown(
    alloc: Global,
    scenario: &[u8],
    script: &[u8],
    choice: &Choice,
    meter: &mut Meter,
) -> Answer
    ensures { Shows choice.now script.now scenario.now result.ending result.text.items }
{
    let mut output = no_output(alloc);
    match show_text(
        alloc,
        scenario,
        script,
        Refused::Skipped,
        choice,
        &mut output,
        meter,
    ) {
        Ok(()) => Answer {
            ending: Ending::Done,
            text: output.writer,
        },
        Err(fault) => Answer::none(alloc, scene_ending(fault)),
    }
}

/// Shows the run of the scenario of a text, as an edit script leaves it, as JSON objects: what a port, numbered from 1, or for 0 each
/// port, says from one time to another, in microseconds, with the GoodCRC messages or without them, and with the packets' codes or
/// without.
#[unsafe(no_mangle)]
pub extern "C" fn page_show(
    alloc: Global,
    scenario: &[u8],
    script: &[u8],
    port: u32,
    from: u64,
    to: u64,
    good_crc: bool,
    codes: bool,
    meter: &mut Meter,
    room: &mut [u8],
    len: &mut u64,
) -> u32
    ensures { Answers (Shows (choice_of port from to good_crc codes) script.now scenario.now) result len.new room.old room.new }
{
    let port = port_of(port);
    let choice = Choice {
        port,
        from,
        to,
        good_crc,
        codes,
        form: Form::Json,
    };
    shown(alloc, scenario, script, &choice, meter).hand_over(room, len)
}
