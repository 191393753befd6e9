//! Sessions over edit scripts.

ghost use Rattle.pd_page.specs.Answers.{Answers};
ghost use Rattle.pd_page.specs.Calls.{Runs};

use crate::Ending;
use crate::answer::{Answer, no_output};
use crate::ending::scenario_ending;
use pd_bench::{RunFault, run_kept};
use pd_device::BenchFault;
use pd_port::Meter;
use std::alloc::Global;

/// What a session over an edit script writes for the scenario of a text.
fn ran(alloc: Global, scenario: &[u8], script: &[u8], meter: &mut Meter) -> Answer
    ensures { Runs script.now scenario.now result.ending result.text.items }
{
    let mut output = no_output(alloc);
    match run_kept(alloc, scenario, script, &mut output, meter) {
        Ok(_) => Answer {
            ending: Ending::Done,
            text: output.writer,
        },
        Err(RunFault::Scenario(fault)) => Answer::none(alloc, scenario_ending(fault)),
        Err(RunFault::Session(BenchFault::ReaderTooLong)) => Answer::none(alloc, Ending::TooLong),
        Err(RunFault::Session(_)) => Answer::none(alloc, Ending::NoMemory),
    }
}

/// Runs a session over an edit script for the scenario of a text.
#[unsafe(no_mangle)]
pub extern "C" fn page_run(
    alloc: Global,
    scenario: &[u8],
    script: &[u8],
    meter: &mut Meter,
    room: &mut [u8],
    len: &mut u64,
) -> u32
    ensures { Answers (Runs script.now scenario.now) result len.new room.old room.new }
{
    ran(alloc, scenario, script, meter).hand_over(room, len)
}
