//! What sessions over a case come to, and whether a file is refused.

ghost use Rattle.std.specs.Prelude.{IsTrue, IfSome};
ghost use Rattle.pd_scenario_text.specs.Texts.{IsRefusedBy};
ghost use Rattle.pd_bench.specs.Texts.{IsAnswered};

use crate::cases::Case;
use pd_bench::{check_text, run_kept, run_plain};
use pd_device::Output;
use pd_port::Meter;
use std::alloc::Global;

// The steps of a session that writes what is expected.
macro_rules! steps_of {
    ($run:ident, $alloc:ident, $case:ident) => {{
        let mut out = Output {
            writer: Vec::new($alloc),
            failures: 0,
        };
        let mut meter = Meter::new();
        let (scenario, edits) = ($case.scenario.as_slice(), $case.edits.as_slice());
        match $run($alloc, scenario, edits, &mut out, &mut meter) {
            Ok(_) if out.writer.as_slice() == $case.output.as_slice() => Some(meter.count()),
            _ => None,
        }
    }};
}

/// The steps of a session that runs each edit from the start, where it writes what is expected.
pub fn plain_steps(alloc: Global, case: &Case) -> Option<u64>
    ensures { IfSome result (λ _. IsAnswered case.now.scenario.items case.now.edits.items case.now.output.items) }
{
    steps_of!(run_plain, alloc, case)
}

/// The steps of a session that keeps the moves of each run for the next, where it writes what is expected.
pub fn kept_steps(alloc: Global, case: &Case) -> Option<u64>
    ensures { IfSome result (λ _. IsAnswered case.now.scenario.items case.now.edits.items case.now.output.items) }
{
    steps_of!(run_kept, alloc, case)
}

/// Whether the text of a file is refused by this number.
pub fn is_refused(alloc: Global, text: &[u8], number: u8) -> bool
    ensures { IsTrue result → IsRefusedBy text.now number }
{
    match check_text(alloc, text) {
        Ok(()) => false,
        Err(fault) => fault.number() == number,
    }
}
