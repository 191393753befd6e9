//! A run as a transcript that an engineer reads.

ghost use Rattle.pd_show.specs.Show.{CountsShow, ShowsRun};

use crate::Choice;
use crate::lines::push_lines;
use crate::page::Page;
use crate::seen::step_seen;
use pd_device::{BenchFault, TextOut};
use pd_port::Meter;
use pd_run::{Live, Plan};
use pd_watch::at_rest;
use std::alloc::Global;

/// Runs a plan, and writes what is chosen of each of its moves.
///
/// # Errors
/// `Memory` where there is none, `WriteFailed` where the writer failed or took no byte; the first few bytes of the text have
/// gone out.
pub fn show<const N: usize, W: TextOut>(
    alloc: Global,
    plan: &Plan<N>,
    choice: &Choice,
    writer: &mut W,
    meter: &mut Meter,
) -> Result<(), BenchFault>
    ensures text { ShowsRun plan.now choice.now result (W.taken writer.old) (W.taken writer.new) }
    ensures counts { CountsShow result (W.failures writer.old) (W.failures writer.new) }
{
    let Ok(mut live) = Live::new(alloc, plan) else {
        return Err(BenchFault::Memory);
    };
    let Ok(mut watches) = at_rest(alloc, N) else {
        return Err(BenchFault::Memory);
    };
    let Ok(mut page) = Page::new(alloc, choice.form) else {
        return Err(BenchFault::Memory);
    };
    let mut said = Vec::new(alloc);
    while let Some((port, due)) = live.next(plan) {
        let Ok(seen) = step_seen(alloc, plan, &mut live, &mut watches, port, &due, meter) else {
            return Err(BenchFault::Memory);
        };
        let Ok(()) = push_lines(&mut page, &mut said, choice, &seen) else {
            return Err(BenchFault::Memory);
        };
        page.pass(writer)?;
    }
    page.flush(writer)
}
