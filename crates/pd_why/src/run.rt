//! What bounds a port over the run of a plan.

ghost use Rattle.std.specs.Prelude.{None, OnOk};
ghost use Rattle.pd_run.specs.Cost.{CostsAllMoves, IsPaid};
ghost use Rattle.pd_why.specs.Answers.{TellsWhy};

use crate::{Question, facts_of, push_fact_lines};
use pd_port::Meter;
use pd_run::Plan;
use pd_text::Form;
use std::alloc::{AllocError, Global};

/// Runs a plan, and writes what bounds a port of it: of each offer up to a time, or of the last one, how the budget was shared, what
/// bounds each supply and which bounds set its current, what the sink asked and why, and what came of it. The meter
/// rises by one for each move.
///
/// # Errors
/// There is no memory; some of it may stand in the text.
pub fn why<const N: usize>(
    alloc: Global,
    plan: &Plan<N>,
    question: &Question,
    form: Form,
    meter: &mut Meter,
    text: &mut Vec<u8>,
) -> Result<(), AllocError>
    ensures text { OnOk result (TellsWhy form plan.now question.now text.old.items text.new.items) }
    ensures paid { OnOk result (IsPaid CostsAllMoves None plan.now meter.old meter.new) }
{
    let facts = facts_of(alloc, plan, question, meter)?;
    push_fact_lines(text, form, facts.as_slice())
}
