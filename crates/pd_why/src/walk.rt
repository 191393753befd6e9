//! What bounds a port, over the run of a plan.

ghost use Rattle.std.specs.Prelude.{IfOk, OnOk, ◌≤◌, None};
ghost use Rattle.pd_run.specs.Cost.{CostsAllMoves, IsPaid};
ghost use Rattle.pd_why.specs.Story.{TellsFacts};

use crate::fact::Fact;
use crate::look::step_look;
use crate::question::Question;
use crate::story::Story;
use pd_port::Meter;
use pd_run::{Live, Plan};
use std::alloc::{AllocError, Global};

/// Runs a plan, and tells what bounds a port of it: of each offer up to a time, or of the last one, how the budget was shared, what
/// bounds each supply, what the sink asked and why, and what came of it; or that there is no offer. The meter rises by one for each move.
///
/// # Errors
/// There is no memory.
pub fn facts_of<const N: usize>(
    alloc: Global,
    plan: &Plan<N>,
    question: &Question,
    meter: &mut Meter,
) -> Result<Vec<Fact>, AllocError>
    ensures facts { IfOk result (λ facts. TellsFacts plan.now question.now facts.items) }
    ensures paid { OnOk result (IsPaid CostsAllMoves None plan.now meter.old meter.new) }
{
    let _count = meter.count();
    let mut live = Live::new(alloc, plan)?;
    let mut story = Story::new(alloc);
    while let Some((port, due)) = live.next(plan) {
        let look = step_look(alloc, plan, &mut live, port, &due, meter)?;
        story = story.hear(question, &look)?;
    }
    story.end(question)
}
