//! Moves of an older run that are asked again for their answers.

ghost use Rattle.std.specs.Prelude.{List, IfOk, IsTrue, map};
ghost use Rattle.pd_run.specs.Order.{EachAfter};
ghost use Rattle.pd_run.specs.Run.{Move, IsAnswered};
ghost use Rattle.pd_keep.specs.Kept.{move_of};
ghost use Rattle.pd_keep.specs.Rerun.{GoesOnWith};

use crate::kept_move::KeptMoves;
use pd_run::Plan;
use std::alloc::{AllocError, Global};

/// Whether each move of a span, which goes on with a plan's run, has the answer that the plan's budget gives it.
///
/// # Errors
/// There is no memory.
pub fn are_answered<const N: usize>(
    alloc: Global,
    plan: &Plan<N>,
    span: &KeptMoves,
) -> Result<bool, AllocError>
    requires { (past : List Move) × GoesOnWith N plan.now past span.now }
    ensures { IfOk result (λ same. IsTrue same → (past : List Move) → GoesOnWith N plan.now past span.now
        → EachAfter (IsAnswered plan.now) past (map move_of span.now.moves)) }
{
    let _end = plan.end();
    let mut shared = span.shared_budget(alloc, plan)?;
    for i in 0..span.len() {
        if !span.is_answered(i, plan, &mut shared) {
            return Ok(false);
        }
    }
    Ok(true)
}
