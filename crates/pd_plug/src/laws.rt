//! Laws of the engine's table and steps.

ghost use Rattle.pd_plug.specs.Laws.{RowsAreNumbered, StepsSetLater, StepsSendOfTheirCables};

/// Each row of the state table has the number of its place.
pub fn rows()
    ensures { RowsAreNumbered }
{}

/// Each deadline that a step sets is later than the step, and the timer that fell due no longer runs.
pub fn later()
    ensures { StepsSetLater }
{}

/// The engine knows the cable of its attach, and sends what that cable answers.
pub fn cables()
    ensures { StepsSendOfTheirCables }
{}
