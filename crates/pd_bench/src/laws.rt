//! What is proved of the definitions alone.

ghost use Rattle.pd_bench.specs.Laws.{RefusedChangesNothing, RefusalsAreShown};
ghost use Rattle.pd_bench.specs.Traces.{LinesCanBeTakenOut, RefusalsLeaveNoTrace, RefusedLeavesNoTrace};

/// A refused line changes nothing but its own reply and the count.
pub fn refused_changes_nothing()
    ensures { RefusedChangesNothing }
{}

/// A line that is refused for its own sake is always refused, by its number.
pub fn refusals_are_shown()
    ensures { RefusalsAreShown }
{}

/// A refused line leaves no trace: without it, its own reply and its count, the session is one over the other lines.
pub fn refused_leaves_no_trace()
    ensures { RefusedLeavesNoTrace }
{}

/// A line that is refused for its own sake, with the scenario as edited by the lines before it, is refused by its number
/// wherever it stands, and leaves no trace.
pub fn refusals_leave_no_trace()
    ensures { RefusalsLeaveNoTrace }
{}

/// The bytes of a script without one of its lines have the other lines: so those two laws speak of each line of each script.
pub fn lines_can_be_taken_out()
    ensures { LinesCanBeTakenOut }
{}
