//! What holds of sets and their rows. The laws run nothing.

ghost use Rattle.pd_vary.specs.Laws.{RangesAreWhole, RowsAreCombinations};

/// The rows are all combinations of the values of the sets, each once, the first set's values turning slowest.
pub fn rows_are_combinations()
    ensures { RowsAreCombinations }
{}

/// Each number of a range is up to its end, and the next one would be past it.
pub fn ranges_are_whole()
    ensures { RangesAreWhole }
{}
