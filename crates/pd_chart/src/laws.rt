//! What holds of charts. It runs nothing.

ghost use Rattle.pd_chart.specs.Laws.{CurvesAreTrue};

/// At the end of each instant of the window the budget and the sum of the contracts are those of the last step up to then, and the
/// least margin that is drawn is the least of the window, and the first: of the whole run it is that of `IsLeastMargin`.
pub fn curves_are_true()
    ensures { CurvesAreTrue }
{}
