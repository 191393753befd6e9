//! What holds of the shows. It runs nothing.

ghost use Rattle.pd_report.specs.Truth.{MarginsAreTrue};

/// Margins tell the truth: at the end of each instant of a run the entries tell of the contracts that the ports' records have,
/// those take at most the budget of then, and a line's two numbers, what they take and what they leave, add to it.
pub fn margins_are_true()
    ensures { MarginsAreTrue }
{}
