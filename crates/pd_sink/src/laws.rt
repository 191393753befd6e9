//! Laws of the engine's table and steps, and of what it sends.

ghost use Rattle.pd_sink.specs.Laws.{RowsAreNumbered, StepsSetLater, NeedsAreLeast, AcceptedAreOffered, SinksAskByTheRule};
ghost use Rattle.pd_sink.specs.Laws.{RequestsHaveTheirFields, CapabilitiesHaveTheirFields};

/// Each row of the state table has the number of its place.
pub fn rows()
    ensures { RowsAreNumbered }
{}

/// Each deadline that a step sets is later than the step, and the timer that fell due no longer runs.
pub fn later()
    ensures { StepsSetLater }
{}

/// What a sink asks of an offer: the supply of highest voltage that is offered at what is needed, or else the one of
/// greatest power.
pub fn asks()
    ensures need { NeedsAreLeast }
    ensures accepted { AcceptedAreOffered }
    ensures rule { SinksAskByTheRule }
{}

/// The objects that a sink sends have the fields that they are made of.
pub fn objects()
    ensures requests { RequestsHaveTheirFields }
    ensures capabilities { CapabilitiesHaveTheirFields }
{}
