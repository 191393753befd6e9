//! Laws of the engine's table and steps.

ghost use Rattle.pd_source.specs.Laws.{RowsAreNumbered, StepsSetLater, StepsReadOnlyTheirAnswer};
ghost use Rattle.pd_source.specs.Laws.{HoldsKeepTheFloor, HoldsOfDetachedAreFloors, HoldsStayAllowed};
ghost use Rattle.pd_source.specs.Laws.{OffersAskUnderTheLimit, LimitsAreOfAnswers, TheStartIsSound, StepsStaySound};
ghost use Rattle.pd_source.specs.Laws.{ContractsAreMade, RequestsAreTaken, OffersAreSettled, AcceptingKeepsTheOffer};
ghost use Rattle.pd_source.specs.Laws.{ObjectsOfferTheirSupplies, OffStaysOff};
ghost use Rattle.pd_source.specs.Commits.{ContractsAreMadeAtReady};
ghost use Rattle.pd_source.specs.Rest.{TheStartIsEmptyAtRest, StepsStayEmptyAtRest, ShedsFallToTheFloor};
ghost use Rattle.pd_source.specs.Silent.{OffIsSilent, ShedsAreSilent, SilentStaySilent};

/// Each row of the state table has the number of its place.
pub fn rows()
    ensures { RowsAreNumbered }
{}

/// Each deadline that a step sets is later than the step, and the timer that fell due no longer runs.
pub fn later()
    ensures { StepsSetLater }
{}

/// An answer matters only where the engine asks.
pub fn answered()
    ensures { StepsReadOnlyTheirAnswer }
{}

/// What the port holds is at least its floor, is the floor while it is detached, and grows to no more than is free.
pub fn holds()
    ensures floor { HoldsKeepTheFloor }
    ensures detached { HoldsOfDetachedAreFloors }
    ensures allowed { HoldsStayAllowed }
{}

/// While the engine is off, waits for a sink that answers no offer, or is disabled, nothing is offered anew, accepted or
/// agreed on; and once it has shed, the port holds its floor alone.
pub fn rests()
    ensures start { TheStartIsEmptyAtRest }
    ensures stepped { StepsStayEmptyAtRest }
    ensures sheds { ShedsFallToTheFloor }
{}

/// A source that has shed, or is off, sends no message and holds nothing, and it stays so at that time: what it waits for
/// comes later.
pub fn silent()
    ensures off { OffIsSilent }
    ensures sheds { ShedsAreSilent }
    ensures stays { SilentStaySilent }
{}

/// An offer is asked for under the limit that the step leaves, and each limit has its cause.
pub fn limits()
    ensures asked { OffersAskUnderTheLimit }
    ensures causes { LimitsAreOfAnswers }
{}

/// At each step the limit, the offers, the accepted request and the contract are as they should be, where each answer is
/// one to what was asked.
pub fn sound()
    ensures start { TheStartIsSound }
    ensures stepped { StepsStaySound }
{}

/// A contract is made of the accepted request and the delivered offer, a request is accepted where it is valid and fits, and
/// the delivered offer is the one that was made, which stays where a request is accepted.
pub fn agreed()
    ensures contract { ContractsAreMade }
    ensures accepted { RequestsAreTaken }
    ensures delivered { OffersAreSettled }
    ensures kept { AcceptingKeepsTheOffer }
{}

/// A contract is made in each step that leads from Transition_Supply to Ready, and in no other; and while a request is
/// accepted, none is accepted anew.
pub fn commits()
    ensures { ContractsAreMadeAtReady }
{}

/// The objects of Source_Capabilities offer the supplies at the currents of the draft offer.
pub fn objects()
    ensures { ObjectsOfferTheirSupplies }
{}

/// A source that is off stays off until a sink is attached.
pub fn off()
    ensures { OffStaysOff }
{}
