//! Laws of a port's step. They run nothing. The promise of the bench rests on them: that each run ends on `later` and
//! `earliest_first`; that all contracts lie within the budget of the time on `steps_once`, `answered`, `budget` and `sheds`; that
//! each contract lies within its offer on `sound` and `agreed`, and within its cable's rating on `cables`; that margins tell the
//! truth on `contracts`. `detached`, `busy`, `disturbed` and `started` say of the written tables what a reader expects of a cable
//! that is pulled out, of the line and of packets.

ghost use Rattle.pd_port.specs.Laws.{StepsSetLater, DuesAreEarliest, SourceStepsOnce, DetachedAreNew};
ghost use Rattle.pd_port.specs.Laws.{AnswersMatterOnlyWhereAsked, WaitsWhileBusy, StartsNoTwo, BusyLinesAreLeft};
ghost use Rattle.pd_port.specs.Budget.{ContractsAreTold, HoldsCoverContracts, RestsAreEmpty, ChangesKeepOrShed, HoldsStayAllowed};
ghost use Rattle.pd_port.specs.Budget.{EventsComeFirst};
ghost use Rattle.pd_port.specs.Packets.{DisturbedReachNobody, StartsAreOnTheLine};
ghost use Rattle.pd_port.specs.Sheds.{ShedsLast};
ghost use Rattle.pd_port.specs.Sound.{PortsStaySound, PortsAgree};
ghost use Rattle.pd_port.specs.Cables.{PortsKnowTheirCables};

/// Each deadline and each line's end that a step sets is later than the step.
pub fn later()
    ensures { StepsSetLater }
{}

/// What falls due next is one of the dues, and none of them is before it.
pub fn earliest_first()
    ensures { DuesAreEarliest }
{}

/// In a step of the port the source takes one step, with what the port says before it that the source is told, and with
/// the answer. Where it is told nothing, it takes none. Where the budget changes, the answer says whether the source is told
/// to shed its hold; where the cable is pulled out, it is off.
pub fn steps_once()
    ensures { SourceStepsOnce }
{}

/// Where the cable is pulled out, the port is as at the start.
pub fn detached()
    ensures { DetachedAreNew }
{}

/// Where the port asks nothing, no answer matters.
pub fn answered()
    ensures { AnswersMatterOnlyWhereAsked }
{}

/// What waits starts only while the line is idle, and in no step in which what falls due starts a packet. While
/// something is on the line, nothing but its own end changes the line or starts anything, unless the cable is pulled out.
pub fn busy()
    ensures waits { WaitsWhileBusy }
    ensures no_two { StartsNoTwo }
    ensures left { BusyLinesAreLeft }
{}

/// A lost or a damaged packet reaches nobody: not a message its receiver, and not a GoodCRC the sender of its message.
pub fn disturbed()
    ensures { DisturbedReachNobody }
{}

/// A packet that starts in a step is on the line after it, and a side that hears gets the packet of the codes that are shown
/// for it, or nothing.
pub fn started()
    ensures { StartsAreOnTheLine }
{}

/// What a port holds of the shared budget is at least its contract's power, and comes to no more than is free, or than it
/// was. At a change of the budget, which comes first at its time, a hold that may not stay falls to the floor; a source at
/// rest holds nothing above it.
pub fn budget()
    ensures contracts { HoldsCoverContracts }
    ensures rests { RestsAreEmpty }
    ensures changes { ChangesKeepOrShed }
    ensures holds { HoldsStayAllowed }
    ensures events { EventsComeFirst }
{}

/// A port that sheds at a change of the budget holds its floor alone and has no contract, and so it stays in each step at
/// that time.
pub fn sheds()
    ensures { ShedsLast }
{}

/// A detached port has no contract, and what a step's entry tells of its change leads from the power of the contract before
/// the step to the power after it.
pub fn contracts()
    ensures { ContractsAreTold }
{}

/// A port's source is sound at the start, and stays so in each step with an answer to what the port asks: its offers, its
/// accepted request and its contract are of its supplies, within the limit that it knows of the cable.
pub fn sound()
    ensures { PortsStaySound }
{}

/// In each step of a port a contract is made of the accepted request and the delivered offer, a request is accepted that is
/// kept, valid and fits, and the delivered offer is the one that was made, which stays where a request is accepted. A
/// contract is made in each step from Transition_Supply to Ready, and in no other.
pub fn agreed()
    ensures { PortsAgree }
{}

/// A port's source offers under no more than the attached cable is rated at, from the start and after each step, and is off
/// while nothing is attached: whatever may reach the source tells it of the attached cable alone.
pub fn cables()
    ensures { PortsKnowTheirCables }
{}
