//! What holds of warnings.

ghost use Rattle.pd_warn.specs.Truth.{BudgetsAreGreatest, IgnoredEventsDoNothing, LateEventsNeverHappen, SharesAreNeverPassed};
ghost use Rattle.pd_warn.specs.Truth.{UnusedNamesChangeNothing, WhysAreTrue};

/// Where an event is ignored, the reason that is told is that of its port before the move: a sink is attached already, nothing is
/// attached, eight disturbances wait, or the engine that is to ask isn't ready.
pub fn whys_are_true()
    ensures { WhysAreTrue }
{}

/// An event that is told to be ignored is one of the run's: its move leaves its port as it was, and nothing comes of it but the note
/// that it is ignored.
pub fn ignored_events_do_nothing()
    ensures { IgnoredEventsDoNothing }
{}

/// No move of a scenario's run is for an event that is told to be after the end.
pub fn late_events_never_happen()
    ensures { LateEventsNeverHappen }
{}

/// Without a cable or a sink that is told to be unused a scenario has the same plan.
pub fn unused_names_change_nothing()
    ensures { UnusedNamesChangeNothing }
{}

/// The budget by which shares are told is the greatest of that at the start and of those that events change to up to the end.
pub fn budgets_are_greatest()
    ensures { BudgetsAreGreatest }
{}

/// At each place of a scenario's run what a port holds and offers, and its contract, is within the share that is told of it.
pub fn shares_are_never_passed()
    ensures { SharesAreNeverPassed }
{}
