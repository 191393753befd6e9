//! What holds of runs.

ghost use Rattle.pd_run.specs.Laws.{OneRun, AlwaysFit, ContractsAlwaysFit};
ghost use Rattle.pd_run.specs.Sheds.{ShedsAlwaysLast};
ghost use Rattle.pd_run.specs.Sound.{RunsAreSound};
ghost use Rattle.pd_run.specs.UpTo.{GoOnAlike, AnsweredAlike, PortsGoOnAlike};

/// A plan has at most one run.
pub fn one_run()
    ensures { OneRun }
{}

/// The ports' holds fit the budget of the time at the end of each instant of a run.
pub fn always_fit()
    ensures { AlwaysFit }
{}

/// The powers of all ports' contracts, voltage times maximum operating current, add to at most the budget of the time at the
/// end of each instant of a run.
pub fn contracts_fit()
    ensures { ContractsAlwaysFit }
{}

/// A port of a run that sheds at a change of the budget holds its floor alone and has no contract, from that move on to the
/// end of the instant.
pub fn sheds_last()
    ensures { ShedsAlwaysLast }
{}

/// At each place of a run each contract is of the offer that was delivered before the move that accepted its request: of one of
/// the port's supplies, at its voltage, and for no more than was offered there, which is within the configured current and
/// the limit that the source knows of its cable. And a cable is attached that is rated at no less than the contract's
/// current: at 5,000 mA where it is for 5 A and its plug acknowledges, and else at 3,000 mA.
pub fn sound()
    ensures { RunsAreSound }
{}

/// A port that stands alike, and has the same events left before a time, moves alike until then, whatever other ports do, as long as it
/// is answered alike: each move of it that goes on in the one run goes on in the other.
pub fn port_goes_on_alike()
    ensures { PortsGoOnAlike }
{}

/// Ports that stand alike move alike for as long as both plans have the same scripts and what they ask is answered alike: until then
/// each move of the one run is a move of the other.
pub fn go_on_alike()
    ensures { GoOnAlike }
{}

/// What they ask is answered alike for as long as both plans also have the same budget.
pub fn answered_alike()
    ensures { AnsweredAlike }
{}
