//! What holds of trials, of the parts of a sweep, and of its limits. It runs nothing.

ghost use Rattle.pd_sweep.specs.Laws.{HitsAreTrue, MeasuresAreTrue};
ghost use Rattle.pd_sweep.specs.Limits.{LimitsAreOfRuns};
ghost use Rattle.pd_sweep.specs.Whole.{PartsJoin, SharesAreTheSweep, SharesCoverOnce, ShortPartIsWhole, SinglesAreThePackets};

/// Packets that are told to be hit are lost or damaged in the run of the variant: each starts there at its time on its port, and the
/// disturbance that it takes is that of an event which was put in for it, or for a packet before it in a row.
pub fn hits_are_true()
    ensures { HitsAreTrue }
{}

/// How the contracts of a run differ from those of the run without a loss is told of the one run of the variant beside the one run of
/// the scenario.
pub fn measures_are_true()
    ensures { MeasuresAreTrue }
{}

/// Two parts of a sweep in a row have the trials of both as one part, beside the same findings without a loss; and a part from the
/// first packet on that has fewer trials than it may have is the whole sweep.
pub fn parts_are_the_sweep()
    ensures join { PartsJoin }
    ensures whole { ShortPartIsWhole }
{}

/// The shares of a sweep cover each packet once, in order; their trials, and the lines of these, are those of the whole sweep.
pub fn shares_are_the_sweep()
    ensures places { SharesCoverOnce }
    ensures trials { SharesAreTheSweep }
{}

/// Where packets are lost alone, each that is chosen of the run has its trial, once and in the run's order.
pub fn singles_are_the_packets()
    ensures { SinglesAreThePackets }
{}

/// A limit of a sweep is passed exactly where one of its runs passes it.
pub fn limits_are_of_runs()
    ensures { LimitsAreOfRuns }
{}
